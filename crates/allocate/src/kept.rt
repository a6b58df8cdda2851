//! What is kept of a context while its cells are priced, and serves its plan.

use crate::fits::Fits;
use range_colour::Fit;

/// The fits of a context: that over the whole program alone, where it serves every size, or those over
/// the regions too.
#[derive(Drop)]
pub(crate) enum Kept {
    Free(Fit),
    Fitted(Fits),
}
