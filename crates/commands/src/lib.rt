//! What the commands do with their input, once it is read: with a bundle, an image, or a bundle and a
//! journal. A run of an image is prepared, then brought to an ending with its ports, and reported.
#![tactic(auto)]

mod bundle_images;
mod bundles;
mod image_runs;
mod images;
mod journal_lines;
mod journals;
mod no_fit;
mod prepared;
mod reports;
mod soaks;
mod sources;
mod status;
mod task;

pub use bundles::prepare_bundle;
pub use image_runs::{report_in_rounds, report_in_threads};
pub use images::prepare_image;
pub use journals::perform_on_journal;
pub use prepared::{Opening, Prepared};
pub use soaks::perform_soak;
pub use status::Status;
pub use task::{BundleTask, ImageTask, Job, JournalTask, Order, Reply, Task};
