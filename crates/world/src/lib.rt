//! What the contexts of an engine share beside its registers: memory, channels and outputs; and the
//! events, phases and answers of a run.
#![tactic(auto)]

mod channel;
mod copies;
mod event;
mod shared;

pub use channel::{ChannelKind, ChannelQueue, PortState};
pub use event::{End, Entry, Event, Illegal, Output, Phase, Seen, Segment, SegmentEnd, Trap, View};
pub use shared::World;
