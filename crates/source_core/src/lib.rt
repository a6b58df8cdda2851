//! The plain interpreter of sources: each context has registers of its own.
#![tactic(auto)]

mod context;
mod source_run;

pub use context::ContextState;
pub use source_run::SourceRun;
