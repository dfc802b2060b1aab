//! What runs once the inputs are read: the sessions of a job beside the publisher of its refreshes,
//! which two senders may send and a journal may keep, and the turns of a session alone.
#![tactic(auto)]

mod journal;
mod keeping;
mod kept;
mod kept_senders;
pub mod laws;
mod plain;
mod senders;
mod sources;
mod turns;

pub use kept::{Played, play_kept};
pub use plain::run_sources;
pub use sources::{JobKeeps, JobSources};
pub use turns::take_turns;
