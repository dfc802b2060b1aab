//! The file of a job: the scripts of its sessions, the refreshes that are tried before them and
//! beside them, of which two senders may send some, the journal that keeps the accepted ones, and
//! the kept views.
#![tactic(auto)]

mod job;
pub mod laws;
mod line;
mod reading;
mod refusal;

pub use job::{Job, Keep, Mention};
pub use reading::{JobFileError, MAX_JOB, read_job};
pub use refusal::{JobRefusal, RefusedLine};
