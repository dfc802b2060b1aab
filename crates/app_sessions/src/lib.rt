//! Sessions: the statements of a script, answered one by one over the versions that they are asked
//! at, and their text. Jobs: sessions that run beside a publisher.
#![tactic(auto)]

mod closing;
mod compaction;
mod counts;
mod expansion;
mod explained;
mod forking;
mod job;
mod job_error;
mod job_text;
pub mod laws;
mod list_job;
mod meeting;
mod outcome;
mod publishing;
mod query;
mod report;
mod runs;
mod session;
mod text;
mod versions;
mod views;
mod worker;
mod workers;

pub use compaction::is_compaction_due;
pub use counts::push_counts;
pub use expansion::expand;
pub use explained::{Explained, explain};
pub use job::{JobSetup, run_job};
pub use job_error::JobError;
pub use job_text::JobText;
pub use list_job::{run_feed_job, run_list_job};
pub use outcome::Outcome;
pub use runs::run_outcome;
pub use session::{Session, Turn};
pub use views::{drop_view, make_view};
