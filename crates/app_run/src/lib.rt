//! The commands: each reads the files that it names, and answers one text with its status. A
//! session answers its statements one by one, a job runs its sessions beside a publisher of its
//! refreshes, which two senders may send, `explain` shows plans, `check` counts the rows of the
//! eight tables, and a trial is a job over made data.
#![tactic(auto)]

mod check;
mod commands;
mod explain;
mod job_input;
mod job_keeps;
mod job_sources;
pub mod laws;
mod output;
mod session;
mod throughput;
mod trial;

pub use commands::run;
