//! The whole of the program as one call over its words, its files, its sink, its disk and its
//! gate. Its contract says which text the sink took and with which status: the text of a session,
//! a job, a script's plans, a folder's counts or a trial, the line of the first refused input, or
//! the usage line.
#![tactic(auto)]

mod top;

pub use app_inputs::Status;
pub use top::tpch;
