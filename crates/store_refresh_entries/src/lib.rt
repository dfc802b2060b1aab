//! Refreshes as the entries of a journal: the bytes that spell the rows or keys of a refresh, and
//! what is read back from them.
#![tactic(auto)]

mod laws;
mod payload;
mod reading;

pub use laws::{refreshes_of_files_are_readable, refreshes_of_files_are_short};
pub use payload::RefreshPayload;
