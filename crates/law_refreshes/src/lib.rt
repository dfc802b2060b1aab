//! Laws of refreshes: those that are read for a job or a script are entries of a journal or malformed.
#![tactic(auto)]

pub mod laws;
