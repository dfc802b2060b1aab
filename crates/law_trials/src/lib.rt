//! Laws of trials: what a trial makes is accepted.
#![tactic(auto)]

pub mod laws;
