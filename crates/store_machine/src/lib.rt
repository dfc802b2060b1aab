//! Sessions that begin, scan and learn beside refreshes that are published, as one machine without
//! threads.
//!
//! What running sessions do is said by its steps.
#![tactic(auto)]

mod cut;
pub mod laws;
mod machine;
mod scan;
mod session;
mod steps;

pub use machine::{Machine, step};
pub use steps::{Cuts, Step};
