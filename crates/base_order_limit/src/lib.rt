//! What the rows of an answer are: their least fault, or their order and the row limit.
#![tactic(auto)]

mod key;
pub mod laws;

pub use key::OrderKey;
