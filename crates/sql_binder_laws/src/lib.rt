//! What the binder gives, said in other words than its definition's.
#![tactic(auto)]

pub mod laws;
