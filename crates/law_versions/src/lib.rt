//! Which refreshes are accepted, said without the order of their causes; and that what running
//! sessions and a publisher do is what the machine does.
#![tactic(auto)]

pub mod laws;
pub mod running;
