//! Laws of the made data: each table that is made for a number is of its form.
#![tactic(auto)]

pub mod laws;
