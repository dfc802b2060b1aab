//! Numbers of many keys by several threads: each thread numbers the keys of its own part of the
//! hash.
#![tactic(auto)]

mod in_parts;
mod leaders;
mod parts;

pub use in_parts::numbers_in_parts;
