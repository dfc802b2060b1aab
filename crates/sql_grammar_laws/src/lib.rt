//! Laws of grammars that are read from left to right by one token of look-ahead.
#![tactic(auto)]

mod fault;

pub use fault::{SyntaxError, SyntaxFault};
