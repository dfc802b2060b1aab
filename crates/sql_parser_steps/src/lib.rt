//! The steps of parsing: the tokens that are still to be read, the rules that hold no expression, a
//! query in parentheses, and what the parts of a line make together.
#![tactic(auto)]

pub mod clauses;
mod filters;
mod parser;
pub mod parts;
mod set_words;
pub mod statements;
mod subqueries;
mod test;
mod words;

pub use filters::Filters;
pub use parser::{MAX_DEPTH, MAX_MORE, Parser};
pub use subqueries::Subqueries;
pub use test::{Compared, Test};
