//! Calls of crates whose proofs are long, each with the clauses of its contract. That the call itself
//! is the body says that its clauses give these; the edits beside it try other bodies, in seconds.
#![tactic(auto)]

mod plans;
mod readers;

pub use plans::{put_mark, put_total, run, settled};
pub use readers::{begin, seat};
