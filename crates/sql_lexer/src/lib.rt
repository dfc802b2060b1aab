//! The tokens of a script.
#![tactic(auto)]

mod content;
mod cutting;
mod fault;
mod front;
mod kind;
mod name;
mod token;

pub use cutting::{lex, one_answer};
pub use fault::{LexFault, LexRefusal};
pub use front::Form;
pub use kind::Kind;
pub use name::name_of;
pub use token::{Content, Token};
