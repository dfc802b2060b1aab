//! The texts that the program prints: the lines of statements, and an answer's rows.
#![tactic(auto)]

mod cells;
mod decimal;
mod escaped;
mod head;
pub mod laws;
mod refusal;
mod rows;
mod version;

pub use head::{accepted_text, done_text, header, refusal_text, version_refusal_text};
pub use refusal::{push_refusal, put_reason};
pub use rows::push_row;
pub use version::VersionRefusal;
