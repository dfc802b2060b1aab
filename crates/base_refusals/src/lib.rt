//! The refusals of the program as plain data: their numbers, names and arguments, as they are
//! printed.
//!
//! This crate stands at the bottom, so that the crate that prints refusals knows those of the
//! crates above it. Each kind of refusal has a file of its own.
#![tactic(auto)]

mod bind;
mod line;
mod refresh;
mod statement;

pub use bind::BindRefusal;
pub use line::{LineFault, LineRefusal};
pub use refresh::{Cause, RefreshFile};
pub use statement::{FaultKind, Refusal, TemplateRefusal};
