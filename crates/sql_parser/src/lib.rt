//! The statements of a script, read by descent.
#![tactic(auto)]

mod blocks;
mod calls;
mod chains;
mod fault;
mod insides;
mod knot;
mod level;
mod nested;
mod predicates;
mod queries;
mod scripts;
mod statements;
mod sums;
mod with;

pub use fault::{ParseFault, ScriptFault, ScriptRefusal};
pub use scripts::{MAX_SCRIPT, one_meaning, parse_script, read_script};
