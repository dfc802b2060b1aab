//! UNION, INTERSECT and EXCEPT on rows with standings: what they mean, their laws, and which rows
//! they take by the numbers of identical ones.
#![tactic(auto)]

mod kind;
pub mod laws;
mod taking;

pub use kind::{ClassKind, SetOperation, copies};
pub use taking::numbers_taken;
