//! The rows and keys that refreshes bring as texts: written as the lines of files, and read back
//! from them.
#![tactic(auto)]

mod laws;
mod reading;
mod text;
mod values;

pub use laws::texts_are_read_back;
pub use reading::{keys_of, rows_of};
pub use text::{push_keys, push_rows};
