//! Keys of rows for joins and groups: numbers that are the same exactly where the rows' values are
//! identical.
#![tactic(auto)]

mod column_codes;
mod ends;
mod key;
mod keys;
mod numbers;

pub use column_codes::codes;
pub use ends::end_to_end;
pub use keys::{both_sides, keys_of_columns, keys_of_two};
