//! Estimates: about how many rows trees have, and whether a domain has few of a column's values.
#![tactic(auto)]

mod estimate;

pub use estimate::{
    Sight, are_keys, divided, equated, have_few, is_key_at, kept_of, rows_for_one, rows_of,
    weight_of,
};
