//! GROUP BY with its aggregates, DISTINCT, domains and their fill, by numbers of keys.
#![tactic(auto)]

mod aggregate;
mod by_threads;
mod filling;
mod group_by;
mod grouping;
mod groups;
mod identical;
mod key_runs;
pub mod laws;
mod number_sums;
mod part;
mod parts;
mod standings;
mod states;
mod unmarked;
mod values;
mod workers;

pub use aggregate::{accumulated_by_number, aggregated_by_number, column_of};
pub use by_threads::group_by_threads;
pub use filling::fill;
pub use group_by::group;
pub use grouping::{Places, all_places, one_batch, places_below};
pub use groups::merged_by_number;
pub use identical::{distinct, domain};
pub use part::GroupedPart;
pub use parts::{MergedGroups, grouped_part, merged_groups, part_by_threads};
pub use states::{part_states, scale_of};
pub use values::{ColumnValues, Nulls, SliceValues, ValueList};
