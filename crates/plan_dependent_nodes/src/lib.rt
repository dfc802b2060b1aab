//! Nodes of dependent trees over what a query's parts became, and where expressions find their
//! columns in flat rows.
#![tactic(auto)]

mod parts;
mod sight;
mod source_sight;
mod sources;

pub use parts::{
    Attached, Counted, Grown, Listed, Placed, Read, Right, Rows, Summed, always, applied,
    contained, distinct, existing, grouped, grown_from, key_places, outer_places, over_places,
    projected, selected, trimmed, valued,
};
pub use sight::{OuterColumn, Sight, place_of};
pub use source_sight::{SourceSight, lateral_columns, right_places, with_left_row};
pub use sources::{
    RightRows, crossed, depending, kept_rows, outer_condition, outer_joined, table_rows,
};
