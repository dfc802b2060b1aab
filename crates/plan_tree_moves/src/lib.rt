//! Steps from a dependent tree to another one of the same rows: columns dropped that nobody reads,
//! and the moves of conditions of `plan_predicate_sinking`.
#![tactic(auto)]

mod columns;
mod narrow;
mod prune;
mod regroup;
mod right_columns;
mod slim_joins;

pub use narrow::{
    after_domain, are_found, narrowed_input, own_columns, places_in, put_after, put_read,
    select_list,
};
pub use plan_predicate_sinking::{
    group_of, join_first, join_of, kept_of, mark_of, outer_of, project_of, put_at, reads_own,
    select_of, selected, side_columns, single_of, sunk,
};
pub use prune::pruned;
pub use regroup::{moved_aggregates, moved_keys, put_aggregated};
