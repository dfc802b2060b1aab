//! Conditions of a dependent tree moved down to where their columns are first at hand.
#![tactic(auto)]

mod below;
mod copy;
mod domain;
mod joined;
mod nodes;
mod sink;

pub use copy::copy_tree;
pub use domain::{put_at, side_columns};
pub use joined::{join_first, reads_own, selected};
pub use nodes::{
    copied_side, group_of, join_of, kept_of, mark_of, outer_of, project_of, select_of, single_of,
};
pub use sink::sunk;
