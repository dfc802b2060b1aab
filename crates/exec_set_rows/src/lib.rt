//! Set operations on bags: UNION ALL, and INTERSECT and EXCEPT by numbers of identical rows.
#![tactic(auto)]

mod bags;
mod classes;
mod operation;

pub use operation::set_rows;
