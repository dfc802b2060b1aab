//! Nodes of flat plans over domains: what each node of a dependent tree becomes, once its inputs are
//! nodes.
#![tactic(auto)]

mod carried;
mod domain;
mod footing;
mod from_rows;
mod grouped;
mod kept_domain;
mod lists;
mod origins;
mod own_columns;
mod own_rows;
mod put;

pub use carried::is_carried;
pub use domain::{Domain, DomainRows, Origin};
pub use footing::{Footing, FootingRows};
pub use from_rows::{
    Apart, Part, own_list, own_on, put_apart_join, put_apart_kept, put_apart_list, put_apart_outer,
    put_apart_select, put_apart_table, put_whole,
};
pub use grouped::put_groups;
pub use kept_domain::keeps_domain;
pub use put::{
    own_footing, put_distinct, put_join, put_kept, put_mark, put_outer, put_project, put_scan,
    put_select, put_selection, put_set, put_single, put_total,
};
