//! Work that is split among threads: how many parts it has, and calls at each of them.
#![tactic(auto)]

mod by_parts;
mod counts;
mod made;

pub use by_parts::map_parts;
pub use counts::{part_count, part_len, thread_share};
pub use made::all_made;
