//! Identical rows once: DISTINCT, and the domain of a dependent right side.
ghost use Rattle.std.specs.Prelude.{◌≡◌, length, IfOk};
ghost use Rattle.base_row_laws.specs.Rows.{columns};
ghost use Rattle.base_row_laws.specs.Operators.{distinct, domain_node};
ghost use Rattle.base_value.specs.declared.value.Value.TheVariants.{Null};
ghost use Rattle.base_value.specs.Value.{same_value};

use crate::grouping::{all_places, at_places, group_numbers, key_columns, one_batch};
use crate::standings::{greatest_standings, row_standings};
use crate::workers::OneThread;
use base_columns::{Bag, Batch};
use std::alloc::{AllocError, Global};

/// The values of a bag's rows in these columns, identical ones once, in the order in which they
/// first come, each at True. A column that isn't there is null.
pub fn domain(alloc: Global, rows: &Bag, by: &[u32]) -> Result<Bag, AllocError>
    ensures width { IfOk result (λ b. b.width ≡ length by.now) }
    ensures rows { IfOk result
        (λ b. b.rows ≡ domain_node same_value (columns Null by.now) rows.now.rows) }
{
    let keys = key_columns(alloc, rows, by)?;
    let numbered = group_numbers(&OneThread, alloc, rows, by, keys.as_slice())?;
    let firsts = at_places(alloc, keys.as_slice(), numbered.firsts.as_slice())?;
    let bag = one_batch(alloc, Batch::of_true(firsts, numbered.firsts.len()))?;
    Ok(bag)
}

/// DISTINCT: identical rows once, in the order in which they first come, at the greatest of their
/// standings.
pub fn distinct(alloc: Global, rows: &Bag) -> Result<Bag, AllocError>
    ensures width { IfOk result (λ b. b.width ≡ rows.now.width) }
    ensures rows { IfOk result (λ b. b.rows ≡ distinct same_value rows.now.rows) }
{
    let all = all_places(alloc, rows)?;
    let keys = key_columns(alloc, rows, all.as_slice())?;
    let numbered = group_numbers(&OneThread, alloc, rows, all.as_slice(), keys.as_slice())?;
    let firsts = at_places(alloc, keys.as_slice(), numbered.firsts.as_slice())?;
    let standings = row_standings(alloc, rows)?;
    let greatest = greatest_standings(
        alloc,
        standings.as_slice(),
        numbered.numbers.as_slice(),
        numbered.firsts.as_slice(),
    )?;
    let bag = one_batch(alloc, Batch::of(firsts, greatest))?;
    Ok(bag)
}
