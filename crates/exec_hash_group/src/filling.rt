//! The rows of a domain with their groups, or with the aggregates of no rows.
ghost use Rattle.std.specs.Prelude.{◌≡◌, ◌+◌, ◌<◌, ◌≤◌, ◌^◌, ◌++◌, List, [], map, replicate};
ghost use Rattle.std.specs.Prelude.{length, IfOk, OnOk};
ghost use Rattle.base_row_laws.specs.Ranked.{ranked, true_rank};
ghost use Rattle.base_row_laws.specs.Operators.{fill};
ghost use Rattle.base_row_laws.specs.Places.{places_where};
ghost use Rattle.base_value.specs.declared.value.Value.{Value as Datum};
ghost use Rattle.base_value.specs.Value.{same_value};
ghost use Rattle.base_key_tables.specs.Keys.{same_two};
ghost use Rattle.base_columns.specs.Lists.{gathered, AreBelow};
ghost use Rattle.base_columns.specs.Batches.{AreLong};
ghost use Rattle.exec_hash_group.specs.Filled.{or_place, places_from, filled_row, AreFilled};
ghost use Rattle.exec_hash_group.specs.Filled.{AreColumns};
ghost use Rattle.exec_hash_group.specs.Standings.{ranks, row_ranks};

use crate::grouping::{all_places, key_columns, one_batch};
use crate::standings::row_standings;
use base_columns::{Bag, Batch, Column};
use base_key_tables::{Chains, put_partners};
use base_value::{Standing, Value};
use exec_row_keys::{both_sides, keys_of_two};
use std::alloc::{AllocError, Global};

// Puts the places of one key after others, or where it has none its own.
fn put_places(
    key: &(i64, i64),
    right: &Chains<'_>,
    own: u32,
    places: &mut Vec<u32>,
) -> Result<(), AllocError>
    ensures { OnOk result (places.new.items
        ≡ places.old.items ++ or_place (places_where (same_two key.now) right.now) own) }
{
    let before = places.len();
    put_partners(key, right, places)?;
    if places.len() == before {
        places.push(own)?;
    }
    Ok(())
}

// For each left key the places of the right ones that are the same, or where there are none its own
// after all of them.
fn filled_places(
    alloc: Global,
    left: &[(i64, i64)],
    right: &[(i64, i64)],
) -> Result<Vec<u32>, AllocError>
    requires { length right.now + length left.now < 2 ^ 32 }
    ensures { IfOk result (λ v. v.items ≡ places_from (length right.now) left.now right.now) }
{
    let chains = Chains::for_probes(alloc, right, left.len())?;
    let mut places = Vec::with_capacity(alloc, left.len())?;
    for i in 0..left.len() {
        put_places(&left[i], &chains, (right.len() + i) as u32, &mut places)?;
    }
    Ok(places)
}

// Columns of n rows that are all these values.
fn put_repeated(
    alloc: Global,
    columns: &mut Vec<Column>,
    values: &[Value],
    n: usize,
) -> Result<(), AllocError>
    ensures { OnOk result (columns.new.items ≡ columns.old.items ++ map (replicate n) values.now) }
{
    for value in values {
        let column = Column::repeated(alloc, value, n)?;
        columns.push(column)?;
    }
    Ok(())
}

// How the groups stand, and n rows at True after them.
fn all_standings(alloc: Global, groups: &Bag, n: usize) -> Result<Vec<Standing>, AllocError>
    ensures { IfOk result (λ v. ranks v.items
        ≡ row_ranks groups.now.rows ++ replicate n true_rank) }
{
    let mut standings = row_standings(alloc, groups)?;
    let mut more = vec![in alloc; Standing::AtTrue; n]?;
    standings.append(&mut more)?;
    Ok(standings)
}

// The places of the domain's groups, and of its rows without one.
fn places_of(
    alloc: Global,
    domain: &[Column],
    n: usize,
    groups: &[Column],
    m: usize,
) -> Result<Vec<u32>, AllocError>
    requires beside { length domain.now ≡ length groups.now }
    requires domain { AreLong n domain.now }
    requires groups { AreLong m groups.now }
    ensures { IfOk result (λ v. AreFilled domain.now n groups.now m v.items) }
{
    let (left, right) = keys_of_two(alloc, domain, n, groups, m)?;
    if left.len() + right.len() > u32::MAX as usize {
        return Err(AllocError);
    }
    let places = filled_places(alloc, left.as_slice(), right.as_slice())?;
    Ok(places)
}

// The columns of all rows of a bag.
fn all_columns(alloc: Global, bag: &Bag) -> Result<Vec<Column>, AllocError>
    ensures { IfOk result (λ v. AreColumns bag.now v.items) }
{
    let places = all_places(alloc, bag)?;
    let columns = key_columns(alloc, bag, places.as_slice())?;
    Ok(columns)
}

// The groups, and after them the domain's rows with the empty group's aggregates.
fn all_rows(
    alloc: Global,
    groups: &Bag,
    group_columns: &[Column],
    domain: &Bag,
    domain_columns: Vec<Column>,
    empty: &[Value],
) -> Result<Batch, AllocError>
    requires groups { AreColumns groups.now group_columns.now }
    requires domain { AreColumns domain.now domain_columns.items }
    requires widths { groups.now.width ≡ domain.now.width + length empty.now }
    ensures width { IfOk result (λ b. b.width ≡ groups.now.width) }
    ensures rows { IfOk result
        (λ b. b.rows ≡ groups.now.rows ++ map (filled_row empty.now) domain.now.rows) }
{
    let mut beside = domain_columns;
    put_repeated(alloc, &mut beside, empty, domain.len())?;
    let columns = both_sides(alloc, group_columns, beside.as_slice())?;
    let standings = all_standings(alloc, groups, domain.len())?;
    Ok(Batch::of(columns, standings))
}

// The places of each domain row's groups, or of itself, among all rows.
fn places_by_columns(
    alloc: Global,
    groups: &Bag,
    group_columns: &[Column],
    domain: &Bag,
    domain_columns: &[Column],
) -> Result<Vec<u32>, AllocError>
    requires groups { AreColumns groups.now group_columns.now }
    requires domain { AreColumns domain.now domain_columns.now }
    requires widths { domain.now.width ≤ groups.now.width }
    ensures below { IfOk result
        (λ v. AreBelow (length groups.now.rows + length domain.now.rows) v.items) }
    ensures rows { IfOk result
        (λ v. (empty : List Datum) → groups.now.width ≡ domain.now.width + length empty
        → gathered (ranked [] true_rank) (groups.now.rows ++ map (filled_row empty) domain.now.rows)
        v.items ≡ fill same_value empty domain.now.rows groups.now.rows) }
{
    let width = domain_columns.len();
    let keys = &group_columns[..width];
    let places = places_of(alloc, domain_columns, domain.len(), keys, groups.len())?;
    Ok(places)
}

/// Over groups by the columns of a domain: each of the domain's rows once, with its groups, or
/// where it has none with these aggregates of no rows at True.
pub fn fill(alloc: Global, groups: &Bag, domain: &Bag, empty: &[Value]) -> Result<Bag, AllocError>
    requires { groups.now.width ≡ domain.now.width + length empty.now }
    ensures width { IfOk result (λ b. b.width ≡ groups.now.width) }
    ensures rows { IfOk result
        (λ b. b.rows ≡ fill same_value empty.now domain.now.rows groups.now.rows) }
{
    let group_columns = all_columns(alloc, groups)?;
    let domain_columns = all_columns(alloc, domain)?;
    let places = places_by_columns(
        alloc,
        groups,
        group_columns.as_slice(),
        domain,
        domain_columns.as_slice(),
    )?;
    let all = all_rows(
        alloc,
        groups,
        group_columns.as_slice(),
        domain,
        domain_columns,
        empty,
    )?;
    let filled = all.gather(alloc, places.as_slice())?;
    let bag = one_batch(alloc, filled)?;
    Ok(bag)
}
