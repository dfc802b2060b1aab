//! The groups of a bag's rows by columns.
ghost use Rattle.std.specs.Prelude.{◌≡◌, ◌<◌, [], map, length, IfOk};
ghost use Rattle.std.specs.List.{All, range_with_len};
ghost use Rattle.base_row_laws.specs.Rows.{same_row};
ghost use Rattle.base_row_laws.specs.Numbers.{numbers_of};
ghost use Rattle.base_value.specs.declared.value.Value.TheVariants.{Null};
ghost use Rattle.base_value.specs.Value.{same_value};
ghost use Rattle.base_key_tables.specs.Distinct.{first_places};
ghost use Rattle.base_columns.specs.Lists.{gathered, AreBelow};
ghost use Rattle.base_columns.specs.Batches.{column_at};
ghost use Rattle.exec_hash_group.specs.Keys.{key_rows, key_columns};

use crate::key_runs::key_numbers;
use crate::workers::Workers;
use base_columns::{Bag, Batch, Column};
use base_key_tables::Numbered;
use base_value::Value;
use exec_row_keys::{codes, keys_of_columns};
use smallvec::SmallVec;
use std::alloc::{AllocError, Global};

// All values of a column of a bag's rows: nulls where it has no such column.
fn key_column(alloc: Global, bag: &Bag, j: u32) -> Result<Column, AllocError>
    ensures { IfOk result (λ c. c ≡ column_at bag.now.rows j) }
{
    let place = j as usize;
    if place < bag.width() {
        return bag.column(alloc, place);
    }
    let column = Column::repeated(alloc, &Value::Null, bag.len())?;
    Ok(column)
}

/// The columns of a bag's rows at these places.
pub(crate) fn key_columns(alloc: Global, bag: &Bag, by: &[u32]) -> Result<Vec<Column>, AllocError>
    ensures { IfOk result (λ v. v.items ≡ key_columns bag.now.rows by.now) }
{
    let mut columns = Vec::with_capacity(alloc, by.len())?;
    for j in by {
        let column = key_column(alloc, bag, *j)?;
        columns.push(column)?;
    }
    Ok(columns)
}

/// Places of columns: few, as a rule.
pub type Places = SmallVec<u32, 8>;

/// The n places from 0 on.
pub fn places_below(alloc: Global, n: u32) -> Result<Places, AllocError>
    ensures { IfOk result (λ v. v.items ≡ range_with_len 0 n) }
{
    let mut places = SmallVec::with_capacity(alloc, n as usize)?;
    for i in 0..n {
        places.push(i)?;
    }
    Ok(places)
}

/// The places of all columns of a bag.
pub fn all_places(alloc: Global, bag: &Bag) -> Result<Places, AllocError>
    ensures places { IfOk result (λ v. v.items ≡ range_with_len 0 bag.now.width) }
    ensures wide { All (λ r. length r.values ≡ bag.now.width) bag.now.rows }
{
    match u32::try_from(bag.width()) {
        Ok(width) => places_below(alloc, width),
        Err(_) => Err(AllocError),
    }
}

// The number of each value of a column, and where each number first stands.
fn column_numbers<W: Workers>(
    workers: &W,
    alloc: Global,
    column: &Column,
) -> Result<Numbered, AllocError>
    requires { W.ready workers.now }
    ensures numbers { IfOk result (λ n. n.numbers.items ≡ numbers_of same_value column.now) }
    ensures firsts { IfOk result (λ n. n.firsts.items ≡ first_places same_value column.now) }
{
    if let Some((_, coefficients)) = column.as_numbers() {
        let numbered = key_numbers(workers, alloc, coefficients)?;
        return Ok(numbered);
    }
    let codes = codes(alloc, column)?;
    let coded = key_numbers(workers, alloc, codes.as_slice())?;
    Ok(coded)
}

/// The number of each row's group, by these columns of theirs, and where each group first comes.
pub(crate) fn group_numbers<W: Workers>(
    workers: &W,
    alloc: Global,
    bag: &Bag,
    by: &[u32],
    columns: &[Column],
) -> Result<Numbered, AllocError>
    requires ready { W.ready workers.now }
    requires columns { columns.now ≡ key_columns bag.now.rows by.now }
    ensures numbers { IfOk result
        (λ n. n.numbers.items ≡ numbers_of (same_row same_value) (key_rows by.now bag.now.rows)) }
    ensures firsts { IfOk result
        (λ n. n.firsts.items ≡ first_places (same_row same_value) (key_rows by.now bag.now.rows)) }
{
    if columns.len() == 1 {
        let alone = column_numbers(workers, alloc, &columns[0])?;
        return Ok(alone);
    }
    let keys = keys_of_columns(alloc, columns, bag.len())?;
    if keys.len() > u32::MAX as usize {
        return Err(AllocError);
    }
    let numbered = workers.pair_numbers(alloc, keys.as_slice())?;
    Ok(numbered)
}

/// Each column at these places.
pub(crate) fn at_places(
    alloc: Global,
    columns: &[Column],
    places: &[u32],
) -> Result<Vec<Column>, AllocError>
    requires { All (λ c. AreBelow (length c) places.now) columns.now }
    ensures { IfOk result (λ v. v.items ≡ map (λ c. gathered Null c places.now) columns.now) }
{
    let mut picked = Vec::with_capacity(alloc, columns.len())?;
    for column in columns {
        let column = column.gather(alloc, places)?;
        picked.push(column)?;
    }
    Ok(picked)
}

/// A bag of one batch.
pub fn one_batch(alloc: Global, batch: Batch) -> Result<Bag, AllocError>
    ensures width { IfOk result (λ b. b.width ≡ batch.width) }
    ensures rows { IfOk result (λ b. b.rows ≡ batch.rows) }
{
    let mut bag = Bag::new(alloc, batch.width());
    bag.push(batch)?;
    Ok(bag)
}
