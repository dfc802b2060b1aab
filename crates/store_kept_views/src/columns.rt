//! The rows of the groups of pages, column by column.
ghost use Rattle.std.specs.Prelude.{◌≡◌, ◌++◌, ◌<◌, IfOk, IfSome, IsTrue, OnOk, length, map};
ghost use Rattle.std.specs.Prelude.{slice_index_or};
ghost use Rattle.base_value.specs.Truth.{standing_rank};
ghost use Rattle.base_value.specs.declared.value.Value.TheVariants.{Null, Number};
ghost use Rattle.store_groups.specs.Pages.{entries_of};
ghost use Rattle.store_kept_views.specs.RowGroups.{row_of};
ghost use Rattle.store_kept_views.specs.Output.{output_row, shown_columns, value_in};

use crate::bag::form_of;
use crate::output::{shown_at, value_at};
use base_columns::{Batch, Column, ColumnBuilder};
use base_decimal::Scale;
use base_value::{Standing, Value};
use plan_algebra::{KeptAggregate, KeptPlan};
use std::alloc::{AllocError, Global};
use store_groups::{GroupRef, Page};

// The number that a value is, if it is one of this scale and of 64 bits.
fn small_number(value: &Value, scale: Scale) -> Option<i64>
    ensures { IfSome result (λ n. Number scale n ≡ value.now) }
{
    match value {
        Value::Number(own, coefficient) => {
            if *own != scale {
                return None;
            }
            i64::try_from(*coefficient).ok()
        }
        _ => None,
    }
}

// The number at a place of a group's row, if there is one of this scale and of 64 bits.
fn number_at(
    aggregates: &[KeptAggregate],
    key: &[Value],
    group: &GroupRef<'_>,
    place: usize,
    scale: Scale,
) -> Option<i64>
    ensures { IfSome result (λ n. Number scale n
        ≡ slice_index_or (row_of aggregates.now key.now group.now).values place Null) }
{
    if place < key.len() {
        return small_number(&key[place], scale);
    }
    let value = shown_at(aggregates, group, place - key.len());
    small_number(&value, scale)
}

// Puts the numbers of a page after others. Whether all are of this scale and of 64 bits.
fn put_numbers(
    plan: &KeptPlan,
    page: &Page,
    place: usize,
    scale: Scale,
    numbers: &mut Vec<i64>,
) -> Result<bool, AllocError>
    ensures { IfOk result (λ all. IsTrue all → map (Number scale) numbers.new.items
        ≡ map (Number scale) numbers.old.items ++ map (value_in plan.now place) page.now) }
{
    let aggregates = plan.aggregates.as_slice();
    for i in 0..page.len() {
        let group = page.group(i);
        let Some(number) = number_at(aggregates, page.key(i), &group, place, scale) else {
            return Ok(false);
        };
        numbers.push(number)?;
    }
    Ok(true)
}

// The numbers of pages, if all are of this scale and of 64 bits.
fn numbers_of(
    alloc: Global,
    plan: &KeptPlan,
    pages: &[Page],
    place: usize,
    scale: Scale,
) -> Result<Option<Vec<i64>>, AllocError>
    ensures { IfOk result (λ found. IfSome found (λ numbers. map (Number scale) numbers.items
        ≡ map (value_in plan.now place) (entries_of pages.now))) }
{
    let mut numbers = Vec::new(alloc);
    for page in pages {
        if !put_numbers(plan, page, place, scale, &mut numbers)? {
            return Ok(None);
        }
    }
    Ok(Some(numbers))
}

// Puts the values of a page after others.
fn put_page_values(
    alloc: Global,
    plan: &KeptPlan,
    page: &Page,
    place: usize,
    builder: &mut ColumnBuilder,
) -> Result<(), AllocError>
    ensures { OnOk result (builder.new ≡ builder.old ++ map (value_in plan.now place) page.now) }
{
    let aggregates = plan.aggregates.as_slice();
    for i in 0..page.len() {
        let value = value_at(aggregates, page.key(i), &page.group(i), place)?;
        builder.push(alloc, &value)?;
    }
    Ok(())
}

// The values of pages, expected to be kept as this one.
fn values_of(
    alloc: Global,
    plan: &KeptPlan,
    pages: &[Page],
    place: usize,
    first: &Value,
) -> Result<Column, AllocError>
    ensures { IfOk result (λ c. c ≡ map (value_in plan.now place) (entries_of pages.now)) }
{
    let mut builder = ColumnBuilder::new(alloc, form_of(first))?;
    for page in pages {
        put_page_values(alloc, plan, page, place, &mut builder)?;
    }
    Ok(builder.finish())
}

// A column of pages, as numbers where all of them are of the first one's scale and of 64 bits.
fn column_of(
    alloc: Global,
    plan: &KeptPlan,
    pages: &[Page],
    place: usize,
    first: &Value,
) -> Result<Column, AllocError>
    ensures { IfOk result (λ c. c ≡ map (value_in plan.now place) (entries_of pages.now)) }
{
    if let Value::Number(scale, _) = first {
        if let Some(numbers) = numbers_of(alloc, plan, pages, place, *scale)? {
            return Ok(Column::from_numbers(*scale, numbers));
        }
    }
    let column = values_of(alloc, plan, pages, place, first)?;
    Ok(column)
}

// The columns of pages, the first of which has an entry.
fn columns_of(
    alloc: Global,
    plan: &KeptPlan,
    first: &Page,
    pages: &[Page],
) -> Result<Vec<Column>, AllocError>
    requires { 0 < length first.now }
    ensures { IfOk result (λ cs. cs.items
        ≡ shown_columns plan.now plan.now.list (entries_of pages.now)) }
{
    let aggregates = plan.aggregates.as_slice();
    let places = plan.list.as_slice();
    let mut columns = Vec::with_capacity(alloc, places.len())?;
    for place in places {
        let value = value_at(aggregates, first.key(0), &first.group(0), *place as usize)?;
        let column = column_of(alloc, plan, pages, *place as usize, &value)?;
        columns.push(column)?;
    }
    Ok(columns)
}

// Puts the standings of a page's groups after others.
fn put_standings(page: &Page, standings: &mut Vec<Standing>) -> Result<(), AllocError>
    ensures { OnOk result (map standing_rank standings.new.items
        ≡ map standing_rank standings.old.items ++ map (λ e. e.1.least) page.now) }
{
    for i in 0..page.len() {
        let group = page.group(i);
        standings.push(group.standing())?;
    }
    Ok(())
}

// The standings of the groups of pages.
fn standings_of(alloc: Global, pages: &[Page]) -> Result<Vec<Standing>, AllocError>
    ensures { IfOk result (λ ss. map standing_rank ss.items
        ≡ map (λ e. e.1.least) (entries_of pages.now)) }
{
    let mut standings = Vec::new(alloc);
    for page in pages {
        put_standings(page, &mut standings)?;
    }
    Ok(standings)
}

/// The rows of the entries of pages. What the columns are expected to hold is what they do in the
/// first entry of a page.
pub(crate) fn page_batch(
    alloc: Global,
    plan: &KeptPlan,
    first: &Page,
    pages: &[Page],
) -> Result<Batch, AllocError>
    requires { 0 < length first.now }
    ensures rows { IfOk result (λ b. b.rows
        ≡ map (λ e. output_row plan.now e.0 e.1) (entries_of pages.now)) }
    ensures width { IfOk result (λ b. b.width ≡ length plan.now.list) }
{
    let columns = columns_of(alloc, plan, first, pages)?;
    let standings = standings_of(alloc, pages)?;
    Ok(Batch::of(columns, standings))
}
