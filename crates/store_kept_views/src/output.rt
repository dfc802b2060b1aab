//! The rows of groups.
ghost use Rattle.store_groups.specs.Pages.{entries_of};
ghost use Rattle.base_value.specs.declared.value.Value.TheVariants.{Null};
ghost use Rattle.base_row_laws.specs.Bags.{SameBag};
ghost use Rattle.base_value.specs.declared.value.Value.{Value as Datum};
ghost use Rattle.plan_algebra.specs.KeptPlans.{query_rows};
ghost use Rattle.store_kept_views.specs.Standing.{StandsFor};
ghost use Rattle.std.specs.Prelude.{◌≡◌, ◌∷◌, ◌<◌, [], IfOk, List, OnOk, length, map};
ghost use Rattle.std.specs.Prelude.{MatchOption, slice_index_or};
ghost use Rattle.base_value.specs.Truth.{standing_rank};
ghost use Rattle.expr_aggregates.specs.Values.{number_or_fault};
ghost use Rattle.store_groups.specs.Groups.{no_rows};
ghost use Rattle.store_kept_views.specs.RowGroups.{all_shown, row_of, shown, unless_rank};
ghost use Rattle.store_groups.specs.Stored.{cell_in};
ghost use Rattle.store_kept_views.specs.Output.{output_row, output_rows};

use crate::bag::{bag_of, builder_like};
use crate::columns::page_batch;
use base_columns::Bag;
use base_decimal::{NumberFault, Scale};
use base_value::{Fault, Standing, Value};
use plan_algebra::{KeptAggregate, KeptPlan};
use std::alloc::{AllocError, Global};
use store_groups::{Cell, Group, GroupRef, Groups, Page};

// The value, or the fault where a fault is the least standing.
fn unless_fault(least: Standing, value: Value) -> Value
    ensures { result ≡ unless_rank (standing_rank least) value }
{
    match least {
        Standing::AtFault(fault) => Value::Fault(fault),
        Standing::AtTrue => value,
    }
}

// A coefficient of a scale, or its fault, as a value.
fn number_or_fault(scale: Scale, coefficient: Result<i128, NumberFault>) -> Value
    ensures { result ≡ number_or_fault scale coefficient }
{
    match coefficient {
        Ok(coefficient) => Value::Number(scale, coefficient),
        Err(NumberFault::NumberRange) => Value::Fault(Fault::NumberRange),
        Err(NumberFault::DivideByZero) => Value::Fault(Fault::DivideByZero),
    }
}

// The value of an aggregate.
fn shown(aggregate: &KeptAggregate, rows: u64, cell: &Cell) -> Value
    ensures { result ≡ shown aggregate.now rows (cell_in cell.now) }
{
    match aggregate {
        KeptAggregate::CountRows => Value::Number(Scale::WHOLE, i128::from(rows)),
        KeptAggregate::Count(_) => {
            let count = Value::Number(Scale::WHOLE, i128::from(cell.tally().terms()));
            unless_fault(cell.standing(), count)
        }
        KeptAggregate::Sum(scale, _) => {
            if cell.tally().terms() == 0 {
                return unless_fault(cell.standing(), Value::Null);
            }
            unless_fault(
                cell.standing(),
                number_or_fault(*scale, cell.tally().total()),
            )
        }
    }
}

/// The value of an aggregate of a group, null where it is not there.
pub(crate) fn shown_at(aggregates: &[KeptAggregate], group: &GroupRef<'_>, place: usize) -> Value
    ensures { result
        ≡ slice_index_or (all_shown aggregates.now group.now.rows group.now.cells) place Null }
{
    if place >= aggregates.len() {
        return Value::Null;
    }
    if place >= group.width() {
        return Value::Null;
    }
    shown(&aggregates[place], group.len(), &group.cell(place))
}

/// A value of a group's row, of its key or of an aggregate, null where it is not there.
pub(crate) fn value_at(
    aggregates: &[KeptAggregate],
    key: &[Value],
    group: &GroupRef<'_>,
    place: usize,
) -> Result<Value, AllocError>
    ensures { IfOk result (λ v. v
        ≡ slice_index_or (row_of aggregates.now key.now group.now).values place Null) }
{
    if place < key.len() {
        return key[place].clone();
    }
    let value = shown_at(aggregates, group, place - key.len());
    Ok(value)
}

// Puts a group's row in the place of other values: those of its key's values and its aggregates
// that the plan shows.
fn put_values(
    plan: &KeptPlan,
    key: &[Value],
    group: &GroupRef<'_>,
    values: &mut Vec<Value>,
) -> Result<(), AllocError>
    ensures row { OnOk result (values.new.items ≡ (output_row plan.now key.now group.now).values) }
    ensures long { OnOk result (length values.new.items ≡ length plan.now.list) }
{
    let aggregates = plan.aggregates.as_slice();
    let places = plan.list.as_slice();
    values.clear();
    for place in places {
        values.push(value_at(aggregates, key, group, *place as usize)?)?;
    }
    Ok(())
}

// The first page that has an entry, if there is one.
fn first_page(pages: &[Page]) -> Option<&Page>
    ensures { MatchOption result (entries_of pages.now ≡ [])
        (λ p. (0 < length p.now) × (0 < length (entries_of pages.now))) }
{
    for page in pages {
        if page.len() > 0 {
            return Some(page);
        }
    }
    None
}

// The rows of the entries of pages. Their columns are those of the first entry of a page.
fn page_rows(
    alloc: Global,
    plan: &KeptPlan,
    first: &Page,
    pages: &[Page],
) -> Result<Bag, AllocError>
    requires { 0 < length first.now }
    ensures rows { IfOk result (λ bag. bag.rows
        ≡ map (λ e. output_row plan.now e.0 e.1) (entries_of pages.now)) }
    ensures width { IfOk result (λ bag. bag.width ≡ length plan.now.list) }
{
    let batch = page_batch(alloc, plan, first, pages)?;
    let mut bag = Bag::new(alloc, plan.list.len());
    bag.push(batch)?;
    Ok(bag)
}

// The row of the one group of no rows.
fn empty_row(alloc: Global, plan: &KeptPlan) -> Result<Bag, AllocError>
    ensures rows { IfOk result (λ bag. bag.rows
        ≡ output_row plan.now [] (no_rows (length plan.now.aggregates)) ∷ []) }
    ensures width { IfOk result (λ bag. bag.width ≡ length plan.now.list) }
{
    let group = Group::none(alloc, plan.aggregates.len())?;
    let mut values = Vec::with_capacity(alloc, plan.list.len())?;
    let none = group.seen();
    put_values(plan, &[], &none, &mut values)?;
    let mut builder = builder_like(alloc, values.as_slice())?;
    builder.push_row(alloc, values.as_slice(), none.standing())?;
    let bag = bag_of(alloc, &builder)?;
    Ok(bag)
}

// The rows of groups. Without GROUP BY the one group is there also where it has no row.
fn output_rows(alloc: Global, plan: &KeptPlan, groups: &Groups) -> Result<Bag, AllocError>
    ensures rows { IfOk result (λ bag. bag.rows ≡ output_rows plan.now groups.now) }
    ensures width { IfOk result (λ bag. bag.width ≡ length plan.now.list) }
{
    let pages = groups.pages();
    if let Some(first) = first_page(pages) {
        let bag = page_rows(alloc, plan, first, pages)?;
        return Ok(bag);
    }
    if plan.by.is_empty() {
        let bag = empty_row(alloc, plan)?;
        return Ok(bag);
    }
    Ok(Bag::new(alloc, plan.list.len()))
}

/// The rows of groups: as a bag, those of the query over the table's rows that the groups stand
/// for.
pub(crate) fn shown_rows(alloc: Global, plan: &KeptPlan, groups: &Groups) -> Result<Bag, AllocError>
    ensures width { IfOk result (λ bag. bag.width ≡ length plan.now.list) }
    ensures rows { IfOk result (λ bag. (table : List (List Datum))
        → StandsFor plan.now groups.now table → SameBag bag.rows (query_rows plan.now table)) }
{
    // The pages' contract says that no two keys are the same.
    let _pages = groups.pages();
    let bag = output_rows(alloc, plan, groups)?;
    Ok(bag)
}
