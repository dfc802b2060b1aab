//! The accumulators of groups.
ghost use Rattle.std.specs.Prelude.{◌≡◌, ℕ, ◌+◌, ◌<◌, ◌^◌, List, [], map, length, IfOk, OnOk};
ghost use Rattle.base_value.specs.declared.value.Value.{Value as Datum};
ghost use Rattle.base_value.specs.declared.value.Value.TheVariants.{Number};
ghost use Rattle.base_columns.specs.Lists.{AreBelow, one_list};
ghost use Rattle.exec_hash_group.specs.ByNumber.{AtEach, PutAt, AreValues};
ghost use Rattle.exec_hash_group.specs.Regrouping.{lists_by_number};
ghost use Rattle.exec_hash_group.specs.States.{HaveTaken, MergedAt};

use crate::number_sums::summed_states;
use crate::values::{NumberValues, ValueList};
use base_decimal::Scale;
use base_value::Value;
use exec_accumulators::Accumulator;
use std::alloc::{AllocError, Global};

// `count` accumulators of no values.
fn starts<A: Accumulator>(alloc: Global, scale: Scale, count: usize) -> Result<Vec<A>, AllocError>
    ensures count { IfOk result (λ v. length v.items ≡ count) }
    ensures terms { IfOk result (λ v. AtEach (λ i s. A.terms s ≡ 0) v.items) }
    ensures taken { IfOk result
        (λ v. AtEach (λ i s. A.has_taken s (A.aggregate scale) []) v.items) }
{
    let mut states = Vec::with_capacity(alloc, count)?;
    for _i in 0..count {
        let state = A::new(alloc, scale);
        states.push(state)?;
    }
    Ok(states)
}

// Puts a value into the accumulator of its group.
fn put_at<A: Accumulator>(
    states: &mut Vec<A>,
    number: usize,
    value: &Value,
) -> Result<(), AllocError>
    requires number { number < length states.old.items }
    requires terms { AtEach (λ i s. A.terms s + 1 < 2 ^ 64) states.old.items }
    ensures { OnOk result (PutAt A.has_taken A.terms number value.now states.old.items
        states.new.items) }
{
    states[number].put(value)
}

// Merges an accumulator into that of its group.
fn merge_at<A: Accumulator>(states: &mut Vec<A>, number: usize, other: A) -> Result<(), AllocError>
    requires number { number < length states.old.items }
    requires terms { AtEach (λ i s. A.terms s + A.terms other < 2 ^ 64) states.old.items }
    ensures { OnOk result (MergedAt A.has_taken A.terms number other states.old.items
        states.new.items) }
{
    states[number].merge(other)
}

/// The values of the accumulators.
pub(crate) fn values_of<A: Accumulator>(
    alloc: Global,
    states: &[A],
) -> Result<Vec<Value>, AllocError>
    ensures { IfOk result (λ v. AreValues A.has_taken states.now v.items) }
{
    let mut values = Vec::with_capacity(alloc, states.len())?;
    for state in states {
        let value = state.value()?;
        values.push(value)?;
    }
    Ok(values)
}

// For each of `count` numbers an accumulator that has taken the values of the rows with that number
// one by one, in their order.
fn states_row_by_row<A: Accumulator, L: ValueList>(
    alloc: Global,
    scale: Scale,
    numbers: &[u32],
    count: usize,
    values: &L,
) -> Result<Vec<A>, AllocError>
    requires rows { length numbers.now ≡ length (L.shown values.now) }
    requires small { length numbers.now < 2 ^ 32 }
    requires numbers { AreBelow count numbers.now }
    ensures { IfOk result (λ v. HaveTaken A.has_taken A.terms (A.aggregate scale)
        (lists_by_number numbers.now (L.shown values.now) 0 count) v.items) }
{
    let mut states = starts::<A>(alloc, scale, count)?;
    for row in 0..numbers.len() {
        let value = values.value(row)?;
        put_at(&mut states, numbers[row] as usize, &value)?;
    }
    Ok(states)
}

// The accumulators of numbers: by their sums, where accumulators keep no more of them.
fn number_states<A: Accumulator>(
    alloc: Global,
    scale: Scale,
    own: Scale,
    numbers: &[u32],
    count: usize,
    coefficients: &[i64],
) -> Result<Vec<A>, AllocError>
    requires rows { length numbers.now ≡ length coefficients.now }
    requires small { length numbers.now < 2 ^ 32 }
    requires numbers { AreBelow count numbers.now }
    ensures { IfOk result (λ v. HaveTaken A.has_taken A.terms (A.aggregate scale)
        (lists_by_number numbers.now (map (Number own) coefficients.now) 0 count) v.items) }
{
    let summed = summed_states::<A>(alloc, scale, own, numbers, count, coefficients)?;
    if let Some(states) = summed {
        return Ok(states);
    }
    let typed = NumberValues::new(own, coefficients);
    let states = states_row_by_row::<A, NumberValues>(alloc, scale, numbers, count, &typed)?;
    Ok(states)
}

/// For each of `count` numbers an accumulator that has taken the values of the rows with that
/// number, in their order.
pub(crate) fn states_by_number<A: Accumulator, L: ValueList>(
    alloc: Global,
    scale: Scale,
    numbers: &[u32],
    count: usize,
    values: &L,
) -> Result<Vec<A>, AllocError>
    requires rows { length numbers.now ≡ length (L.shown values.now) }
    requires small { length numbers.now < 2 ^ 32 }
    requires numbers { AreBelow count numbers.now }
    ensures { IfOk result (λ v. HaveTaken A.has_taken A.terms (A.aggregate scale)
        (lists_by_number numbers.now (L.shown values.now) 0 count) v.items) }
{
    if let Some((own, coefficients)) = values.as_numbers() {
        let states = number_states::<A>(alloc, scale, own, numbers, count, coefficients)?;
        return Ok(states);
    }
    let states = states_row_by_row::<A, L>(alloc, scale, numbers, count, values)?;
    Ok(states)
}

/// Accumulators merged by their numbers, in their order: for each of `count` numbers the aggregate
/// of the values that those with that number have taken.
pub fn merged_by_number<A: Accumulator>(
    alloc: Global,
    scale: Scale,
    numbers: &[u32],
    count: usize,
    parts: Vec<A>,
) -> Result<Vec<Value>, AllocError>
    requires rows { length numbers.now ≡ length parts.items }
    requires small { length numbers.now < 2 ^ 32 }
    requires numbers { AreBelow count numbers.now }
    requires terms { AtEach (λ i s. A.terms s < 2 ^ 32) parts.items }
    ensures { IfOk result (λ v. (lists : List (List Datum))
        → HaveTaken A.has_taken A.terms (A.aggregate scale) lists parts.items
        → v.items ≡ map (λ ls. A.aggregate scale (one_list ls))
        (lists_by_number numbers.now lists 0 count)) }
{
    let mut states = starts::<A>(alloc, scale, count)?;
    let mut row = 0;
    for part in parts {
        merge_at(&mut states, numbers[row] as usize, part)?;
        row += 1;
    }
    let values = values_of(alloc, states.as_slice())?;
    Ok(values)
}
