//! Sums of numbers of 64 bits, group by group.
ghost use Rattle.std.specs.Prelude.{◌≡◌, ◌<◌, ◌+◌, ◌^◌, map, set, length, slice_index_or};
ghost use Rattle.std.specs.Prelude.{IfOk, IfSome};
ghost use Rattle.base_null_marks.specs.Marks.{marked};
ghost use Rattle.base_value.specs.declared.value.Value.TheVariants.{Null, Number};
ghost use Rattle.base_row_laws.specs.Aggregates.{sum_of};
ghost use Rattle.expr_aggregates.specs.Values.{reading, above, below};
ghost use Rattle.base_columns.specs.Lists.{AreBelow};
ghost use Rattle.exec_hash_group.specs.ByNumber.{values_by_number};
ghost use Rattle.exec_hash_group.specs.NumberSums.{AreSums, sum_value};
ghost use Rattle.exec_hash_group.specs.Regrouping.{lists_by_number};
ghost use Rattle.exec_hash_group.specs.States.{HaveTaken};

use crate::unmarked::unmarked;
use base_columns::{Column, ColumnBuilder, ColumnForm};
use base_decimal::Scale;
use base_null_marks::Marks;
use base_value::Value;
use exec_accumulators::Accumulator;
use std::alloc::{AllocError, Global};

// Of each group how many numbers it has, the sum of those at or above 0, and of the others negated.
#[derive(Drop)]
struct NumberSums {
    terms: Vec<u64>,
    ups: Vec<u128>,
    downs: Vec<u128>,
}

// One more at a place.
fn count_at(terms: &mut Vec<u64>, place: usize)
    requires within { place < length terms.old.items }
    requires fits { slice_index_or terms.old.items place 0 + 1 < 2 ^ 64 }
    ensures { terms.new.items
        ≡ set terms.old.items place (slice_index_or terms.old.items place 0 + 1) }
{
    terms[place] += 1;
}

// A coefficient more at a place: of the sums of those at or above 0, or of the others negated.
fn add_at(ups: &mut Vec<u128>, downs: &mut Vec<u128>, place: usize, coefficient: i64)
    requires above_within { place < length ups.old.items }
    requires below_within { place < length downs.old.items }
    requires above_fits { slice_index_or ups.old.items place 0 < 2 ^ 127 }
    requires below_fits { slice_index_or downs.old.items place 0 < 2 ^ 127 }
    ensures above { ups.new.items ≡ set ups.old.items place
        (slice_index_or ups.old.items place 0 + above (Number 0 coefficient)) }
    ensures below { downs.new.items ≡ set downs.old.items place
        (slice_index_or downs.old.items place 0 + below (Number 0 coefficient)) }
{
    if coefficient < 0 {
        downs[place] += u128::from(coefficient.unsigned_abs());
    } else {
        ups[place] += coefficient as u128;
    }
}

// For each of `count` numbers the sums of the coefficients of the rows with that number.
fn summed(
    alloc: Global,
    _scale: Scale,
    numbers: &[u32],
    count: usize,
    coefficients: &[i64],
) -> Result<NumberSums, AllocError>
    requires rows { length numbers.now ≡ length coefficients.now }
    requires small { length numbers.now < 2 ^ 32 }
    requires numbers { AreBelow count numbers.now }
    ensures { IfOk result (λ s.
        AreSums numbers.now (map (Number _scale) coefficients.now) count s.terms.items s.ups.items
        s.downs.items) }
{
    let mut terms = vec![in alloc; 0u64; count]?;
    let mut ups = vec![in alloc; 0u128; count]?;
    let mut downs = vec![in alloc; 0u128; count]?;
    for row in 0..numbers.len() {
        let number = numbers[row] as usize;
        count_at(&mut terms, number);
        add_at(&mut ups, &mut downs, number, coefficients[row]);
    }
    Ok(NumberSums { terms, ups, downs })
}

// `summed` of coefficients of which those that are marked don't count.
fn marked_sums(
    alloc: Global,
    _scale: Scale,
    numbers: &[u32],
    count: usize,
    coefficients: &[i64],
    marks: &Marks,
) -> Result<NumberSums, AllocError>
    requires rows { length numbers.now ≡ length coefficients.now }
    requires small { length numbers.now < 2 ^ 32 }
    requires numbers { AreBelow count numbers.now }
    ensures { IfOk result (λ s.
        AreSums numbers.now (marked Null marks.now (map (Number _scale) coefficients.now)) count
        s.terms.items s.ups.items s.downs.items) }
{
    if marks.are_none() {
        return summed(alloc, _scale, numbers, count, coefficients);
    }
    let kept = unmarked(alloc, numbers, marks)?;
    let present = unmarked(alloc, coefficients, marks)?;
    summed(alloc, _scale, kept.as_slice(), count, present.as_slice())
}

// A sum as a value: null of no terms.
fn sum_value(scale: Scale, terms: u64, up: u128, down: u128) -> Value
    requires above { up < 2 ^ 127 }
    requires below { down < 2 ^ 127 }
    ensures { result ≡ sum_value scale terms up down }
{
    if terms == 0 {
        return Value::Null;
    }
    Value::Number(scale, up as i128 - down as i128)
}

/// For each of `count` numbers the sum, as a number of a scale, of the coefficients of the rows
/// with that number that aren't marked as null: null where there are none.
pub(crate) fn sum_column(
    alloc: Global,
    scale: Scale,
    own: Scale,
    numbers: &[u32],
    count: usize,
    coefficients: &[i64],
    marks: &Marks,
) -> Result<Column, AllocError>
    requires rows { length numbers.now ≡ length coefficients.now }
    requires small { length numbers.now < 2 ^ 32 }
    requires numbers { AreBelow count numbers.now }
    ensures { IfOk result (λ c. c ≡ values_by_number (sum_of (reading scale)) numbers.now
        (marked Null marks.now (map (Number own) coefficients.now)) 0 count) }
{
    let NumberSums { terms, ups, downs } = marked_sums(
        alloc,
        own,
        numbers,
        count,
        coefficients,
        marks,
    )?;
    let mut column = ColumnBuilder::new(alloc, ColumnForm::Numbers(scale))?;
    for number in 0..count {
        column.push(
            alloc,
            &sum_value(scale, terms[number], ups[number], downs[number]),
        )?;
    }
    Ok(column.finish())
}

/// For each of `count` numbers an accumulator that has taken the numbers, of these coefficients, of
/// the rows with that number. None for accumulators that keep more of numbers than their sums.
pub(crate) fn summed_states<A: Accumulator>(
    alloc: Global,
    scale: Scale,
    own: Scale,
    numbers: &[u32],
    count: usize,
    coefficients: &[i64],
) -> Result<Option<Vec<A>>, AllocError>
    requires rows { length numbers.now ≡ length coefficients.now }
    requires small { length numbers.now < 2 ^ 32 }
    requires numbers { AreBelow count numbers.now }
    ensures { IfOk result (λ o. IfSome o (λ v.
        HaveTaken A.has_taken A.terms (A.aggregate scale)
        (lists_by_number numbers.now (map (Number own) coefficients.now) 0 count) v.items)) }
{
    if A::of_sums(scale, 0, 0, 0).is_none() {
        return Ok(None);
    }
    let NumberSums { terms, ups, downs } = summed(alloc, own, numbers, count, coefficients)?;
    let mut states = Vec::with_capacity(alloc, count)?;
    for number in 0..count {
        match A::of_sums(scale, terms[number], ups[number], downs[number]) {
            Some(state) => states.push(state)?,
            None => return Ok(None),
        }
    }
    Ok(Some(states))
}
