//! Codes of the values of a column.
ghost use Rattle.std.specs.Prelude.{◌≡◌, pos, List, [], map, length, IfOk, IfSome, IsTrue};
ghost use Rattle.std.specs.Ordering.{int_eq};
ghost use Rattle.base_null_marks.specs.Marks.{marked};
ghost use Rattle.base_value.specs.declared.value.Value.{Value as Datum};
ghost use Rattle.base_value.specs.declared.value.Value.TheVariants.{Null, Number, Date as DateOf};
ghost use Rattle.base_value.specs.declared.value.Value.TheVariants.{Text as TextOf};
ghost use Rattle.base_value.specs.Value.{same_value};
ghost use Rattle.base_columns.specs.Lists.{gathered, AreBelow};
ghost use Rattle.exec_row_keys.specs.Keys.{AreCodes, HasNoNull, IsFree};

use crate::key::ValueKey;
use base_columns::{Column, Dictionary};
use base_date::CivilDate;
use base_decimal::Scale;
use base_key_tables::KeySet;
use base_null_marks::{Marks, masked};
use base_text::Text;
use base_value::Value;
use std::alloc::{AllocError, Global};

// The number that stands for null where no other value has it.
const NULL_CODE: i64 = i64::MIN;

/// A number for each value, the same exactly for identical values. 2^32 values or more are an
/// error, as memory that isn't there.
pub fn codes(alloc: Global, column: &Column) -> Result<Vec<i64>, AllocError>
    ensures { IfOk result (λ v. AreCodes column.now v.items) }
{
    if let Some(codes) = typed_codes(alloc, column)? {
        return Ok(codes);
    }
    let values = values_of(alloc, column)?;
    value_codes(alloc, values.as_slice())
}

// The same of numbers, dates or places of a dictionary, with nulls among them.
fn typed_codes(alloc: Global, column: &Column) -> Result<Option<Vec<i64>>, AllocError>
    ensures { IfOk result (λ r. IfSome r (λ v. AreCodes column.now v.items)) }
{
    if let Some((scale, numbers, marks)) = column.marked_numbers() {
        let codes = number_codes(alloc, scale, numbers)?;
        return Ok(with_null_code(codes, marks));
    }
    if let Some((dates, marks)) = column.marked_dates() {
        let codes = date_codes(alloc, dates)?;
        return Ok(with_null_code(codes, marks));
    }
    if let Some((places, dictionary, marks)) = column.marked_codes() {
        let codes = text_codes(alloc, places, dictionary)?;
        return Ok(with_null_code(codes, marks));
    }
    Ok(None)
}

// Whether two numbers are the same.
fn is_same(a: &i64, b: &i64) -> bool
    ensures { result ≡ int_eq a.now b.now }
{
    let (a, b) = (*a, *b);
    a == b
}

// Whether no number is this one.
fn is_free(numbers: &[i64], free: &i64) -> bool
    ensures { IsTrue result → IsFree numbers.now free.now }
{
    for number in numbers {
        if is_same(number, free) {
            return false;
        }
    }
    true
}

// The codes of values some of which are null, from those of values that aren't, if a number is left
// for null.
#[tactic(auto, using(crate::proofs::NullCodes::codes))]
fn with_null_code(codes: Vec<i64>, marks: &Marks) -> Option<Vec<i64>>
    ensures { IfSome result
        (λ v. (xs : List Datum) → HasNoNull xs → AreCodes xs codes.items
        → AreCodes (marked Null marks.now xs) v.items) }
{
    if marks.are_none() {
        return Some(codes);
    }
    let free = NULL_CODE;
    if !is_free(codes.as_slice(), &free) {
        return None;
    }
    Some(masked(codes, marks, free))
}

// The coefficients of numbers of one scale.
fn number_codes(alloc: Global, _scale: Scale, numbers: &[i64]) -> Result<Vec<i64>, AllocError>
    ensures { IfOk result (λ v. AreCodes (map (Number _scale) numbers.now) v.items) }
{
    Vec::from_slice(alloc, numbers)
}

// Each date's number.
fn date_codes(alloc: Global, dates: &[CivilDate]) -> Result<Vec<i64>, AllocError>
    ensures { IfOk result (λ v. AreCodes (map DateOf dates.now) v.items) }
{
    let mut codes = Vec::with_capacity(alloc, dates.len())?;
    for date in dates {
        codes.push(i64::from(date.number()))?;
    }
    Ok(codes)
}

// The texts of a dictionary as values.
fn dictionary_values(alloc: Global, texts: &[Text]) -> Result<Vec<Value>, AllocError>
    ensures { IfOk result (λ v. v.items ≡ map TextOf texts.now) }
{
    let mut values = Vec::with_capacity(alloc, texts.len())?;
    for text in texts {
        let text = text.clone()?;
        values.push(Value::Text(text))?;
    }
    Ok(values)
}

// The code of each text, which a dictionary has once or more often.
fn text_codes(alloc: Global, places: &[u8], dictionary: &Dictionary) -> Result<Vec<i64>, AllocError>
    requires { AreBelow (length dictionary.now) places.now }
    ensures { IfOk result (λ v.
        AreCodes (map TextOf (gathered [] dictionary.now places.now)) v.items) }
{
    let texts = dictionary_values(alloc, dictionary.texts())?;
    let numbered = value_codes(alloc, texts.as_slice())?;
    let mut codes = Vec::with_capacity(alloc, places.len())?;
    for place in places {
        codes.push(numbered[*place as usize])?;
    }
    Ok(codes)
}

// All values of a column.
fn values_of(alloc: Global, column: &Column) -> Result<Vec<Value>, AllocError>
    ensures { IfOk result (λ v. v.items ≡ column.now) }
{
    let mut values = Vec::with_capacity(alloc, column.len())?;
    for i in 0..column.len() {
        let value = column.at(alloc, i)?;
        values.push(value)?;
    }
    Ok(values)
}

// The number of each value, in the order in which they first come.
fn value_codes(alloc: Global, values: &[Value]) -> Result<Vec<i64>, AllocError>
    ensures { IfOk result (λ v. AreCodes values.now v.items) }
{
    if values.len() > u32::MAX as usize {
        return Err(AllocError);
    }
    let mut seen = KeySet::new(alloc);
    let mut codes = Vec::with_capacity(alloc, values.len())?;
    for i in 0..values.len() {
        let (number, _) = seen.put(ValueKey::new(&values[i]))?;
        codes.push(number as i64)?;
    }
    Ok(codes)
}

// The same numbers with a sign.
pub(crate) fn wide_numbers(alloc: Global, numbers: &[u32]) -> Result<Vec<i64>, AllocError>
    ensures { IfOk result (λ v. v.items ≡ map pos numbers.now) }
{
    let mut wide = Vec::with_capacity(alloc, numbers.len())?;
    for number in numbers {
        wide.push(i64::from(*number))?;
    }
    Ok(wide)
}
