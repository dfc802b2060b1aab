//! How a column keeps its values, and how they are read.
ghost use Rattle.std.specs.Prelude.{◌≡◌, ◌<◌, ◌≤◌, ◌++◌, ◌∷◌, [], IfOk, IfSome, OnErr, length};
ghost use Rattle.std.specs.Prelude.{take, slice_index_or, map, replicate, IsNone, false};
ghost use Rattle.base_value.specs.declared.value.Value.TheVariants.{Null, Number, Date as DateOf};
ghost use Rattle.base_value.specs.declared.value.Value.TheVariants.{Text as TextOf};
ghost use Rattle.base_columns.specs.Forms.{AreOfForm, is_text};
ghost use Rattle.base_columns.specs.Lists.{gathered, AreBelow};
ghost use Rattle.base_columns.specs.Fields.{field_value, IsPrintableField};
ghost use Rattle.base_columns.specs.Numbers.{small_number};
ghost use Rattle.base_columns.specs.Shown.{shown};

use crate::codes::Codes;
use crate::column_builder::ColumnForm;
use crate::field::{Field, field_of};
use crate::places::copies;
use crate::texts::Texts;
use base_date::CivilDate;
use base_decimal::Scale;
use base_value::Value;
use std::alloc::{AllocError, Global};

// The typed forms hold neither null nor fault, and numbers of one scale and 64 bits.
pub(crate) enum Form {
    Numbers(Scale, Vec<i64>),
    Dates(Vec<CivilDate>),
    Texts(Texts),
    Coded(Codes),
    Values(Vec<Value>),
}

impl Drop for Form {
    #[inline]
    fn drop(self) {
        match self {
            Form::Numbers(_, kept) => drop(kept),
            Form::Dates(kept) => drop(kept),
            Form::Texts(kept) => drop(kept),
            Form::Coded(kept) => drop(kept),
            Form::Values(kept) => drop(kept),
        }
    }
}

/// How many values there are.
pub(crate) fn form_len(form: &Form) -> usize
    ensures { result ≡ length (shown form.now) }
{
    match form {
        Form::Numbers(_, numbers) => numbers.len(),
        Form::Dates(dates) => dates.len(),
        Form::Texts(texts) => texts.len(),
        Form::Coded(codes) => codes.len(),
        Form::Values(values) => values.len(),
    }
}

/// What all values are.
#[tactic(auto, using(crate::proofs::FormLists::forms))]
pub(crate) fn form_type(form: &Form) -> ColumnForm
    ensures { AreOfForm result (shown form.now) }
{
    match form {
        Form::Numbers(scale, _) => ColumnForm::Numbers(*scale),
        Form::Dates(_) => ColumnForm::Dates,
        Form::Texts(_) => ColumnForm::Texts,
        Form::Coded(_) => ColumnForm::Texts,
        Form::Values(_) => ColumnForm::Values,
    }
}

/// The value at a place.
pub(crate) fn form_at(alloc: Global, form: &Form, i: usize) -> Result<Value, AllocError>
    requires { i < length (shown form.now) }
    ensures { IfOk result (λ v. v ≡ slice_index_or (shown form.now) i Null) }
{
    match form {
        Form::Numbers(scale, numbers) => Ok(Value::Number(*scale, i128::from(numbers[i]))),
        Form::Dates(dates) => Ok(Value::Date(dates[i])),
        Form::Texts(texts) => {
            let text = texts.text(alloc, i)?;
            Ok(Value::Text(text))
        }
        Form::Coded(codes) => {
            let text = codes.text(i).clone()?;
            Ok(Value::Text(text))
        }
        Form::Values(values) => values[i].clone(),
    }
}

/// The number at a place, where it is one of 64 bits.
#[tactic(auto, using(crate::proofs::ColumnLists::numbers))]
pub(crate) fn form_number(form: &Form, i: usize) -> Option<i64>
    requires { i < length (shown form.now) }
    ensures { result ≡ small_number (slice_index_or (shown form.now) i Null) }
{
    match form {
        Form::Numbers(_, numbers) => Some(numbers[i]),
        Form::Values(values) => small_number(&values[i]),
        Form::Dates(_) => None,
        Form::Texts(_) => None,
        Form::Coded(_) => None,
    }
}

/// The bytes of the text at a place, where it is a text.
#[tactic(auto, using(crate::proofs::ColumnLists::texts))]
pub(crate) fn form_text(form: &Form, i: usize) -> Option<&[u8]>
    requires { i < length (shown form.now) }
    ensures value { IfSome result (λ b. TextOf b.now ≡ slice_index_or (shown form.now) i Null) }
    ensures none { IsNone result → is_text (slice_index_or (shown form.now) i Null) ≡ false }
{
    match form {
        Form::Texts(texts) => Some(texts.bytes(i)),
        Form::Coded(codes) => Some(codes.text(i).bytes()),
        Form::Values(values) => text_bytes(&values[i]),
        Form::Numbers(_, _) => None,
        Form::Dates(_) => None,
    }
}

// The bytes of a value, where it is a text.
fn text_bytes(value: &Value) -> Option<&[u8]>
    ensures value { IfSome result (λ b. TextOf b.now ≡ value.now) }
    ensures none { IsNone result → is_text value.now ≡ false }
{
    match value {
        Value::Text(text) => Some(text.bytes()),
        Value::Number(_, _) | Value::Date(_) | Value::Fault(_) | Value::Null => None,
    }
}

// The number of a value, where it is one of 64 bits.
fn small_number(value: &Value) -> Option<i64>
    ensures { result ≡ small_number value.now }
{
    match value {
        Value::Number(_, coefficient) => i64::try_from(*coefficient).ok(),
        _ => None,
    }
}

/// The same value n times.
pub(crate) fn repeated(alloc: Global, value: &Value, n: usize) -> Result<Form, AllocError>
    ensures { IfOk result (λ f. shown f ≡ replicate n value.now) }
{
    match field_of(value) {
        Some(field) => repeated_field(alloc, &field, n),
        None => {
            let values = repeated_value(alloc, value, n)?;
            Ok(Form::Values(values))
        }
    }
}

/// The same field n times.
#[tactic(auto, using(crate::proofs::ColumnLists::repeats))]
pub(crate) fn repeated_field(alloc: Global, field: &Field<'_>, n: usize) -> Result<Form, AllocError>
    requires { IsPrintableField field.now }
    ensures { IfOk result (λ f. shown f ≡ replicate n (field_value field.now)) }
{
    match field {
        Field::Number(scale, number) => {
            let numbers = Vec::from_elem(alloc, *number, n)?;
            Ok(Form::Numbers(*scale, numbers))
        }
        Field::Date(date) => {
            let dates = Vec::from_elem(alloc, *date, n)?;
            Ok(Form::Dates(dates))
        }
        Field::Text(text) => {
            let codes = Codes::repeated(alloc, text, n)?;
            Ok(Form::Coded(codes))
        }
        Field::Null => {
            let values = repeated_value(alloc, &Value::Null, n)?;
            Ok(Form::Values(values))
        }
    }
}

// The same value n times, each a value of its own.
#[tactic(auto, using(crate::proofs::ColumnLists::repeats))]
fn repeated_value(alloc: Global, value: &Value, n: usize) -> Result<Vec<Value>, AllocError>
    ensures { IfOk result (λ v. v.items ≡ replicate n value.now) }
{
    let mut values = Vec::with_capacity(alloc, n)?;
    for _i in 0..n {
        let copy = value.clone()?;
        values.push(copy)?;
    }
    Ok(values)
}

/// All values, of whatever kind.
pub(crate) fn widened(alloc: Global, form: &Form) -> Result<Vec<Value>, AllocError>
    ensures { IfOk result (λ values. values.items ≡ shown form.now) }
{
    let mut values = Vec::with_capacity(alloc, form_len(form))?;
    for i in 0..form_len(form) {
        let value = form_at(alloc, form, i)?;
        values.push(value)?;
    }
    Ok(values)
}

/// The first n values alone.
#[tactic(auto, using(crate::proofs::ColumnLists::cuts))]
pub(crate) fn truncate(form: &mut Form, n: usize)
    requires { n ≤ length (shown form.old) }
    ensures { shown form.new ≡ take n (shown form.old) }
{
    match form {
        Form::Numbers(_, numbers) => numbers.truncate(n),
        Form::Dates(dates) => dates.truncate(n),
        Form::Texts(texts) => texts.truncate(n),
        Form::Coded(codes) => codes.truncate(n),
        Form::Values(values) => values.truncate(n),
    }
}

/// No values, with room for n in the same form.
pub(crate) fn empty_like(alloc: Global, form: &Form, n: usize) -> Result<Form, AllocError>
    ensures { IfOk result (λ f. shown f ≡ []) }
{
    match form {
        Form::Numbers(scale, _) => {
            let numbers = Vec::with_capacity(alloc, n)?;
            Ok(Form::Numbers(*scale, numbers))
        }
        Form::Dates(_) => {
            let dates = Vec::with_capacity(alloc, n)?;
            Ok(Form::Dates(dates))
        }
        Form::Texts(_) => {
            let texts = Texts::with_room(alloc, n)?;
            Ok(Form::Texts(texts))
        }
        Form::Coded(codes) => {
            let codes = codes.emptied(alloc, n)?;
            Ok(Form::Coded(codes))
        }
        Form::Values(_) => {
            let values = Vec::with_capacity(alloc, n)?;
            Ok(Form::Values(values))
        }
    }
}

/// The values at these places, in their order.
#[tactic(auto, using(crate::proofs::ColumnLists::lists))]
pub(crate) fn gather(alloc: Global, form: &Form, places: &[u32]) -> Result<Form, AllocError>
    requires { AreBelow (length (shown form.now)) places.now }
    ensures { IfOk result (λ f. shown f ≡ gathered Null (shown form.now) places.now) }
{
    match form {
        Form::Numbers(scale, numbers) => gather_numbers(alloc, *scale, numbers.as_slice(), places),
        Form::Dates(dates) => gather_dates(alloc, dates.as_slice(), places),
        Form::Texts(texts) => match gather_texts(alloc, texts, places)? {
            Some(form) => Ok(form),
            None => gather_values(alloc, form, places),
        },
        Form::Coded(codes) => gather_codes(alloc, codes, places),
        Form::Values(_) => gather_values(alloc, form, places),
    }
}

// The numbers at these places.
fn gather_numbers(
    alloc: Global,
    scale: Scale,
    numbers: &[i64],
    places: &[u32],
) -> Result<Form, AllocError>
    requires { AreBelow (length numbers.now) places.now }
    ensures { IfOk result (λ f. shown f
        ≡ gathered Null (map (Number scale) numbers.now) places.now) }
{
    let numbers = copies(alloc, numbers, places)?;
    Ok(Form::Numbers(scale, numbers))
}

// The dates at these places.
fn gather_dates(alloc: Global, dates: &[CivilDate], places: &[u32]) -> Result<Form, AllocError>
    requires { AreBelow (length dates.now) places.now }
    ensures { IfOk result (λ f. shown f ≡ gathered Null (map DateOf dates.now) places.now) }
{
    let dates = copies(alloc, dates, places)?;
    Ok(Form::Dates(dates))
}

// The texts at these places, unless they are too long together.
#[tactic(auto, using(crate::proofs::ColumnLists::lists))]
fn gather_texts(alloc: Global, texts: &Texts, places: &[u32]) -> Result<Option<Form>, AllocError>
    requires { AreBelow (length texts.now) places.now }
    ensures { IfOk result (λ r.
        IfSome r (λ f. shown f ≡ gathered Null (map TextOf texts.now) places.now)) }
{
    match texts.gather(alloc, places)? {
        Some(texts) => Ok(Some(Form::Texts(texts))),
        None => Ok(None),
    }
}

// The texts at these places, as codes.
#[tactic(auto, using(crate::proofs::ColumnLists::lists))]
fn gather_codes(alloc: Global, codes: &Codes, places: &[u32]) -> Result<Form, AllocError>
    requires { AreBelow (length codes.now) places.now }
    ensures { IfOk result (λ f. shown f ≡ gathered Null (map TextOf codes.now) places.now) }
{
    let codes = codes.gather(alloc, places)?;
    Ok(Form::Coded(codes))
}

// The values at these places, each as a value of its own.
fn gather_values(alloc: Global, form: &Form, places: &[u32]) -> Result<Form, AllocError>
    requires { AreBelow (length (shown form.now)) places.now }
    ensures { IfOk result (λ f. shown f ≡ gathered Null (shown form.now) places.now) }
{
    let mut values = Vec::with_capacity(alloc, places.len())?;
    for place in places {
        let value = form_at(alloc, form, *place as usize)?;
        values.push(value)?;
    }
    Ok(Form::Values(values))
}

/// The same values in the same form, without room for more.
pub(crate) fn stored(alloc: Global, form: &Form) -> Result<Form, AllocError>
    ensures { IfOk result (λ f. shown f ≡ shown form.now) }
{
    match form {
        Form::Numbers(scale, numbers) => {
            let numbers = Vec::from_slice(alloc, numbers.as_slice())?;
            Ok(Form::Numbers(*scale, numbers))
        }
        Form::Dates(dates) => {
            let dates = Vec::from_slice(alloc, dates.as_slice())?;
            Ok(Form::Dates(dates))
        }
        Form::Texts(texts) => {
            let texts = texts.stored(alloc)?;
            Ok(Form::Texts(texts))
        }
        Form::Coded(codes) => {
            let codes = codes.stored(alloc)?;
            Ok(Form::Coded(codes))
        }
        Form::Values(_) => {
            let values = widened(alloc, form)?;
            Ok(Form::Values(values))
        }
    }
}
