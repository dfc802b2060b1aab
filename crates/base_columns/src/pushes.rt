//! Values put at the end of a form.
ghost use Rattle.std.specs.Prelude.{◌≡◌, ◌++◌, ◌∷◌, [], IfOk, OnErr, if◌then◌else◌, map};
ghost use Rattle.base_value.specs.declared.value.Value.TheVariants.{Number, Date as DateOf};
ghost use Rattle.base_value.specs.declared.value.Value.TheVariants.{Text as TextOf};
ghost use Rattle.base_columns.specs.Shown.{shown};
ghost use Rattle.base_columns.specs.Fields.{field_value, IsPrintableField};

use crate::codes::Codes;
use crate::field::{Field, value_of};
use crate::form::Form;
use crate::texts::Texts;
use base_date::CivilDate;
use base_decimal::Scale;
use base_value::Value;
use std::alloc::{AllocError, Global};

/// One field more, if this form holds it.
#[tactic(auto, using(crate::proofs::ColumnLists::lists))]
pub(crate) fn put(form: &mut Form, alloc: Global, field: &Field<'_>) -> Result<bool, AllocError>
    requires { IsPrintableField field.now }
    ensures ok { IfOk result
        (λ done. shown form.new
        ≡ (if done then shown form.old ++ field_value field.now ∷ [] else shown form.old)) }
    ensures err { OnErr result (shown form.new ≡ shown form.old) }
{
    match form {
        Form::Numbers(scale, numbers) => put_number(*scale, numbers, field),
        Form::Dates(dates) => put_date(dates, field),
        Form::Texts(texts) => put_text(texts, field),
        Form::Coded(codes) => put_code(alloc, codes, field),
        Form::Values(values) => put_value(alloc, values, field),
    }
}

/// One text more at the end of texts that a dictionary is too short for.
#[tactic(auto, using(crate::proofs::ColumnLists::lists))]
pub(crate) fn put_spelled(
    form: &mut Form,
    alloc: Global,
    field: &Field<'_>,
) -> Result<bool, AllocError>
    requires { IsPrintableField field.now }
    ensures ok { IfOk result
        (λ done. shown form.new
        ≡ (if done then shown form.old ++ field_value field.now ∷ [] else shown form.old)) }
    ensures err { OnErr result (shown form.new ≡ shown form.old) }
{
    let Form::Coded(codes) = form else {
        return Ok(false);
    };
    let Some(mut texts) = codes.spelled(alloc)? else {
        return Ok(false);
    };
    if !put_text(&mut texts, field)? {
        return Ok(false);
    }
    *form = Form::Texts(texts);
    Ok(true)
}

/// All values of another form, if both keep theirs alike.
#[tactic(auto, using(crate::proofs::ColumnLists::lists))]
pub(crate) fn extend(form: &mut Form, other: &Form) -> Result<bool, AllocError>
    ensures ok { IfOk result
        (λ done. shown form.new
        ≡ (if done then shown form.old ++ shown other.now else shown form.old)) }
    ensures err { OnErr result (shown form.new ≡ shown form.old) }
{
    match form {
        Form::Numbers(scale, numbers) => append_numbers(*scale, numbers, other),
        Form::Dates(dates) => append_dates(dates, other),
        Form::Texts(texts) => append_texts(texts, other),
        Form::Coded(codes) => append_codes(codes, other),
        Form::Values(_) => Ok(false),
    }
}

// All numbers of a form of that scale.
fn append_numbers(scale: Scale, numbers: &mut Vec<i64>, other: &Form) -> Result<bool, AllocError>
    ensures ok { IfOk result
        (λ done. map (Number scale) numbers.new.items
        ≡ (if done then map (Number scale) numbers.old.items ++ shown other.now
        else map (Number scale) numbers.old.items)) }
    ensures err { OnErr result (numbers.new.items ≡ numbers.old.items) }
{
    let Form::Numbers(s, more) = other else {
        return Ok(false);
    };
    if *s != scale {
        return Ok(false);
    }
    numbers.extend_from_slice(more.as_slice())?;
    Ok(true)
}

// All dates of a form that keeps dates.
fn append_dates(dates: &mut Vec<CivilDate>, other: &Form) -> Result<bool, AllocError>
    ensures ok { IfOk result
        (λ done. map DateOf dates.new.items
        ≡ (if done then map DateOf dates.old.items ++ shown other.now
        else map DateOf dates.old.items)) }
    ensures err { OnErr result (dates.new.items ≡ dates.old.items) }
{
    let Form::Dates(more) = other else {
        return Ok(false);
    };
    dates.extend_from_slice(more.as_slice())?;
    Ok(true)
}

// All texts of a form that keeps texts one after the other, if the buffer has room.
fn append_texts(texts: &mut Texts, other: &Form) -> Result<bool, AllocError>
    ensures ok { IfOk result
        (λ done. map TextOf texts.new
        ≡ (if done then map TextOf texts.old ++ shown other.now else map TextOf texts.old)) }
    ensures err { OnErr result (texts.new ≡ texts.old) }
{
    let Form::Texts(more) = other else {
        return Ok(false);
    };
    texts.append(more)
}

// All texts of a form, if one of the dictionaries begins with the other.
fn append_codes(codes: &mut Codes, other: &Form) -> Result<bool, AllocError>
    ensures ok { IfOk result
        (λ done. map TextOf codes.new
        ≡ (if done then map TextOf codes.old ++ shown other.now else map TextOf codes.old)) }
    ensures err { OnErr result (codes.new ≡ codes.old) }
{
    let Form::Coded(more) = other else {
        return Ok(false);
    };
    codes.append(more)
}

// A number more, if it is one of that scale.
fn put_number(scale: Scale, numbers: &mut Vec<i64>, field: &Field<'_>) -> Result<bool, AllocError>
    ensures ok { IfOk result
        (λ done. map (Number scale) numbers.new.items
        ≡ (if done then map (Number scale) numbers.old.items ++ field_value field.now ∷ []
        else map (Number scale) numbers.old.items)) }
    ensures err { OnErr result (numbers.new.items ≡ numbers.old.items) }
{
    let Field::Number(s, number) = field else {
        return Ok(false);
    };
    if *s != scale {
        return Ok(false);
    }
    numbers.push(*number)?;
    Ok(true)
}

// A date more, if it is one.
fn put_date(dates: &mut Vec<CivilDate>, field: &Field<'_>) -> Result<bool, AllocError>
    ensures ok { IfOk result
        (λ done. map DateOf dates.new.items
        ≡ (if done then map DateOf dates.old.items ++ field_value field.now ∷ []
        else map DateOf dates.old.items)) }
    ensures err { OnErr result (dates.new.items ≡ dates.old.items) }
{
    let Field::Date(date) = field else {
        return Ok(false);
    };
    dates.push(*date)?;
    Ok(true)
}

// A text more, if it is one and the buffer has room.
fn put_text(texts: &mut Texts, field: &Field<'_>) -> Result<bool, AllocError>
    requires { IsPrintableField field.now }
    ensures ok { IfOk result
        (λ done. map TextOf texts.new
        ≡ (if done then map TextOf texts.old ++ field_value field.now ∷ []
        else map TextOf texts.old)) }
    ensures err { OnErr result (texts.new ≡ texts.old) }
{
    let Field::Text(text) = field else {
        return Ok(false);
    };
    texts.push(text)
}

// A text more, if it is one and the dictionary has room.
fn put_code(alloc: Global, codes: &mut Codes, field: &Field<'_>) -> Result<bool, AllocError>
    requires { IsPrintableField field.now }
    ensures ok { IfOk result
        (λ done. map TextOf codes.new
        ≡ (if done then map TextOf codes.old ++ field_value field.now ∷ []
        else map TextOf codes.old)) }
    ensures err { OnErr result (codes.new ≡ codes.old) }
{
    let Field::Text(text) = field else {
        return Ok(false);
    };
    codes.push(alloc, text)
}

// A value more, of whatever kind.
fn put_value(alloc: Global, values: &mut Vec<Value>, field: &Field<'_>) -> Result<bool, AllocError>
    requires { IsPrintableField field.now }
    ensures ok { IfOk result
        (λ done. values.new.items
        ≡ (if done then values.old.items ++ field_value field.now ∷ []
        else values.old.items)) }
    ensures err { OnErr result (values.new.items ≡ values.old.items) }
{
    let value = value_of(alloc, field)?;
    values.push(value)?;
    Ok(true)
}
