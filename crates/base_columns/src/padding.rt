//! Values that only stand under marks, of which nobody asks what they are.
ghost use Rattle.std.specs.Prelude.{◌≡◌, ◌∷◌, [], IfOk, IfSome, OnErr, length, map};
ghost use Rattle.base_value.specs.declared.value.Value.TheVariants.{Number, Date as DateOf};
ghost use Rattle.base_value.specs.declared.value.Value.TheVariants.{Text as TextOf};
ghost use Rattle.base_columns.specs.Lists.{IsPadded};
ghost use Rattle.base_columns.specs.Shown.{shown};

use crate::codes::Codes;
use crate::form::{Form, empty_like, repeated};
use crate::texts::Texts;
use base_date::CivilDate;
use base_decimal::Scale;
use base_value::Value;
use std::alloc::{AllocError, Global};

/// One value more, whichever it is, if the form is a typed one and has room for it.
pub(crate) fn put_any(form: &mut Form, alloc: Global) -> Result<bool, AllocError>
    ensures ok { IfOk result (λ done. IsPadded done (shown form.old) (shown form.new)) }
    ensures err { OnErr result (shown form.new ≡ shown form.old) }
{
    match form {
        Form::Numbers(scale, numbers) => put_zero(*scale, numbers),
        Form::Dates(dates) => put_any_date(dates),
        Form::Texts(texts) => put_empty(texts),
        Form::Coded(codes) => put_any_code(alloc, codes),
        Form::Values(_) => Ok(false),
    }
}

// A zero more.
#[tactic(auto, using(crate::proofs::MarkedColumns::longer))]
fn put_zero(scale: Scale, numbers: &mut Vec<i64>) -> Result<bool, AllocError>
    ensures ok { IfOk result (λ done. IsPadded done
        (map (Number scale) numbers.old.items) (map (Number scale) numbers.new.items)) }
    ensures err { OnErr result
        (map (Number scale) numbers.new.items ≡ map (Number scale) numbers.old.items) }
{
    numbers.push(0)?;
    Ok(true)
}

// The first date, or one of the calendar where there is none.
fn any_date(dates: &[CivilDate]) -> Option<CivilDate> {
    match dates.first() {
        Some(date) => Some(*date),
        None => CivilDate::read(b"1992-01-01").ok(),
    }
}

// A date more.
#[tactic(auto, using(crate::proofs::MarkedColumns::longer))]
fn put_any_date(dates: &mut Vec<CivilDate>) -> Result<bool, AllocError>
    ensures ok { IfOk result (λ done. IsPadded done
        (map DateOf dates.old.items) (map DateOf dates.new.items)) }
    ensures err { OnErr result (map DateOf dates.new.items ≡ map DateOf dates.old.items) }
{
    let Some(date) = any_date(dates.as_slice()) else {
        return Ok(false);
    };
    dates.push(date)?;
    Ok(true)
}

// An empty text more.
#[tactic(auto, using(crate::proofs::MarkedColumns::longer))]
fn put_empty(texts: &mut Texts) -> Result<bool, AllocError>
    ensures ok { IfOk result (λ done. IsPadded done (map TextOf texts.old) (map TextOf texts.new)) }
    ensures err { OnErr result (map TextOf texts.new ≡ map TextOf texts.old) }
{
    texts.push(b"")
}

// A text more.
#[tactic(auto, using(crate::proofs::MarkedColumns::longer))]
fn put_any_code(alloc: Global, codes: &mut Codes) -> Result<bool, AllocError>
    ensures ok { IfOk result (λ done. IsPadded done (map TextOf codes.old) (map TextOf codes.new)) }
    ensures err { OnErr result (map TextOf codes.new ≡ map TextOf codes.old) }
{
    if codes.push_first()? {
        return Ok(true);
    }
    codes.push(alloc, b"")
}

/// N values, whichever they are, in the form that another has.
#[tactic(auto, using(crate::proofs::MarkedColumns::pads))]
pub(crate) fn padding(alloc: Global, form: &Form, n: usize) -> Result<Form, AllocError>
    ensures { IfOk result (λ f. length (shown f) ≡ n) }
{
    let mut padding = empty_like(alloc, form, n)?;
    for _i in 0..n {
        if !put_any(&mut padding, alloc)? {
            return repeated(alloc, &Value::Null, n);
        }
    }
    Ok(padding)
}
