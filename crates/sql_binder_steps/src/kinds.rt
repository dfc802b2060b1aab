//! What expressions are, and which fit.
ghost use Rattle.std.specs.Prelude.{◌≡◌, length};
ghost use Rattle.std.specs.List.{list_all};
ghost use Rattle.sql_binder_steps.specs.Steps.{Gives};
ghost use Rattle.sql_binder_steps.specs.Kinds as spec;

use crate::collected::BoundKind;
use crate::fault::BindFault;
use base_decimal::Scale;
use base_refusals::BindRefusal;
use expr_aggregates::AggregateFunction;
use expr_operators::Arithmetic;
use expr_scalar::Kind;

/// Whether it is a condition, and no value.
pub fn is_condition(k: BoundKind) -> bool
    ensures { result ≡ spec.is_condition k }
{
    match k {
        BoundKind::Condition => true,
        BoundKind::Value(_) => false,
    }
}

/// Whether it is a value, and no condition.
pub fn is_value(k: BoundKind) -> bool
    ensures { result ≡ spec.is_value k }
{
    match k {
        BoundKind::Condition => false,
        BoundKind::Value(_) => true,
    }
}

/// Whether it is a text.
pub fn is_text(k: BoundKind) -> bool
    ensures { result ≡ spec.is_text k }
{
    match k {
        BoundKind::Value(Kind::Text) => true,
        _ => false,
    }
}

/// Whether it is a date.
pub fn is_date(k: BoundKind) -> bool
    ensures { result ≡ spec.is_date k }
{
    match k {
        BoundKind::Value(Kind::Date) => true,
        _ => false,
    }
}

/// Whether it is a number of any scale.
pub fn is_number(k: BoundKind) -> bool
    ensures { result ≡ spec.is_number k }
{
    match k {
        BoundKind::Value(Kind::Number(_)) => true,
        _ => false,
    }
}

/// Whether values of both can be compared.
pub fn fits(a: BoundKind, b: BoundKind) -> bool
    ensures { result ≡ spec.fits a b }
{
    match (a, b) {
        (BoundKind::Value(Kind::Number(_)), BoundKind::Value(Kind::Number(_))) => true,
        (BoundKind::Value(Kind::Text), BoundKind::Value(Kind::Text)) => true,
        (BoundKind::Value(Kind::Date), BoundKind::Value(Kind::Date)) => true,
        _ => false,
    }
}

/// Whether all of them are conditions.
pub fn all_conditions(mut all: &[BoundKind]) -> bool
    ensures { result ≡ list_all spec.is_condition all.entry.now }
{
    'all: while let [k, rest @ ..] = all {
        if !is_condition(*k) {
            return false;
        }
        all = rest;
    }
    true
}

/// Whether values of each can be compared with values of the first.
pub fn all_fit(a: &BoundKind, mut all: &[BoundKind]) -> bool
    ensures { result ≡ list_all (spec.fits a.now) all.entry.now }
{
    'all: while let [k, rest @ ..] = all {
        if !fits(*a, *k) {
            return false;
        }
        all = rest;
    }
    true
}

/// A value's kind.
pub fn value_kind(k: BoundKind) -> Result<Kind, BindFault>
    ensures { Gives (spec.value_kind k) result }
{
    match k {
        BoundKind::Value(kind) => Ok(kind),
        BoundKind::Condition => Err(BindFault::Refused(BindRefusal::TypeMismatch)),
    }
}

/// The scale of numbers; 0 of what is none.
pub fn scale_of(k: Kind) -> Scale
    ensures { result ≡ spec.scale_of k }
{
    match k {
        Kind::Number(scale) => scale,
        Kind::Text | Kind::Date => Scale::new(0),
    }
}

fn product_kind(s: Scale, t: Scale) -> Result<Kind, BindFault>
    ensures { Gives (spec.product_kind s t) result }
{
    let places = s.places() + t.places();
    if places <= 18 {
        Ok(Kind::Number(Scale::new(places)))
    } else {
        Err(BindFault::Refused(BindRefusal::ScaleTooWide))
    }
}

/// What an operator gives of two numbers of these scales.
fn result_kind(operator: Arithmetic, s: Scale, t: Scale) -> Result<Kind, BindFault>
    ensures { Gives (spec.result_kind operator s t) result }
{
    match operator {
        Arithmetic::Add | Arithmetic::Subtract => Ok(Kind::Number(s.larger(t))),
        Arithmetic::Multiply => {
            let kind = product_kind(s, t)?;
            Ok(kind)
        }
        Arithmetic::Divide => Ok(Kind::Number(s.larger(Scale::new(6)))),
    }
}

fn kind_scale(k: Kind) -> Result<Scale, BindFault>
    ensures { Gives (spec.kind_scale k) result }
{
    match k {
        Kind::Number(s) => Ok(s),
        Kind::Text | Kind::Date => Err(BindFault::Refused(BindRefusal::TypeMismatch)),
    }
}

/// The scale of an operand, which has to be a number.
fn number_scale(k: BoundKind) -> Result<Scale, BindFault>
    ensures { Gives (spec.number_scale k) result }
{
    let kind = value_kind(k)?;
    let scale = kind_scale(kind)?;
    Ok(scale)
}

/// What an operator gives of two operands.
pub fn operated_kind(operator: Arithmetic, a: BoundKind, b: BoundKind) -> Result<Kind, BindFault>
    ensures { Gives (spec.operated_kind operator a b) result }
{
    let s = number_scale(a)?;
    let t = number_scale(b)?;
    let kind = result_kind(operator, s, t)?;
    Ok(kind)
}

/// The kind of two branches of a CASE.
fn merged_kind(a: Kind, b: BoundKind) -> Result<Kind, BindFault>
    ensures { Gives (spec.merged_kind a b) result }
{
    match a {
        Kind::Number(s) => {
            let t = number_scale(b)?;
            Ok(Kind::Number(s.larger(t)))
        }
        Kind::Text => {
            if is_text(b) {
                Ok(Kind::Text)
            } else {
                Err(BindFault::Refused(BindRefusal::TypeMismatch))
            }
        }
        Kind::Date => {
            if is_date(b) {
                Ok(Kind::Date)
            } else {
                Err(BindFault::Refused(BindRefusal::TypeMismatch))
            }
        }
    }
}

fn common_from(first: Kind, all: &[BoundKind]) -> Result<Kind, BindFault>
    ensures { Gives (spec.common_from first all.now) result }
{
    let mut kind = first;
    let mut left = all;
    'all: while let [k, rest @ ..] = left {
        kind = merged_kind(kind, *k)?;
        left = rest;
    }
    Ok(kind)
}

/// The kind of all branches of a CASE.
pub fn common_kind(all: &[BoundKind]) -> Result<Kind, BindFault>
    ensures { Gives (spec.common_kind all.now) result }
{
    match all {
        [] => Err(BindFault::Refused(BindRefusal::TypeMismatch)),
        [k, rest @ ..] => {
            let first = value_kind(*k)?;
            let kind = common_from(first, rest)?;
            Ok(kind)
        }
    }
}

fn sum_kind(k: Kind) -> Result<Kind, BindFault>
    ensures { Gives (spec.sum_kind k) result }
{
    match k {
        Kind::Number(s) => Ok(Kind::Number(s)),
        Kind::Text | Kind::Date => Err(BindFault::Refused(BindRefusal::TypeMismatch)),
    }
}

fn average_kind(k: Kind) -> Result<Kind, BindFault>
    ensures { Gives (spec.average_kind k) result }
{
    match k {
        Kind::Number(s) => Ok(Kind::Number(Scale::new((s.places() + 4).min(18)))),
        Kind::Text | Kind::Date => Err(BindFault::Refused(BindRefusal::TypeMismatch)),
    }
}

/// What an aggregate gives of its argument.
pub fn aggregate_kind(function: AggregateFunction, k: BoundKind) -> Result<Kind, BindFault>
    ensures { Gives (spec.aggregate_kind function k) result }
{
    let kind = value_kind(k)?;
    match function {
        AggregateFunction::Count | AggregateFunction::CountDistinct => {
            Ok(Kind::Number(Scale::new(0)))
        }
        AggregateFunction::Sum => {
            let kind = sum_kind(kind)?;
            Ok(kind)
        }
        AggregateFunction::Avg => {
            let kind = average_kind(kind)?;
            Ok(kind)
        }
        AggregateFunction::Min | AggregateFunction::Max => Ok(kind),
    }
}

/// The scale of an aggregate's argument; 0 of what is no number.
pub fn argument_scale(k: BoundKind) -> Scale
    ensures { result ≡ spec.argument_scale k }
{
    match k {
        BoundKind::Value(kind) => scale_of(kind),
        BoundKind::Condition => Scale::new(0),
    }
}
