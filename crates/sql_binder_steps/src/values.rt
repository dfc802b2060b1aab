//! What is made of operands that are bound.
ghost use Rattle.std.specs.Prelude.{◌≡◌, IfOk};
ghost use Rattle.sql_binder_steps.specs.Steps.{Gives};
ghost use Rattle.sql_binder_steps.specs.Values as spec;

use crate::collected::{BoundKind, Conditions, Operands, Typed};
use crate::fault::BindFault;
use crate::kinds::{
    all_conditions, all_fit, common_kind, fits, is_condition, is_date, is_number, is_text,
    is_value, scale_of,
};
use base_date::CivilDate;
use base_refusals::BindRefusal;
use base_text::Text;
use base_value::Value;
use expr_operators::{Comparison, DatePart};
use expr_scalar::{Branch, Expr, Kind};
use sql_ast::Span;
use sqlite_items::{Boxed, Items};
use std::alloc::{AllocError, Global};

/// An expression of that kind, which is no date literal.
pub fn typed(alloc: Global, value: Expr, kind: BoundKind) -> Result<Typed, AllocError>
    ensures { IfOk result (λ t. t ≡ spec.typed value kind) }
{
    Ok(Typed {
        value: Boxed::new(alloc, value)?,
        kind,
        date: None,
    })
}

/// A date literal.
pub fn dated(alloc: Global, date: CivilDate) -> Result<Typed, AllocError>
    ensures { IfOk result (λ t. t ≡ spec.dated date) }
{
    Ok(Typed {
        value: Boxed::new(alloc, Expr::Literal(Value::Date(date)))?,
        kind: BoundKind::Value(Kind::Date),
        date: Some(date),
    })
}

/// The date literal of that text.
#[tactic(auto, unfolding(crate::specs::Values::date_literal))]
pub fn date_literal(alloc: Global, text: &Text) -> Result<Typed, BindFault>
    ensures { Gives (spec.date_literal text.now) result }
{
    match CivilDate::read(text.bytes()) {
        Ok(date) => Ok(dated(alloc, date)?),
        Err(_) => Err(BindFault::Refused(BindRefusal::BadDate)),
    }
}

/// `- a`
#[tactic(auto, unfolding(crate::specs::Values::negative))]
pub fn negative(alloc: Global, a: Typed) -> Result<Typed, BindFault>
    ensures { Gives (spec.negative a) result }
{
    if !is_number(a.kind) {
        return Err(BindFault::Refused(BindRefusal::TypeMismatch));
    }
    Ok(typed(alloc, Expr::Negative(a.value), a.kind)?)
}

/// The comparison that a word of the syntax names.
pub fn comparison_of(c: sql_ast::Comparison) -> Comparison
    ensures { result ≡ spec.comparison_of c }
{
    match c {
        sql_ast::Comparison::Equal => Comparison::Equal,
        sql_ast::Comparison::NotEqual => Comparison::NotEqual,
        sql_ast::Comparison::Less => Comparison::Less,
        sql_ast::Comparison::LessOrEqual => Comparison::LessOrEqual,
        sql_ast::Comparison::Greater => Comparison::Greater,
        sql_ast::Comparison::GreaterOrEqual => Comparison::GreaterOrEqual,
    }
}

/// `a = b` and the other comparisons.
#[tactic(auto, unfolding(crate::specs::Values::compared))]
pub fn compared(
    alloc: Global,
    c: sql_ast::Comparison,
    a: Typed,
    b: Typed,
) -> Result<Typed, BindFault>
    ensures { Gives (spec.compared c a b) result }
{
    if !fits(a.kind, b.kind) {
        return Err(BindFault::Refused(BindRefusal::TypeMismatch));
    }
    let value = Expr::Compare(comparison_of(c), a.value, b.value);
    Ok(typed(alloc, value, BoundKind::Condition)?)
}

/// `a is null`
#[tactic(auto, unfolding(crate::specs::Values::null_test))]
pub fn null_test(alloc: Global, a: Typed) -> Result<Typed, BindFault>
    ensures { Gives (spec.null_test a) result }
{
    if !is_value(a.kind) {
        return Err(BindFault::Refused(BindRefusal::TypeMismatch));
    }
    Ok(typed(alloc, Expr::IsNull(a.value), BoundKind::Condition)?)
}

/// `a between low and high`
#[tactic(auto, unfolding(crate::specs::Values::between))]
pub fn between(alloc: Global, a: Typed, low: Typed, high: Typed) -> Result<Typed, BindFault>
    ensures { Gives (spec.between a low high) result }
{
    if !fits(a.kind, low.kind) || !fits(a.kind, high.kind) {
        return Err(BindFault::Refused(BindRefusal::TypeMismatch));
    }
    let value = Expr::Between(a.value, low.value, high.value);
    Ok(typed(alloc, value, BoundKind::Condition)?)
}

/// `a like pattern`
#[tactic(auto, unfolding(crate::specs::Values::liked))]
pub fn liked(alloc: Global, a: Typed, pattern: &Text) -> Result<Typed, BindFault>
    ensures { Gives (spec.liked a pattern.now) result }
{
    if !is_text(a.kind) {
        return Err(BindFault::Refused(BindRefusal::TypeMismatch));
    }
    let pattern = pattern.clone()?;
    Ok(typed(alloc, Expr::Like(a.value, pattern), BoundKind::Condition)?)
}

/// `a in (..)`
#[tactic(auto, unfolding(crate::specs::Values::in_list))]
pub fn in_list(alloc: Global, a: Typed, list: Operands) -> Result<Typed, BindFault>
    ensures { Gives (spec.in_list a list) result }
{
    if !is_value(a.kind) || !all_fit(&a.kind, list.kinds.as_slice()) {
        return Err(BindFault::Refused(BindRefusal::TypeMismatch));
    }
    Ok(typed(
        alloc,
        Expr::InList(a.value, list.values),
        BoundKind::Condition,
    )?)
}

/// `not a`
#[tactic(auto, unfolding(crate::specs::Values::denied))]
pub fn denied(alloc: Global, a: Typed) -> Result<Typed, BindFault>
    ensures { Gives (spec.denied a) result }
{
    if !is_condition(a.kind) {
        return Err(BindFault::Refused(BindRefusal::TypeMismatch));
    }
    Ok(typed(alloc, Expr::Not(a.value), BoundKind::Condition)?)
}

fn part_of(s: Span) -> DatePart
    ensures { result ≡ spec.part_of s }
{
    match s {
        Span::Year => DatePart::Year,
        Span::Month => DatePart::Month,
        Span::Day => DatePart::Day,
    }
}

/// A part of a date.
#[tactic(auto, unfolding(crate::specs::Values::extracted))]
pub fn extracted(alloc: Global, s: Span, a: Typed) -> Result<Typed, BindFault>
    ensures { Gives (spec.extracted s a) result }
{
    if !is_date(a.kind) {
        return Err(BindFault::Refused(BindRefusal::TypeMismatch));
    }
    let value = Expr::Extract(part_of(s), a.value);
    let kind = BoundKind::Value(Kind::Number(base_decimal::Scale::new(0)));
    Ok(typed(alloc, value, kind)?)
}

/// A part of a text, whose first place is at least 1.
#[tactic(auto, unfolding(crate::specs::Values::substring))]
pub fn substring(alloc: Global, a: Typed, from: u32, count: u32) -> Result<Typed, BindFault>
    ensures { Gives (spec.substring a from count) result }
{
    if !is_text(a.kind) || from == 0 {
        return Err(BindFault::Refused(BindRefusal::TypeMismatch));
    }
    let value = Expr::Substring(a.value, from, count);
    Ok(typed(alloc, value, BoundKind::Value(Kind::Text))?)
}

/// The first operand of AND or OR, which is tested with the second one.
#[tactic(auto, unfolding(crate::specs::Values::first_condition))]
pub fn first_condition(alloc: Global, a: Typed) -> Result<Conditions, AllocError>
    ensures { IfOk result (λ c. c ≡ spec.first_condition a) }
{
    let mut values = Items::new(alloc);
    values.push(a.value.into_inner())?;
    Ok(Conditions {
        values,
        are_conditions: is_condition(a.kind),
    })
}

/// One operand more: all have to be conditions.
#[tactic(auto, unfolding(crate::specs::Values::next_condition))]
pub fn next_condition(c: Conditions, a: Typed) -> Result<Conditions, BindFault>
    ensures { Gives (spec.next_condition c a) result }
{
    let Conditions {
        mut values,
        are_conditions,
    } = c;
    if !are_conditions {
        return Err(BindFault::Refused(BindRefusal::TypeMismatch));
    }
    if !is_condition(a.kind) {
        return Err(BindFault::Refused(BindRefusal::TypeMismatch));
    }
    values.push(a.value.into_inner())?;
    Ok(Conditions {
        values,
        are_conditions: true,
    })
}

/// AND
#[tactic(auto, unfolding(crate::specs::Values::all_of))]
pub fn all_of(alloc: Global, c: Conditions) -> Result<Typed, BindFault>
    ensures { Gives (spec.all_of c) result }
{
    if !c.are_conditions {
        return Err(BindFault::Refused(BindRefusal::TypeMismatch));
    }
    Ok(typed(alloc, Expr::All(c.values), BoundKind::Condition)?)
}

/// OR
#[tactic(auto, unfolding(crate::specs::Values::any_of))]
pub fn any_of(alloc: Global, c: Conditions) -> Result<Typed, BindFault>
    ensures { Gives (spec.any_of c) result }
{
    if !c.are_conditions {
        return Err(BindFault::Refused(BindRefusal::TypeMismatch));
    }
    Ok(typed(alloc, Expr::Any(c.values), BoundKind::Condition)?)
}

/// No operands.
pub fn no_operands(alloc: Global) -> Operands
    ensures { result ≡ spec.no_operands }
{
    Operands {
        values: Items::new(alloc),
        kinds: Items::new(alloc),
    }
}

/// One operand more.
pub fn with_operand(done: Operands, a: Typed) -> Result<Operands, AllocError>
    ensures { IfOk result (λ o. o ≡ spec.with_operand done a) }
{
    let Operands {
        mut values,
        mut kinds,
    } = done;
    values.push(a.value.into_inner())?;
    kinds.push(a.kind)?;
    Ok(Operands { values, kinds })
}

/// Each condition with its branch. A CASE of a script has at most 1024 of them.
#[tactic(auto, using(crate::proofs::Small::branches_of_none))]
fn branches(
    alloc: Global,
    mut whens: Items<Expr>,
    mut gives: Items<Expr>,
) -> Result<Items<Branch>, AllocError>
    ensures { IfOk result (λ bs. bs ≡ spec.branches whens gives) }
{
    let mut all = Items::new(alloc);
    'arms: while !whens.is_empty() {
        if gives.is_empty() {
            return Ok(all);
        }
        all.push(Branch {
            when: whens.remove(0),
            gives: gives.remove(0),
        })?;
    }
    Ok(all)
}

/// A CASE of its conditions, the kinds of all its branches, the branches, and what stands after
/// ELSE.
#[tactic(auto, unfolding(crate::specs::Values::chosen))]
fn chosen(
    alloc: Global,
    whens: Operands,
    kinds: &[BoundKind],
    gives: Items<Expr>,
    other: Boxed<Expr>,
) -> Result<Typed, BindFault>
    ensures { Gives (spec.chosen whens kinds.now gives other) result }
{
    if !all_conditions(whens.kinds.as_slice()) {
        return Err(BindFault::Refused(BindRefusal::TypeMismatch));
    }
    let kind = common_kind(kinds)?;
    let branches = branches(alloc, whens.values, gives)?;
    let value = Expr::Case(scale_of(kind), branches, other);
    Ok(typed(alloc, value, BoundKind::Value(kind))?)
}

/// A CASE without ELSE.
#[tactic(auto, unfolding(crate::specs::Values::case_of))]
pub fn case_of(alloc: Global, whens: Operands, gives: Operands) -> Result<Typed, BindFault>
    ensures { Gives (spec.case_of whens gives) result }
{
    let other = Boxed::new(alloc, Expr::Literal(Value::Null))?;
    let Operands { values, kinds } = gives;
    let t = chosen(alloc, whens, kinds.as_slice(), values, other)?;
    Ok(t)
}

/// A CASE with ELSE.
#[tactic(auto, unfolding(crate::specs::Values::case_else_of))]
pub fn case_else_of(
    alloc: Global,
    whens: Operands,
    gives: Operands,
    other: Typed,
) -> Result<Typed, BindFault>
    ensures { Gives (spec.case_else_of whens gives other) result }
{
    let Operands { values, mut kinds } = gives;
    kinds.push(other.kind)?;
    let t = chosen(alloc, whens, kinds.as_slice(), values, other.value)?;
    Ok(t)
}
