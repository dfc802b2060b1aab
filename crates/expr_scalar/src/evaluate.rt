//! Evaluation over one row. Values are read where they lie: only a made text takes memory.
ghost use Rattle.std.specs.Prelude.{◌≡◌, IfOk, IfSome, option_map, slice_index_or};
ghost use Rattle.std.specs.Cow.{cow_value};
ghost use Rattle.expr_scalar.specs.Meaning.{value, truth, values, truths, least, greatest, in_list};
ghost use Rattle.expr_scalar.specs.Meaning.{chosen, operated};

use crate::expr::{Branch, Expr, Operation};
use base_value::{Row, Standing, Truth, Value};
use expr_operators::{
    Comparison, at_scale, between, compared, computed, extracted, is_false, is_true, liked,
    negative, null_test, part_of, truth_of_mark,
};
use std::alloc::{AllocError, Global};
use std::borrow::Cow;

/// The value of an expression over a row.
pub fn eval(alloc: Global, e: &Expr, row: &Row) -> Result<Value, AllocError>
    ensures { IfOk result (λ v. v ≡ value e.now row.now) }
{
    let v = eval_slice(alloc, e, row.values())?;
    Ok(v)
}

/// The truth of a condition over a row.
pub fn truth(alloc: Global, e: &Expr, row: &Row) -> Result<Truth, AllocError>
    ensures { IfOk result (λ t. t ≡ truth e.now row.now) }
{
    let t = truth_slice(alloc, e, row.values())?;
    Ok(t)
}

/// The value of an expression over a row's values.
pub fn eval_slice(alloc: Global, e: &Expr, row: &[Value]) -> Result<Value, AllocError>
    ensures { IfOk result (λ v. v ≡ value e.now row.now) }
{
    let v = operand(alloc, e, row)?;
    let v = v.into_owned()?;
    Ok(v)
}

// The value where it lies, or a made one.
#[cycle(eval)]
#[inline]
fn operand<'a>(alloc: Global, e: &'a Expr, row: &'a [Value]) -> Result<Cow<'a, Value>, AllocError>
    ensures { IfOk result (λ v. cow_value v ≡ value e.now row.now) }
{
    match at_hand(e, row) {
        Some(v) => Ok(Cow::Borrowed(v)),
        None => {
            let v = made(alloc, e, row)?;
            Ok(v)
        }
    }
}

// The value of a column or a literal, where it lies: what most nodes ask for, without a result to
// be moved.
#[inline]
#[tactic(auto, using(crate::proofs::Opened::value_Column, crate::proofs::Opened::value_Literal))]
fn at_hand<'a>(e: &'a Expr, row: &'a [Value]) -> Option<&'a Value>
    ensures { IfSome result (λ v. v.now ≡ value e.now row.now) }
{
    match e {
        Expr::Column(place) => row.get(*place as usize),
        Expr::Literal(v) => Some(v),
        _ => None,
    }
}

// The value at a place of the row; null past its end.
fn column<'a>(place: u32, row: &'a [Value]) -> Cow<'a, Value>
    ensures { cow_value result ≡ slice_index_or row.now place Value.Null }
{
    match row.get(place as usize) {
        Some(v) => Cow::Borrowed(v),
        None => Cow::Owned(Value::Null),
    }
}

// The value of any node.
#[cycle(eval)]
#[tactic(auto, using(crate::proofs::Opened::values_opened))]
fn made<'a>(alloc: Global, e: &'a Expr, row: &'a [Value]) -> Result<Cow<'a, Value>, AllocError>
    ensures { IfOk result (λ v. cow_value v ≡ value e.now row.now) }
{
    match e {
        Expr::Column(place) => Ok(column(*place, row)),
        Expr::Literal(v) => Ok(Cow::Borrowed(v)),
        Expr::Negative(e) => Ok(Cow::Owned(negative(&*operand(alloc, e.get(), row)?))),
        Expr::Arithmetic(first, operations) => {
            let x = operand(alloc, first.get(), row)?;
            operated(alloc, x, operations.as_slice(), row)
        }
        Expr::Case(scale, branches, other) => match chosen(alloc, branches.as_slice(), row)? {
            Some(v) => Ok(at_scale(*scale, v)),
            None => Ok(at_scale(*scale, operand(alloc, other.get(), row)?)),
        },
        Expr::Extract(part, e) => {
            Ok(Cow::Owned(extracted(*part, &*operand(alloc, e.get(), row)?)))
        }
        Expr::Substring(e, from, count) => {
            let x = operand(alloc, e.get(), row)?;
            Ok(Cow::Owned(part_of(&x, *from, *count)?))
        }
        Expr::Compare(_, _, _)
        | Expr::Between(_, _, _)
        | Expr::Like(_, _)
        | Expr::InList(_, _)
        | Expr::IsNull(_)
        | Expr::Not(_)
        | Expr::All(_)
        | Expr::Any(_)
        | Expr::IsMarked(_) => Ok(Cow::Owned(Value::Null)),
    }
}

// What the operations make of a value, from left to right.
#[cycle(eval)]
fn operated<'a>(
    alloc: Global,
    first: Cow<'a, Value>,
    operations: &'a [Operation],
    row: &'a [Value],
) -> Result<Cow<'a, Value>, AllocError>
    ensures { IfOk result (λ v.
        cow_value v ≡ operated (cow_value first.entry) operations.now row.now) }
{
    let mut x = first;
    for operation in operations {
        let y = operand(alloc, &operation.operand, row)?;
        x = Cow::Owned(computed(operation.operator, &x, &y));
    }
    Ok(x)
}

// What the first branch that decides gives.
#[cycle(eval)]
fn chosen<'a>(
    alloc: Global,
    branches: &'a [Branch],
    row: &'a [Value],
) -> Result<Option<Cow<'a, Value>>, AllocError>
    ensures { IfOk result (λ v. option_map cow_value v ≡ chosen branches.now row.now) }
{
    for branch in branches {
        match truth_slice(alloc, &branch.when, row)? {
            Truth::Stands(Standing::AtTrue) => {
                let v = operand(alloc, &branch.gives, row)?;
                return Ok(Some(v));
            }
            Truth::Stands(Standing::AtFault(fault)) => {
                return Ok(Some(Cow::Owned(Value::Fault(fault))));
            }
            Truth::False | Truth::Unknown => {}
        }
    }
    Ok(None)
}

/// The truth of a condition over a row's values.
#[cycle(eval)]
pub fn truth_slice(alloc: Global, e: &Expr, row: &[Value]) -> Result<Truth, AllocError>
    ensures { IfOk result (λ t. t ≡ truth e.now row.now) }
{
    match truth_at_hand(e, row) {
        Some(t) => Ok(t),
        None => tested(alloc, e, row),
    }
}

// The truth of a test of columns and literals: what most conditions are made of.
#[tactic(auto, using(crate::proofs::Opened::truths_opened))]
fn truth_at_hand(e: &Expr, row: &[Value]) -> Option<Truth>
    ensures { IfSome result (λ t. t ≡ truth e.now row.now) }
{
    match e {
        Expr::Compare(comparison, a, b) => {
            let x = at_hand(a.get(), row)?;
            let y = at_hand(b.get(), row)?;
            Some(compared(*comparison, x, y))
        }
        Expr::Between(e, low, high) => {
            let x = at_hand(e.get(), row)?;
            let low = at_hand(low.get(), row)?;
            let high = at_hand(high.get(), row)?;
            Some(between(x, low, high))
        }
        Expr::Like(e, pattern) => {
            let x = at_hand(e.get(), row)?;
            Some(liked(x, pattern))
        }
        _ => None,
    }
}

// The truth of any node. A function of its own, so that a test at hand does not pay at entry for
// these locals.
#[cycle(eval)]
#[inline(never)]
#[tactic(auto, using(crate::proofs::Opened::truths_opened))]
fn tested(alloc: Global, e: &Expr, row: &[Value]) -> Result<Truth, AllocError>
    ensures { IfOk result (λ t. t ≡ truth e.now row.now) }
{
    match e {
        Expr::Compare(comparison, a, b) => {
            let x = operand(alloc, a.get(), row)?;
            let y = operand(alloc, b.get(), row)?;
            Ok(compared(*comparison, &x, &y))
        }
        Expr::Between(e, low, high) => {
            let x = operand(alloc, e.get(), row)?;
            let low = operand(alloc, low.get(), row)?;
            let high = operand(alloc, high.get(), row)?;
            Ok(between(&x, &low, &high))
        }
        Expr::Like(e, pattern) => Ok(liked(&*operand(alloc, e.get(), row)?, pattern)),
        Expr::InList(e, es) => {
            let x = operand(alloc, e.get(), row)?;
            equal_to_any(alloc, &x, es.as_slice(), row)
        }
        Expr::IsNull(e) => Ok(null_test(&*operand(alloc, e.get(), row)?)),
        Expr::Not(e) => Ok(truth_slice(alloc, e.get(), row)?.negated()),
        Expr::All(es) => least(alloc, es.as_slice(), row),
        Expr::Any(es) => greatest(alloc, es.as_slice(), row),
        Expr::IsMarked(e) => Ok(truth_of_mark(&*operand(alloc, e.get(), row)?)),
        Expr::Column(_)
        | Expr::Literal(_)
        | Expr::Negative(_)
        | Expr::Arithmetic(_, _)
        | Expr::Case(_, _, _)
        | Expr::Extract(_, _)
        | Expr::Substring(_, _, _) => Ok(Truth::Unknown),
    }
}

// AND. Nothing is less than False.
#[cycle(eval)]
fn least(alloc: Global, es: &[Expr], row: &[Value]) -> Result<Truth, AllocError>
    ensures { IfOk result (λ t. t ≡ least (truths es.now row.now)) }
{
    let mut least = Truth::Stands(Standing::AtTrue);
    for e in es {
        least = least.and(truth_slice(alloc, e, row)?);
        if is_false(least) {
            return Ok(least);
        }
    }
    Ok(least)
}

// OR. Nothing is greater than True.
#[cycle(eval)]
fn greatest(alloc: Global, es: &[Expr], row: &[Value]) -> Result<Truth, AllocError>
    ensures { IfOk result (λ t. t ≡ greatest (truths es.now row.now)) }
{
    let mut greatest = Truth::False;
    for e in es {
        greatest = greatest.or(truth_slice(alloc, e, row)?);
        if is_true(greatest) {
            return Ok(greatest);
        }
    }
    Ok(greatest)
}

// The OR of the equalities of a value with those of a list.
#[cycle(eval)]
fn equal_to_any(alloc: Global, x: &Value, es: &[Expr], row: &[Value]) -> Result<Truth, AllocError>
    ensures { IfOk result (λ t. t ≡ in_list x.now (values es.now row.now)) }
{
    let mut greatest = Truth::False;
    for e in es {
        let y = operand(alloc, e, row)?;
        greatest = greatest.or(compared(Comparison::Equal, x, &y));
        if is_true(greatest) {
            return Ok(greatest);
        }
    }
    Ok(greatest)
}
