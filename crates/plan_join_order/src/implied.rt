//! Conditions on one input that an OR over several inputs implies: the OR of the parts on that
//! input.
ghost use Rattle.std.specs.Prelude.{◌≡◌, IfOk, IfSome, OnOk};
ghost use Rattle.expr_scalar.specs.declared.expr.Expr.TheVariants.{Any};
ghost use Rattle.expr_conditions.specs.Ranks.{IsBelow};
ghost use Rattle.plan_join_order.specs.Implied.{AreImplied, PutImplied, SaysSame};

use crate::group::Collected;
use expr_conditions::copy_of;
use expr_scalar::Expr;
use plan_algebra::{DepTree, copy_expr, width};
use plan_tree_moves::reads_own;
use sqlite_items::{Boxed, Items};
use std::alloc::{AllocError, Global};

// Puts a part of an AND, where it reads columns from a place on and below another only.
fn put_own(
    alloc: Global,
    e: &Expr,
    low: u32,
    high: u32,
    to: &mut Items<Expr>,
) -> Result<(), AllocError>
    ensures { OnOk result (PutImplied e.now to.old to.new) }
{
    let own = reads_own(alloc, e, 0, low, high)?;
    if own {
        let new = copy_of(alloc, e)?;
        to.push(new)?;
        Ok(())
    } else {
        Ok(())
    }
}

// The parts of an AND that read such columns only.
fn own_parts(alloc: Global, es: &[Expr], low: u32, high: u32) -> Result<Items<Expr>, AllocError>
    ensures { IfOk result (AreImplied es.now) }
{
    let mut own = Items::new(alloc);
    for e in es {
        put_own(alloc, e, low, high, &mut own)?;
    }
    Ok(own)
}

// What a part of an OR says of such columns only, if anything.
fn own_part(
    alloc: Global,
    part: &Expr,
    low: u32,
    high: u32,
) -> Result<Option<Boxed<Expr>>, AllocError>
    ensures { IfOk result (λ o. IfSome o (λ new. IsBelow new part.now)) }
{
    match part {
        Expr::All(es) => {
            let own = own_parts(alloc, es.as_slice(), low, high)?;
            if own.is_empty() {
                return Ok(None);
            }
            let new = Boxed::new(alloc, Expr::All(own))?;
            Ok(Some(new))
        }
        _ => {
            let own = reads_own(alloc, part, 0, low, high)?;
            if !own {
                return Ok(None);
            }
            let new = copy_expr(alloc, part)?;
            Ok(Some(new))
        }
    }
}

// The OR of what the parts of an OR say of such columns only, if each says something.
fn own_or(
    alloc: Global,
    parts: &[Expr],
    low: u32,
    high: u32,
) -> Result<Option<Boxed<Expr>>, AllocError>
    ensures { IfOk result (λ o. IfSome o (λ new. IsBelow new (Any parts.now))) }
{
    let mut all = Items::new(alloc);
    for part in parts {
        match own_part(alloc, part, low, high)? {
            Some(new) => all.push(new.into_inner())?,
            None => return Ok(None),
        }
    }
    let new = Boxed::new(alloc, Expr::Any(all))?;
    Ok(Some(new))
}

// Puts what an OR over more than such columns implies of them.
fn put_implied(
    alloc: Global,
    e: &Expr,
    low: u32,
    high: u32,
    to: &mut Items<Expr>,
) -> Result<(), AllocError>
    ensures { OnOk result (PutImplied e.now to.old to.new) }
{
    match e {
        Expr::Any(parts) => {
            let own = reads_own(alloc, e, 0, low, high)?;
            if own {
                return Ok(());
            }
            match own_or(alloc, parts.as_slice(), low, high)? {
                Some(new) => {
                    to.push(new.into_inner())?;
                    Ok(())
                }
                None => Ok(()),
            }
        }
        _ => Ok(()),
    }
}

// Puts what each of some conditions implies of such columns.
fn put_all_implied(
    alloc: Global,
    es: &[Expr],
    low: u32,
    high: u32,
    to: &mut Items<Expr>,
) -> Result<(), AllocError>
    ensures { OnOk result (AreImplied es.now to.old → AreImplied es.now to.new) }
{
    for e in es {
        put_implied(alloc, e, low, high, to)?;
    }
    Ok(())
}

// What conditions over inputs imply of single inputs.
fn implied_of(
    alloc: Global,
    n: u32,
    inputs: &[DepTree],
    es: &[Expr],
) -> Result<Items<Expr>, AllocError>
    ensures { IfOk result (AreImplied es.now) }
{
    let mut all = Items::new(alloc);
    let mut low = n;
    for input in inputs {
        let wide = width(input)?;
        let high = low.checked_add(wide).ok_or(AllocError)?;
        put_all_implied(alloc, es, low, high, &mut all)?;
        low = high;
    }
    Ok(all)
}

/// These conditions, and those that they imply of single inputs.
pub(crate) fn with_implied(alloc: Global, n: u32, parts: Collected) -> Result<Collected, AllocError>
    ensures inputs { IfOk result (λ new. new.inputs ≡ parts.inputs) }
    ensures conditions { IfOk result (λ new. SaysSame parts.conditions new.conditions) }
{
    let Collected {
        inputs,
        mut conditions,
    } = parts;
    let more = implied_of(alloc, n, inputs.as_slice(), conditions.as_slice())?;
    conditions.append(more)?;
    Ok(Collected { inputs, conditions })
}
