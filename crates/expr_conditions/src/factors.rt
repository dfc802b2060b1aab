//! Conditions that each part of an OR has.
ghost use Rattle.std.specs.Prelude.{◌≡◌, IfOk, IsTrue, OnOk};
ghost use Rattle.expr_conditions.specs.Ranks.{IsBelow, IsBelowAll, IsBelowAny, PutImplied};

use crate::same::is_same;
use expr_scalar::{Expr, rename};
use sqlite_items::Items;
use std::alloc::{AllocError, Global};

// Whether the condition is one of a list.
fn stands_in(e: &Expr, es: &[Expr]) -> bool
    ensures { IsTrue result → IsBelowAll e.now es.now }
{
    for f in es {
        if is_same(f, e) {
            return true;
        }
    }
    false
}

// Whether the condition is one of those that a part of an OR is made of.
fn is_factor(e: &Expr, part: &Expr) -> bool
    ensures { IsTrue result → IsBelow e.now part.now }
{
    match part {
        Expr::All(es) => stands_in(e, es.as_slice()),
        _ => is_same(part, e),
    }
}

// Whether each part of an OR has the condition.
fn is_common(e: &Expr, parts: &[Expr]) -> bool
    ensures { IsTrue result → IsBelowAny e.now parts.now }
{
    for part in parts {
        if !is_factor(e, part) {
            return false;
        }
    }
    true
}

// Puts those of the conditions that each part has after the others.
fn put_common(
    alloc: Global,
    es: &[Expr],
    parts: &[Expr],
    places: &[u32],
    to: &mut Items<Expr>,
) -> Result<(), AllocError>
    ensures { OnOk result (PutImplied places.now parts.now to.old to.new) }
{
    for e in es {
        put_if_common(alloc, e, parts, places, to)?;
    }
    Ok(())
}

fn put_if_common(
    alloc: Global,
    e: &Expr,
    parts: &[Expr],
    places: &[u32],
    to: &mut Items<Expr>,
) -> Result<(), AllocError>
    ensures { OnOk result (PutImplied places.now parts.now to.old to.new) }
{
    if is_common(e, parts) {
        let new = rename(alloc, e, places)?;
        to.push(new)?;
        Ok(())
    } else {
        Ok(())
    }
}

/// Puts the conditions that all parts of an OR have after the others, over the columns `places`:
/// beside the OR they ask nothing more.
pub fn put_factors(
    alloc: Global,
    parts: &[Expr],
    places: &[u32],
    to: &mut Items<Expr>,
) -> Result<(), AllocError>
    ensures { OnOk result (PutImplied places.now parts.now to.old to.new) }
{
    match parts.first() {
        Some(Expr::All(es)) => {
            put_common(alloc, es.as_slice(), parts, places, to)?;
            Ok(())
        }
        _ => Ok(()),
    }
}
