//! Conditions over other columns, in parts.
ghost use Rattle.std.specs.Prelude.{◌≡◌, ◌++◌, ◌<◌, IfOk, OnOk, IsTrue, map};
ghost use Rattle.expr_conditions.specs.Ranks.{columns_from, PutInto, PutAll, IsParted, PutPart};
ghost use Rattle.expr_conditions.specs.Ranks.{AreRenamed, ReadsBelow};

use crate::factors::put_factors;
use expr_scalar::{Expr, rename, used_columns};
use sqlite_items::{Boxed, Items};
use std::alloc::{AllocError, Global};

/// Puts the columns from `from` on, `count` of them, after the others.
pub fn put_run(to: &mut Vec<u32>, from: u32, count: u32) -> Result<(), AllocError>
    ensures { OnOk result (to.new.items ≡ to.old.items ++ columns_from from count) }
{
    for i in 0..count {
        let place = from.checked_add(i).ok_or(AllocError)?;
        to.push(place)?;
    }
    Ok(())
}

/// Puts the conjuncts of a condition after the others, each over the columns `places`.
#[cycle(put)]
pub fn put_condition(
    alloc: Global,
    e: &Expr,
    places: &[u32],
    to: &mut Items<Expr>,
) -> Result<(), AllocError>
    ensures { OnOk result (PutInto places.now e.now to.old to.new) }
{
    match e {
        Expr::All(es) => {
            put_conditions(alloc, es.as_slice(), places, to)?;
            Ok(())
        }
        Expr::Any(parts) => {
            put_renamed(alloc, e, places, to)?;
            put_factors(alloc, parts.as_slice(), places, to)?;
            Ok(())
        }
        _ => {
            put_renamed(alloc, e, places, to)?;
            Ok(())
        }
    }
}

// Puts a condition over the columns `places` after the others.
fn put_renamed(
    alloc: Global,
    e: &Expr,
    places: &[u32],
    to: &mut Items<Expr>,
) -> Result<(), AllocError>
    ensures { OnOk result (PutInto places.now e.now to.old to.new) }
{
    let new = rename(alloc, e, places)?;
    to.push(new)?;
    Ok(())
}

#[cycle(put)]
fn put_conditions(
    alloc: Global,
    es: &[Expr],
    places: &[u32],
    to: &mut Items<Expr>,
) -> Result<(), AllocError>
    ensures { OnOk result (PutAll places.now es.now to.old to.new) }
{
    for e in es {
        put_condition(alloc, e, places, to)?;
    }
    Ok(())
}

/// Whether all columns that an expression uses are below a limit.
pub fn reads_below(alloc: Global, e: &Expr, limit: u32) -> Result<bool, AllocError>
    ensures { IfOk result (λ below. IsTrue below → ReadsBelow limit e.now) }
{
    let columns = used_columns(alloc, e)?;
    for column in &columns {
        if *column >= limit {
            return Ok(false);
        }
    }
    Ok(true)
}

/// The expressions over the columns `places`.
pub fn renamed_all(alloc: Global, es: &[Expr], places: &[u32]) -> Result<Items<Expr>, AllocError>
    ensures { IfOk result (AreRenamed places.now es.now) }
{
    let mut all = Items::new(alloc);
    for e in es {
        let new = rename(alloc, e, places)?;
        all.push(new)?;
    }
    Ok(all)
}

/// Conditions in two parts.
#[derive(Drop)]
pub struct Parted {
    /// Those that read columns below the limit only.
    pub covered: Items<Expr>,
    /// The others.
    pub rest: Items<Expr>,
}

// Puts an expression into its part.
fn put_part(alloc: Global, parts: &mut Parted, e: Boxed<Expr>, limit: u32) -> Result<(), AllocError>
    ensures { OnOk result (PutPart limit e parts.old.covered parts.new.covered
        parts.old.rest parts.new.rest) }
{
    let below = reads_below(alloc, e.get(), limit)?;
    if below {
        parts.covered.push(e.into_inner())?;
        Ok(())
    } else {
        parts.rest.push(e.into_inner())?;
        Ok(())
    }
}

/// The conditions over the columns `places`, in two parts.
pub fn in_parts(
    alloc: Global,
    es: &[Expr],
    places: &[u32],
    limit: u32,
) -> Result<Parted, AllocError>
    ensures { IfOk result (λ p. IsParted places.now limit es.now p.covered p.rest) }
{
    let covered = Items::new(alloc);
    let rest = Items::new(alloc);
    let mut parts = Parted { covered, rest };
    for e in es {
        let new = rename(alloc, e, places)?;
        let new = Boxed::new(alloc, new)?;
        put_part(alloc, &mut parts, new, limit)?;
    }
    Ok(parts)
}
