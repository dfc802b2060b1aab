//! Conditions moved below select lists and groups, to the rows that their columns come from.
ghost use Rattle.std.specs.Prelude.{◌≡◌, IfOk, IfSome, OnOk, IsTrue, Some, map, slice_get};
ghost use Rattle.expr_scalar.specs.declared.expr.Expr.TheVariants.{Column};
ghost use Rattle.plan_predicate_sinking.specs.Below.{IsPlaceBelow, IsReadBelow, IsMovable, AreLowered};
ghost use Rattle.plan_predicate_sinking.specs.Below.{PutLowered, SinkBelowGroups};

use expr_conditions::{Parted, copy_of, put_run};
use expr_scalar::{Expr, rename, used_columns};
use sqlite_items::Items;
use std::alloc::{AllocError, Global};

// The column that an expression is.
fn column_of(e: &Expr) -> Option<u32>
    ensures { IfSome result (λ place. e.now ≡ Column place) }
{
    match e {
        Expr::Column(place) => Some(*place),
        _ => None,
    }
}

// Where a column of a row that begins with a domain's n columns and a select list's stands in the
// row below; nothing where it is computed.
fn place_below(column: u32, n: u32, es: &[Expr]) -> Option<u32>
    ensures { IfSome result (IsPlaceBelow n es.now column) }
{
    if column < n {
        return Some(column);
    }
    let i = (column - n) as usize;
    if i >= es.len() {
        return None;
    }
    let place = column_of(&es[i]);
    place
}

// Where each of these columns stands, or any place where it is computed.
fn places_below(alloc: Global, n: u32, es: &[Expr]) -> Result<Vec<u32>, AllocError> {
    let mut places = Vec::new(alloc);
    put_run(&mut places, 0, n)?;
    for e in es {
        let place = match e {
            Expr::Column(place) => *place,
            _ => 0,
        };
        places.push(place)?;
    }
    Ok(places)
}

// Whether this is the column's place among the others.
fn is_its_place(column: u32, place: u32, places: &[u32]) -> bool
    ensures { IsTrue result → slice_get places.now column ≡ Some place }
{
    match places.get(column as usize) {
        Some(other) => *other == place,
        None => false,
    }
}

// Whether a column is not computed, and stands at its place.
fn is_read_below(column: u32, n: u32, es: &[Expr], places: &[u32]) -> bool
    ensures { IsTrue result → IsReadBelow n es.now places.now column }
{
    match place_below(column, n, es) {
        Some(place) => is_its_place(column, place, places),
        None => false,
    }
}

// Whether that is so of all columns that a condition reads.
fn is_movable(
    alloc: Global,
    n: u32,
    es: &[Expr],
    places: &[u32],
    c: &Expr,
) -> Result<bool, AllocError>
    ensures { IfOk result (λ movable. IsTrue movable → IsMovable n es.now places.now c.now) }
{
    let columns = used_columns(alloc, c)?;
    for column in &columns {
        if !is_read_below(*column, n, es, places) {
            return Ok(false);
        }
    }
    Ok(true)
}

// Puts a condition among those below, or among the others.
fn put_lowered(
    alloc: Global,
    n: u32,
    es: &[Expr],
    places: &[u32],
    c: &Expr,
    parts: &mut Parted,
) -> Result<(), AllocError>
    ensures { OnOk result (PutLowered n es.now c.now parts.old.covered parts.new.covered
        parts.old.rest parts.new.rest) }
{
    let movable = is_movable(alloc, n, es, places, c)?;
    if movable {
        let new = rename(alloc, c, places)?;
        parts.covered.push(new)?;
        Ok(())
    } else {
        let new = copy_of(alloc, c)?;
        parts.rest.push(new)?;
        Ok(())
    }
}

/// The conditions on a select list's row that read no computed column, over the row below it, and
/// the others.
pub(crate) fn lowered(
    alloc: Global,
    n: u32,
    es: &[Expr],
    conditions: &[Expr],
) -> Result<Parted, AllocError>
    ensures { IfOk result (λ p. AreLowered n es.now conditions.now p.covered p.rest) }
{
    let places = places_below(alloc, n, es)?;
    let covered = Items::new(alloc);
    let rest = Items::new(alloc);
    let mut parts = Parted { covered, rest };
    for c in conditions {
        put_lowered(alloc, n, es, &places, c, &mut parts)?;
    }
    Ok(parts)
}

// The keys of groups, as a select list.
fn key_list(alloc: Global, by: &[u32]) -> Result<Items<Expr>, AllocError>
    ensures { IfOk result (λ es. es ≡ map Column by.now) }
{
    let mut es = Items::new(alloc);
    for column in by {
        es.push(Expr::Column(*column))?;
    }
    Ok(es)
}

/// The conditions on groups that read keys only, over the rows, and the others. Without keys all
/// stay: there is a group also where there are no rows.
pub(crate) fn lowered_by_keys(
    alloc: Global,
    n: u32,
    by: &[u32],
    conditions: Items<Expr>,
) -> Result<Parted, AllocError>
    ensures { IfOk result (λ p. SinkBelowGroups n by.now conditions p.covered p.rest) }
{
    if by.is_empty() {
        let covered = Items::new(alloc);
        let rest = conditions;
        return Ok(Parted { covered, rest });
    }
    let keys = key_list(alloc, by)?;
    let parts = lowered(alloc, n, keys.as_slice(), conditions.as_slice())?;
    Ok(parts)
}
