//! A tree without columns that nobody reads, and expressions over the columns that are left.
ghost use Rattle.std.specs.Prelude.{◌≡◌, ℕ, ◌++◌, ◌+◌, ◌<◌, [], IfOk, OnOk, IsTrue, map};
ghost use Rattle.std.specs.List.{All as Every};
ghost use Rattle.expr_scalar.specs.declared.expr.Expr.TheVariants.{Column};
ghost use Rattle.expr_conditions.specs.Ranks.{columns_from};
ghost use Rattle.plan_predicate_sinking.specs.Narrow.{IsNarrowed, IsFound, IsFoundAt, whole_columns};

use expr_conditions::put_run;
use expr_scalar::{Expr, used_columns};
use plan_algebra::{DepTree, width};
use plan_predicate_sinking::copy_tree;
use sqlite_items::{Boxed, Items};
use std::alloc::{AllocError, Global};

/// Puts the columns that expressions read.
pub fn put_read(alloc: Global, es: &[Expr], to: &mut Vec<u32>) -> Result<(), AllocError> {
    for e in es {
        let mut columns = used_columns(alloc, e)?;
        to.append(&mut columns)?;
    }
    Ok(())
}

// Puts a column of an input, where it is read.
fn put_if_read(
    read: &[u32],
    from: u32,
    i: u32,
    count: u32,
    to: &mut Vec<u32>,
) -> Result<(), AllocError>
    requires { i < count }
    ensures { OnOk result (Every (λ c. c < count) to.old.items
        → Every (λ c. c < count) to.new.items) }
{
    if read.contains(&from.saturating_add(i)) {
        to.push(i)?;
        Ok(())
    } else {
        Ok(())
    }
}

/// Which of the columns of a tree are read, where its columns begin at a place.
pub fn own_columns(
    alloc: Global,
    read: &[u32],
    from: u32,
    count: u32,
) -> Result<Vec<u32>, AllocError>
    ensures { IfOk result (λ v. Every (λ c. c < count) v.items) }
{
    let mut own = Vec::new(alloc);
    for i in 0..count {
        put_if_read(read, from, i, count, &mut own)?;
    }
    Ok(own)
}

// Whether these are all columns in their order.
fn are_all(own: &[u32], count: u32) -> bool
    ensures { IsTrue result → own.now ≡ columns_from 0 count }
{
    if own.len() != count as usize {
        return false;
    }
    for (i, column) in own.iter().enumerate() {
        if *column as usize != i {
            return false;
        }
    }
    true
}

/// The select list of some columns after a domain's n.
pub fn select_list(alloc: Global, n: u32, own: &[u32]) -> Result<Items<Expr>, AllocError>
    ensures { IfOk result (λ es. es ≡ map (λ c. Column (n + c)) own.now) }
{
    let mut es = Items::new(alloc);
    for column in own {
        let place = n.checked_add(*column).ok_or(AllocError)?;
        es.push(Expr::Column(place))?;
    }
    Ok(es)
}

// No column of a tree: its rows alone. A select list at its top is left out.
fn no_columns(alloc: Global, input: &DepTree) -> Result<Boxed<DepTree>, AllocError>
    ensures { IfOk result (λ new. (n : ℕ) → IsNarrowed n input.now [] new) }
{
    let copy = match input {
        DepTree::Project(t, _) => copy_tree(alloc, t.get())?,
        _ => copy_tree(alloc, input)?,
    };
    let none = Items::new(alloc);
    let new = Boxed::new(alloc, DepTree::Project(copy, none))?;
    Ok(new)
}

/// These columns of a tree over a domain row of n columns.
pub fn narrowed_input(
    alloc: Global,
    n: u32,
    input: &DepTree,
    own: &[u32],
) -> Result<Boxed<DepTree>, AllocError>
    ensures { IfOk result (IsNarrowed n input.now own.now) }
{
    if own.is_empty() {
        let new = no_columns(alloc, input)?;
        return Ok(new);
    }
    let new = copy_tree(alloc, input)?;
    let count = width(input)?;
    if are_all(own, count) {
        return Ok(new);
    }
    let es = select_list(alloc, n, own)?;
    let new = Boxed::new(alloc, DepTree::Project(new, es))?;
    Ok(new)
}

/// Puts columns, counted from a place on.
pub fn put_after(own: &[u32], at: u32, to: &mut Vec<u32>) -> Result<(), AllocError>
    ensures { OnOk result (to.new.items ≡ to.old.items ++ map (λ c. at + c) own.now) }
{
    for column in own {
        let place = at.checked_add(*column).ok_or(AllocError)?;
        to.push(place)?;
    }
    Ok(())
}

/// The columns that are left, after a domain's n.
pub fn after_domain(alloc: Global, n: u32, kept: &[u32]) -> Result<Vec<u32>, AllocError>
    ensures { IfOk result (λ v. v.items ≡ whole_columns n kept.now) }
{
    let mut all = Vec::new(alloc);
    put_run(&mut all, 0, n)?;
    put_after(kept, n, &mut all)?;
    Ok(all)
}

/// Where each column is among those that are left. A dropped column gets an arbitrary place.
pub fn places_in(alloc: Global, whole: &[u32]) -> Result<Vec<u32>, AllocError> {
    let mut places = Vec::new(alloc);
    let mut end: u32 = 0;
    for column in whole {
        end = end.max(column.saturating_add(1));
    }
    for column in 0..end {
        let mut place: u32 = 0;
        let mut at: u32 = 0;
        for other in whole {
            if *other == column {
                place = at;
            }
            at = at.saturating_add(1);
        }
        places.push(place)?;
    }
    Ok(places)
}

// Whether a column is found at its place.
fn is_found_at(column: u32, places: &[u32], whole: &[u32]) -> bool
    ensures { IsTrue result → IsFoundAt places.now whole.now column }
{
    match places.get(column as usize) {
        Some(place) => match whole.get(*place as usize) {
            Some(other) => *other == column,
            None => false,
        },
        None => false,
    }
}

// Whether all columns that an expression reads are found at their places.
pub(crate) fn is_found(
    alloc: Global,
    e: &Expr,
    places: &[u32],
    whole: &[u32],
) -> Result<bool, AllocError>
    ensures { IfOk result (λ found. IsTrue found → IsFound places.now whole.now e.now) }
{
    let columns = used_columns(alloc, e)?;
    for column in &columns {
        if !is_found_at(*column, places, whole) {
            return Ok(false);
        }
    }
    Ok(true)
}

/// Whether all columns that expressions read are found at their places.
pub fn are_found(
    alloc: Global,
    es: &[Expr],
    places: &[u32],
    whole: &[u32],
) -> Result<bool, AllocError>
    ensures { IfOk result (λ found. IsTrue found → Every (IsFound places.now whole.now) es.now) }
{
    for e in es {
        let found = is_found(alloc, e, places, whole)?;
        if !found {
            return Ok(false);
        }
    }
    Ok(true)
}
