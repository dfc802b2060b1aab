//! Inputs of a join group without the columns that nobody reads.
ghost use Rattle.std.specs.Prelude.{IfOk, IfSome};
ghost use Rattle.plan_join_order.specs.Narrow.{AreNarrowed, AreAsked, Narrows};

use crate::group::Collected;
use expr_conditions::renamed_all;
use expr_scalar::{Expr, rename};
use plan_algebra::{DepTree, width};
use plan_tree_moves::{
    after_domain, are_found, narrowed_input, own_columns, places_in, put_after, put_read,
};
use sqlite_items::Items;
use std::alloc::{AllocError, Global};

// Inputs, and which columns of the former ones theirs are.
#[derive(Drop)]
struct Remaining {
    inputs: Items<DepTree>,
    kept: Vec<u32>,
}

// The inputs without the columns that are not read.
fn narrowed_inputs(
    alloc: Global,
    n: u32,
    inputs: &[DepTree],
    read: &[u32],
) -> Result<Remaining, AllocError>
    ensures { IfOk result (λ new. AreNarrowed n inputs.now new.inputs new.kept.items) }
{
    let none = Items::new(alloc);
    let kept = Vec::new(alloc);
    let mut new = Remaining { inputs: none, kept };
    let mut at: u32 = 0;
    for input in inputs {
        let from = n.checked_add(at).ok_or(AllocError)?;
        let count = width(input)?;
        let own = own_columns(alloc, read, from, count)?;
        let tree = narrowed_input(alloc, n, input, &own)?;
        new.inputs.push(tree.into_inner())?;
        put_after(&own, at, &mut new.kept)?;
        at = at.checked_add(count).ok_or(AllocError)?;
    }
    Ok(new)
}

// Conditions over the columns `places`.
fn asked_all(alloc: Global, es: &[Expr], places: &[u32]) -> Result<Items<Expr>, AllocError>
    ensures { IfOk result (AreAsked places.now es.now) }
{
    let mut all = Items::new(alloc);
    for e in es {
        let new = rename(alloc, e, places)?;
        all.push(new)?;
    }
    Ok(all)
}

/// Inputs, conditions over all of them, and a select list over the same.
#[derive(Drop)]
pub(crate) struct Asked {
    pub(crate) parts: Collected,
    pub(crate) output: Items<Expr>,
}

// Inputs without the columns that neither the conditions nor the select list read, unless a column
// is not there.
fn tried(
    alloc: Global,
    n: u32,
    parts: &Collected,
    output: &[Expr],
) -> Result<Option<Asked>, AllocError>
    ensures { IfOk result (λ o.
        IfSome o (λ new. Narrows n parts.now.inputs parts.now.conditions output.now new.parts.inputs
        new.parts.conditions new.output)) }
{
    let conditions = parts.conditions.as_slice();
    let mut read = Vec::new(alloc);
    put_read(alloc, conditions, &mut read)?;
    put_read(alloc, output, &mut read)?;
    let new = narrowed_inputs(alloc, n, parts.inputs.as_slice(), &read)?;
    let whole = after_domain(alloc, n, &new.kept)?;
    let places = places_in(alloc, &whole)?;
    if !are_found(alloc, conditions, &places, &whole)? {
        return Ok(None);
    }
    if !are_found(alloc, output, &places, &whole)? {
        return Ok(None);
    }
    let conditions = asked_all(alloc, conditions, &places)?;
    let output = renamed_all(alloc, output, &places)?;
    let inputs = new.inputs;
    let parts = Collected { inputs, conditions };
    Ok(Some(Asked { parts, output }))
}

// Whether inputs keep all their columns: under a domain they do, but for one table alone.
fn stay(n: u32, parts: &Collected) -> bool {
    let inputs = parts.inputs.as_slice();
    n > 0 && !(inputs.len() == 1 && matches!(&inputs[0], DepTree::Scan(_)))
}

/// Inputs without the columns that neither the conditions nor the select list read; their rows are
/// kept. Under a domain only one table alone is narrowed, so that no other is read together with
/// the domain.
pub(crate) fn narrowed(
    alloc: Global,
    n: u32,
    parts: Collected,
    output: Items<Expr>,
) -> Result<Asked, AllocError>
    ensures { IfOk result (λ new.
        Narrows n parts.inputs parts.conditions output new.parts.inputs new.parts.conditions
        new.output) }
{
    if stay(n, &parts) {
        return Ok(Asked { parts, output });
    }
    match tried(alloc, n, &parts, output.as_slice())? {
        Some(new) => Ok(new),
        None => Ok(Asked { parts, output }),
    }
}
