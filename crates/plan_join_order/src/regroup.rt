//! Groups over the columns alone that they read.
ghost use Rattle.std.specs.Prelude.{◌<◌, IfOk, IfSome, length, []};
ghost use Rattle.plan_algebra.specs.declared.tree.DepTree.{DepTree};
ghost use Rattle.plan_algebra.specs.declared.tree.DepTree.TheVariants.{Group, Project};
ghost use Rattle.plan_predicate_sinking.specs.Arranged.{SameRows};
ghost use Rattle.plan_join_order.specs.Groups.{Collects};

use crate::group::{Collected, built, closed, total_width};
use crate::narrow::narrowed;
use expr_scalar::Expr;
use plan_algebra::{Aggregate, DepTree, copy_exprs};
use plan_tree_moves::{
    after_domain, group_of, moved_aggregates, moved_keys, own_columns, places_in, put_aggregated,
    select_list,
};
use sqlite_items::{Boxed, Items};
use std::alloc::{AllocError, Global};

// The columns of a tree's rows that its groups read.
fn columns_read(
    alloc: Global,
    n: u32,
    count: u32,
    by: &[u32],
    aggregates: &[Aggregate],
) -> Result<Vec<u32>, AllocError> {
    let mut read = Vec::from_slice(alloc, by)?;
    put_aggregated(alloc, aggregates, &mut read)?;
    let own = own_columns(alloc, &read, n, count)?;
    Ok(own)
}

/// The select list over what was collected of a tree.
pub(crate) fn listed(
    alloc: Global,
    n: u32,
    keyed: bool,
    parts: Collected,
    es: &[Expr],
) -> Result<Boxed<DepTree>, AllocError>
    requires { 0 < length parts.inputs }
    ensures { IfOk result (λ new. (t : DepTree) → Collects n t [] parts.inputs [] parts.conditions
        → SameRows n (Project t es.now) new) }
{
    let output = copy_exprs(alloc, es)?;
    let new = narrowed(alloc, n, parts, output)?;
    let new = built(alloc, n, keyed, new.parts, new.output)?;
    Ok(new)
}

// A select list, and groups over its columns.
#[derive(Drop)]
struct GroupList {
    list: Items<Expr>,
    by: Items<u32>,
    aggregates: Items<Aggregate>,
}

// The groups of some columns, if these are all that the groups read.
fn regrouped(
    alloc: Global,
    n: u32,
    own: &[u32],
    by: &[u32],
    aggregates: &[Aggregate],
) -> Result<Option<GroupList>, AllocError>
    ensures { IfOk result (λ o.
        IfSome o (λ g. (t : DepTree)
        → SameRows n (Group t by.now aggregates.now)
        (Group (Project t g.list) g.by g.aggregates))) }
{
    let whole = after_domain(alloc, n, own)?;
    let places = places_in(alloc, &whole)?;
    let list = select_list(alloc, n, own)?;
    match moved_keys(alloc, by, &whole)? {
        Some(by) => match moved_aggregates(alloc, aggregates, &places, &whole)? {
            Some(aggregates) => {
                let groups = GroupList {
                    list,
                    by,
                    aggregates,
                };
                Ok(Some(groups))
            }
            None => Ok(None),
        },
        None => Ok(None),
    }
}

/// The groups of what was collected of a tree.
pub(crate) fn grouped(
    alloc: Global,
    n: u32,
    keyed: bool,
    parts: Collected,
    by: &[u32],
    aggregates: &[Aggregate],
) -> Result<Boxed<DepTree>, AllocError>
    requires { 0 < length parts.inputs }
    ensures { IfOk result (λ new. (t : DepTree) → Collects n t [] parts.inputs [] parts.conditions
        → SameRows n (Group t by.now aggregates.now) new) }
{
    let count = total_width(parts.inputs.as_slice())?;
    let own = columns_read(alloc, n, count, by, aggregates)?;
    match regrouped(alloc, n, &own, by, aggregates)? {
        Some(new) => {
            let child = listed(alloc, n, keyed, parts, new.list.as_slice())?;
            let new = group_of(alloc, child, new.by.as_slice(), new.aggregates.as_slice())?;
            Ok(new)
        }
        None => {
            let child = closed(alloc, n, keyed, parts)?;
            let new = group_of(alloc, child, by, aggregates)?;
            Ok(new)
        }
    }
}
