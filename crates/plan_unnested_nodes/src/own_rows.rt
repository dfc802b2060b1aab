//! Rows whose own columns stand for a domain's, as nodes of a plan.
ghost use Rattle.std.specs.Prelude.{◌≡◌, ◌<◌, length, IfOk, OnOk, IsTrue, slice_index_or, None};
ghost use Rattle.plan_unnested_nodes.specs.OwnRows.{
  IsAt,
  EqualsItself,
  IsAlwaysTrue,
  IsPutAsked,
  AreAsked,
  AreAskedOfAll,
};
ghost use Rattle.plan_unnested_nodes.specs.Lowerings.{IsKept, IsOwn, IsOwnSelection};

use crate::lists::{column_list, own_and_all};
use crate::origins::{Known, known_at};
use crate::own_columns::is_equal;
use base_schema::TableName;
use expr_conditions::copy_of;
use expr_scalar::Expr;
use plan_algebra::{Builder, Node, NodeId};
use sqlite_items::{Boxed, Items};
use std::alloc::{AllocError, Global};

/// The rows of a table, these of its columns before all of them, that a condition keeps.
#[tactic(auto, using(plan_algebra::proofs::Fits::scan_fits))]
pub(crate) fn put_own_selection(
    alloc: Global,
    builder: &mut Builder,
    table: TableName,
    condition: &Expr,
    kinds: &[Option<Known>],
    own: &[u32],
) -> Result<NodeId, AllocError>
    ensures { IfOk result
        (IsOwnSelection builder.old.nodes builder.new.nodes table kinds.now condition.now own.now) }
{
    let width = u32::try_from(table.kinds().len()).map_err(|_| AllocError)?;
    let rows = builder.put(Node::Scan(table))?;
    let id = put_own(alloc, builder, rows, width, condition, kinds, own)?;
    Ok(id)
}

/// The rows of a node of this width and these kinds, these of its columns before all of them, that
/// a condition keeps: it reads them in the place of a domain's. The columns are only shared before
/// the condition is asked, and what no row can fail is not asked.
pub(crate) fn put_own(
    alloc: Global,
    builder: &mut Builder,
    rows: NodeId,
    width: u32,
    condition: &Expr,
    kinds: &[Option<Known>],
    own: &[u32],
) -> Result<NodeId, AllocError>
    requires { rows < length builder.old.nodes }
    ensures { IfOk result
        (IsOwn builder.old.nodes builder.new.nodes rows width kinds.now condition.now own.now) }
{
    let columns = own_and_all(alloc, own, width)?;
    let listed = column_list(alloc, columns.as_slice())?;
    let conditions = asked(alloc, kinds, own, condition)?;
    let rows = builder.put(Node::Project(rows, listed))?;
    let id = put_conditions(alloc, builder, rows, conditions)?;
    Ok(id)
}

// The rows of a node that conditions keep: without conditions the node itself.
#[tactic(auto, using(plan_algebra::proofs::Fits::select_fits))]
fn put_conditions(
    alloc: Global,
    builder: &mut Builder,
    rows: NodeId,
    conditions: Items<Expr>,
) -> Result<NodeId, AllocError>
    requires { rows < length builder.old.nodes }
    ensures { IfOk result (IsKept builder.old.nodes builder.new.nodes rows conditions) }
{
    if conditions.is_empty() {
        return Ok(rows);
    }
    let condition = Boxed::new(alloc, Expr::All(conditions))?;
    let id = builder.put(Node::Select(rows, condition))?;
    Ok(id)
}

// The conjuncts of a condition that a row can fail. It is asked of rows of these kinds, before
// which these of their columns stand.
fn asked(
    alloc: Global,
    kinds: &[Option<Known>],
    own: &[u32],
    condition: &Expr,
) -> Result<Items<Expr>, AllocError>
    ensures { IfOk result (AreAsked kinds.now own.now condition.now) }
{
    match condition {
        Expr::All(es) => {
            let asked = asked_of_all(alloc, kinds, own, es.as_slice())?;
            Ok(asked)
        }
        _ => {
            let mut asked = Items::new(alloc);
            put_asked(alloc, kinds, own, condition, &mut asked)?;
            Ok(asked)
        }
    }
}

// Those of these conditions that a row can fail.
fn asked_of_all(
    alloc: Global,
    kinds: &[Option<Known>],
    own: &[u32],
    es: &[Expr],
) -> Result<Items<Expr>, AllocError>
    ensures { IfOk result (AreAskedOfAll kinds.now own.now es.now) }
{
    let mut asked = Items::new(alloc);
    for e in es {
        put_asked(alloc, kinds, own, e, &mut asked)?;
    }
    Ok(asked)
}

// Puts a condition after the others, unless no row can fail it.
fn put_asked(
    alloc: Global,
    kinds: &[Option<Known>],
    own: &[u32],
    e: &Expr,
    to: &mut Items<Expr>,
) -> Result<(), AllocError>
    ensures { OnOk result (IsPutAsked kinds.now own.now e.now to.old to.new) }
{
    if is_always_true(kinds, own, e) {
        return Ok(());
    }
    let e = copy_of(alloc, e)?;
    to.push(e)?;
    Ok(())
}

// Whether a condition asks that a column which is never null is equal to itself.
fn is_always_true(kinds: &[Option<Known>], own: &[u32], e: &Expr) -> bool
    ensures { IsTrue result → IsAlwaysTrue kinds.now own.now e.now }
{
    let Expr::Compare(comparison, a, b) = e else {
        return false;
    };
    if !is_equal(*comparison) {
        return false;
    }
    let Expr::Column(a) = a.get() else {
        return false;
    };
    let Expr::Column(b) = b.get() else {
        return false;
    };
    let first = column_at(own, *a);
    let second = column_at(own, *b);
    first == second && is_never_null(kinds, first)
}

// The column of rows that is at a place, where these of their columns stand before them.
fn column_at(own: &[u32], place: u32) -> u32
    ensures { IsAt own.now place result }
{
    let at = place as usize;
    if at < own.len() {
        return own[at];
    }
    (at - own.len()) as u32
}

// Whether a column is known to be never null.
fn is_never_null(kinds: &[Option<Known>], column: u32) -> bool
    ensures { IsTrue result → EqualsItself (slice_index_or kinds.now column None) }
{
    match known_at(kinds, column) {
        Some(known) => !known.may_be_null,
        None => false,
    }
}
