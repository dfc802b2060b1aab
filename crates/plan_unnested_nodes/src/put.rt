//! The node that each kind of tree adds to a plan, once its inputs are there.
ghost use Rattle.std.specs.Prelude.{◌≡◌, ◌+◌, ◌<◌, ◌≤◌, [], ◌∷◌, ◌++◌, map, length, IfOk};
ghost use Rattle.std.specs.List.{range_with_len};
ghost use Rattle.base_row_laws.specs.Matched.{side_matched};
ghost use Rattle.base_row_laws.specs.Trees.{side_width};
ghost use Rattle.expr_scalar.specs.declared.expr.Expr.TheVariants.{Column as column_of};
ghost use Rattle.expr_scalar.specs.declared.expr.Expr.TheVariants.{All as all_of};
ghost use Rattle.plan_algebra.specs.declared.node.Node.TheVariants as node;
ghost use Rattle.plan_algebra.specs.declared.tree.DepTree.TheOpen as tree;
ghost use Rattle.plan_algebra.specs.Trees.{side_of, tree_step};
ghost use Rattle.plan_algebra.specs.Plans.{plan_width};
ghost use Rattle.plan_unnested_nodes.specs.Domains.{IsInPlan};
ghost use Rattle.plan_unnested_nodes.specs.Footings.{IsFooting};
ghost use Rattle.plan_unnested_nodes.specs.Growth.{IsPut};
ghost use Rattle.plan_unnested_nodes.specs.PlanKinds.{AreOrigins};
ghost use Rattle.plan_unnested_nodes.specs.Lowerings.{
  IsScanned,
  IsKeptScanned,
  IsSelection,
  IsFilled,
  IsTotal,
  IsOwnFooting,
  Lowers,
};

use crate::domain::{DomainRows, Origin};
use crate::footing::{Footing, FootingRows};
use crate::lists::{first_columns, matched_columns, select_list, with_first_columns};
use crate::origins::{known_kinds, origins};
use crate::own_columns::own_columns;
use crate::own_rows::put_own_selection;
use base_schema::TableName;
use base_set_rows::SetOperation;
use expr_scalar::Expr;
use plan_algebra::{
    Aggregate, Builder, KeptPlan, Node, NodeId, Side, copy_aggregates, copy_expr, copy_kept_plan,
    values_of_none,
};
use sqlite_items::{Boxed, Items};
use std::alloc::{AllocError, Global};

// The rows of two nodes, all combinations.
fn put_cross(
    alloc: Global,
    builder: &mut Builder,
    left: NodeId,
    right: NodeId,
) -> Result<NodeId, AllocError>
    requires left { left < length builder.old.nodes }
    requires right { right < length builder.old.nodes }
    ensures { IfOk result
        (IsPut builder.old.nodes builder.new.nodes (node.Join left right [] (all_of []))) }
{
    let always = Boxed::new(alloc, Expr::All(Items::new(alloc)))?;
    let id = put_combinations(alloc, builder, left, right, always)?;
    Ok(id)
}

/// The rows of two nodes, the combinations that a condition keeps.
#[tactic(auto, using(plan_algebra::proofs::Fits::join_fits, crate::proofs::Columns::none_matched))]
pub(crate) fn put_combinations(
    alloc: Global,
    builder: &mut Builder,
    left: NodeId,
    right: NodeId,
    condition: Boxed<Expr>,
) -> Result<NodeId, AllocError>
    requires left { left < length builder.old.nodes }
    requires right { right < length builder.old.nodes }
    ensures { IfOk result
        (IsPut builder.old.nodes builder.new.nodes (node.Join left right [] condition)) }
{
    let matched = Items::new(alloc);
    let id = builder.put(Node::Join(left, right, matched, condition))?;
    Ok(id)
}

/// A table's rows under each row that a tree is lowered over.
#[tactic(auto, using(crate::proofs::Kept::settled_in_plan, crate::proofs::Arms::scan_put))]
pub fn put_scan(
    alloc: Global,
    builder: &mut Builder,
    table: TableName,
    footing: &mut Footing,
) -> Result<NodeId, AllocError>
    requires { IsFooting builder.old.nodes footing.old.rows }
    ensures { IfOk result
        (Lowers builder.old.nodes builder.new.nodes (tree_step (tree.Scan table))
        footing.old footing.new) }
{
    let domain = footing.settled(alloc, builder)?;
    let id = put_table(alloc, builder, table, domain)?;
    Ok(id)
}

// A table's rows under each row of a domain.
#[tactic(auto, using(plan_algebra::proofs::Fits::scan_fits))]
fn put_table(
    alloc: Global,
    builder: &mut Builder,
    table: TableName,
    domain: DomainRows,
) -> Result<NodeId, AllocError>
    requires { IsInPlan builder.old.nodes domain }
    ensures { IfOk result (IsScanned builder.old.nodes builder.new.nodes table domain) }
{
    let rows = builder.put(Node::Scan(table))?;
    match domain {
        DomainRows::One => Ok(rows),
        DomainRows::Node(id, _) => {
            let id = put_cross(alloc, builder, id, rows)?;
            Ok(id)
        }
    }
}

/// A kept view's rows under each row that a tree is lowered over.
#[tactic(auto, using(crate::proofs::Kept::settled_in_plan))]
pub fn put_kept(
    alloc: Global,
    builder: &mut Builder,
    number: u32,
    plan: &Boxed<KeptPlan>,
    footing: &mut Footing,
) -> Result<NodeId, AllocError>
    requires { IsFooting builder.old.nodes footing.old.rows }
    ensures { IfOk result
        (Lowers builder.old.nodes builder.new.nodes (tree_step (tree.Kept number plan.now))
        footing.old footing.new) }
{
    let domain = footing.settled(alloc, builder)?;
    let id = put_view(alloc, builder, number, plan, domain)?;
    Ok(id)
}

// A kept view's rows under each row of a domain.
fn put_view(
    alloc: Global,
    builder: &mut Builder,
    number: u32,
    plan: &Boxed<KeptPlan>,
    domain: DomainRows,
) -> Result<NodeId, AllocError>
    requires { IsInPlan builder.old.nodes domain }
    ensures { IfOk result
        (IsKeptScanned builder.old.nodes builder.new.nodes number plan.now domain) }
{
    let rows = put_kept_rows(alloc, builder, number, plan)?;
    match domain {
        DomainRows::One => Ok(rows),
        DomainRows::Node(id, _) => {
            let id = put_cross(alloc, builder, id, rows)?;
            Ok(id)
        }
    }
}

/// A kept view's rows.
#[tactic(auto, using(plan_algebra::proofs::Fits::kept_fits))]
pub(crate) fn put_kept_rows(
    alloc: Global,
    builder: &mut Builder,
    number: u32,
    plan: &Boxed<KeptPlan>,
) -> Result<NodeId, AllocError>
    ensures { IfOk result
        (IsPut builder.old.nodes builder.new.nodes (node.Kept number plan.now)) }
{
    let plan = copy_kept_plan(alloc, plan.get())?;
    let id = builder.put(Node::Kept(number, plan))?;
    Ok(id)
}

/// A table's rows that a condition keeps, under each row that a tree is lowered over. Where columns
/// of the table's own stand for all of the domain's, its rows need no domain.
#[tactic(auto, using(crate::proofs::Kept::settled_in_plan, crate::proofs::Arms::selection_put))]
pub fn put_selection(
    alloc: Global,
    builder: &mut Builder,
    table: TableName,
    condition: &Expr,
    footing: &mut Footing,
) -> Result<NodeId, AllocError>
    requires { IsFooting builder.old.nodes footing.old.rows }
    ensures { IfOk result
        (Lowers builder.old.nodes builder.new.nodes
        (tree_step (tree.Select (tree_step (tree.Scan table)) condition.now))
        footing.old footing.new) }
{
    let width = footing.width()?;
    if width > 0 {
        let notes = footing.unchanged.as_slice();
        let kinds = known_kinds(alloc, table)?;
        let known = kinds.as_slice();
        if let Some(own) = own_columns(alloc, condition, known, width, notes)? {
            let id = put_own_selection(alloc, builder, table, condition, known, own.as_slice())?;
            return Ok(id);
        }
    }
    let domain = footing.settled(alloc, builder)?;
    let id = put_table_selection(alloc, builder, table, condition, domain)?;
    Ok(id)
}

// A table's rows that a condition keeps, under each row of a domain. The table is joined with the
// domain under the condition, so that a combination which it drops is never a row.
#[tactic(auto, using(plan_algebra::proofs::Fits::scan_fits))]
fn put_table_selection(
    alloc: Global,
    builder: &mut Builder,
    table: TableName,
    condition: &Expr,
    domain: DomainRows,
) -> Result<NodeId, AllocError>
    requires { IsInPlan builder.old.nodes domain }
    ensures { IfOk result
        (IsSelection builder.old.nodes builder.new.nodes table condition.now domain) }
{
    let rows = builder.put(Node::Scan(table))?;
    match domain {
        DomainRows::One => {
            let id = put_select(alloc, builder, rows, condition)?;
            Ok(id)
        }
        DomainRows::Node(id, _) => {
            let condition = copy_expr(alloc, condition)?;
            let id = put_combinations(alloc, builder, id, rows, condition)?;
            Ok(id)
        }
    }
}

/// The rows of a node that a condition keeps.
#[tactic(auto, using(plan_algebra::proofs::Fits::select_fits))]
pub fn put_select(
    alloc: Global,
    builder: &mut Builder,
    rows: NodeId,
    condition: &Expr,
) -> Result<NodeId, AllocError>
    requires { rows < length builder.old.nodes }
    ensures { IfOk result
        (IsPut builder.old.nodes builder.new.nodes (node.Select rows condition.now)) }
{
    let condition = copy_expr(alloc, condition)?;
    let id = builder.put(Node::Select(rows, condition))?;
    Ok(id)
}

/// A select list after a domain's columns.
#[tactic(auto, using(plan_algebra::proofs::Fits::project_fits))]
pub fn put_project(
    alloc: Global,
    builder: &mut Builder,
    rows: NodeId,
    width: u32,
    es: &[Expr],
) -> Result<NodeId, AllocError>
    requires { rows < length builder.old.nodes }
    ensures { IfOk result
        (IsPut builder.old.nodes builder.new.nodes
        (node.Project rows (map column_of (range_with_len 0 width) ++ es.now))) }
{
    let es = select_list(alloc, width, es)?;
    let id = builder.put(Node::Project(rows, es))?;
    Ok(id)
}

/// The rows of a node, identical ones once.
#[tactic(auto, using(plan_algebra::proofs::Fits::distinct_fits))]
pub fn put_distinct(builder: &mut Builder, rows: NodeId) -> Result<NodeId, AllocError>
    requires { rows < length builder.old.nodes }
    ensures { IfOk result (IsPut builder.old.nodes builder.new.nodes (node.Distinct rows)) }
{
    let id = builder.put(Node::Distinct(rows))?;
    Ok(id)
}

/// A set operation of two nodes.
#[tactic(auto, using(plan_algebra::proofs::Fits::set_fits))]
pub fn put_set(
    builder: &mut Builder,
    outer: NodeId,
    rows: NodeId,
    operation: SetOperation,
) -> Result<NodeId, AllocError>
    requires outer { outer < length builder.old.nodes }
    requires rows { rows < length builder.old.nodes }
    requires width { plan_width builder.old.nodes outer ≡ plan_width builder.old.nodes rows }
    ensures { IfOk result
        (IsPut builder.old.nodes builder.new.nodes (node.Set outer rows operation)) }
{
    let id = builder.put(Node::Set(outer, rows, operation))?;
    Ok(id)
}

/// The inner join of two sides.
#[tactic(auto, using(plan_algebra::proofs::Fits::join_fits, crate::proofs::Columns::side_first))]
pub fn put_join(
    alloc: Global,
    builder: &mut Builder,
    outer: NodeId,
    rows: NodeId,
    side: &Side,
    width: u32,
    on: &Expr,
) -> Result<NodeId, AllocError>
    requires outer { outer < length builder.old.nodes }
    requires rows { rows < length builder.old.nodes }
    requires width { side_width (side_of side.now) width ≤ plan_width builder.old.nodes rows }
    ensures { IfOk result
        (IsPut builder.old.nodes builder.new.nodes
        (node.Join outer rows (side_matched (side_of side.now) width) on.now)) }
{
    let matched = matched_columns(alloc, side, width)?;
    let on = copy_expr(alloc, on)?;
    let id = builder.put(Node::Join(outer, rows, matched, on))?;
    Ok(id)
}

/// The left outer join of two sides, the right one of this number of columns of its own.
pub fn put_outer(
    alloc: Global,
    builder: &mut Builder,
    outer: NodeId,
    rows: NodeId,
    side: &Side,
    width: u32,
    nulls: u32,
    on: &Expr,
) -> Result<NodeId, AllocError>
    requires outer { outer < length builder.old.nodes }
    requires rows { rows < length builder.old.nodes }
    requires width { plan_width builder.old.nodes rows
        ≡ side_width (side_of side.now) width + nulls }
    ensures { IfOk result
        (IsPut builder.old.nodes builder.new.nodes
        (node.Outer outer rows (side_matched (side_of side.now) width) nulls on.now)) }
{
    let matched = matched_columns(alloc, side, width)?;
    let on = copy_expr(alloc, on)?;
    let id = builder.put(Node::Outer(outer, rows, matched, nulls, on))?;
    Ok(id)
}

/// The marks of a left side's rows.
#[tactic(auto, using(plan_algebra::proofs::Fits::mark_fits, crate::proofs::Columns::side_first))]
pub fn put_mark(
    alloc: Global,
    builder: &mut Builder,
    outer: NodeId,
    rows: NodeId,
    side: &Side,
    width: u32,
    condition: &Expr,
) -> Result<NodeId, AllocError>
    requires outer { outer < length builder.old.nodes }
    requires rows { rows < length builder.old.nodes }
    requires width { side_width (side_of side.now) width ≤ plan_width builder.old.nodes rows }
    ensures { IfOk result
        (IsPut builder.old.nodes builder.new.nodes
        (node.Mark outer rows (side_matched (side_of side.now) width) condition.now)) }
{
    let matched = matched_columns(alloc, side, width)?;
    let condition = copy_expr(alloc, condition)?;
    let id = builder.put(Node::Mark(outer, rows, matched, condition))?;
    Ok(id)
}

/// The scalar values of a left side's rows.
#[tactic(auto, using(plan_algebra::proofs::Fits::single_fits, crate::proofs::Columns::side_first))]
pub fn put_single(
    alloc: Global,
    builder: &mut Builder,
    outer: NodeId,
    rows: NodeId,
    side: &Side,
    width: u32,
    column: u32,
) -> Result<NodeId, AllocError>
    requires outer { outer < length builder.old.nodes }
    requires rows { rows < length builder.old.nodes }
    requires width { side_width (side_of side.now) width ≤ plan_width builder.old.nodes rows }
    ensures { IfOk result
        (IsPut builder.old.nodes builder.new.nodes
        (node.Single outer rows (side_matched (side_of side.now) width) column)) }
{
    let matched = matched_columns(alloc, side, width)?;
    let id = builder.put(Node::Single(outer, rows, matched, column))?;
    Ok(id)
}

// The groups of a node's rows by a domain's columns alone, and the domain rows without a group.
fn put_fill(
    alloc: Global,
    builder: &mut Builder,
    rows: NodeId,
    aggregates: &[Aggregate],
    domain: NodeId,
    width: u32,
) -> Result<NodeId, AllocError>
    requires rows { rows < length builder.old.nodes }
    requires domain { domain < length builder.old.nodes }
    requires width { plan_width builder.old.nodes domain ≡ width }
    ensures { IfOk result
        (IsFilled builder.old.nodes builder.new.nodes rows aggregates.now domain width) }
{
    let by = first_columns(alloc, width)?;
    let computed = copy_aggregates(alloc, aggregates)?;
    let empty = values_of_none(alloc, aggregates)?;
    let groups = builder.put(Node::Group(rows, by, computed))?;
    let id = builder.put(Node::Fill(groups, domain, empty))?;
    Ok(id)
}

// The groups of a node's rows by a domain's columns and by others.
#[tactic(auto, using(plan_algebra::proofs::Fits::group_fits))]
pub(crate) fn put_group_by(
    alloc: Global,
    builder: &mut Builder,
    rows: NodeId,
    width: u32,
    by: &[u32],
    aggregates: &[Aggregate],
) -> Result<NodeId, AllocError>
    requires { rows < length builder.old.nodes }
    ensures { IfOk result
        (IsPut builder.old.nodes builder.new.nodes
        (node.Group rows (range_with_len 0 width ++ by.now) aggregates.now)) }
{
    let by = with_first_columns(alloc, width, by)?;
    let computed = copy_aggregates(alloc, aggregates)?;
    let id = builder.put(Node::Group(rows, by, computed))?;
    Ok(id)
}

/// The one group of a node's rows under each row of a domain.
pub fn put_total(
    alloc: Global,
    builder: &mut Builder,
    rows: NodeId,
    aggregates: &[Aggregate],
    domain: DomainRows,
) -> Result<NodeId, AllocError>
    requires rows { rows < length builder.old.nodes }
    requires domain { IsInPlan builder.old.nodes domain }
    ensures { IfOk result
        (IsTotal builder.old.nodes builder.new.nodes rows aggregates.now domain) }
{
    match domain {
        DomainRows::One => {
            let id = put_group_by(alloc, builder, rows, 0, &[], aggregates)?;
            Ok(id)
        }
        DomainRows::Node(domain, width) => {
            let id = put_fill(alloc, builder, rows, aggregates, domain, width)?;
            Ok(id)
        }
    }
}

// Notes of those of a node's columns that come unchanged from a table; none of a domain that is to
// be kept, since without notes no other column stands for one of its own.
fn notes_of_domain(
    alloc: Global,
    builder: &Builder,
    outer: NodeId,
    columns: &[u32],
    is_kept: bool,
) -> Result<Items<Origin>, AllocError>
    requires { outer < length builder.now.nodes }
    ensures { IfOk result (AreOrigins builder.now.nodes outer columns.now) }
{
    if is_kept {
        return Ok(Items::new(alloc));
    }
    let notes = origins(alloc, builder.nodes.as_slice(), outer, columns)?;
    Ok(notes)
}

/// The rows of a right side that depends on these columns of its left side, with notes of those
/// that come unchanged from a table, unless the domain is to be kept. One of no columns is closed.
pub fn own_footing(
    alloc: Global,
    builder: &Builder,
    outer: NodeId,
    columns: &[u32],
    is_kept: bool,
) -> Result<Footing, AllocError>
    requires { outer < length builder.now.nodes }
    ensures { IfOk result (IsOwnFooting builder.now.nodes outer columns.now) }
{
    if columns.is_empty() {
        return Ok(Footing::one(alloc));
    }
    let unchanged = notes_of_domain(alloc, builder, outer, columns, is_kept)?;
    let columns = Items::from_slice(alloc, columns)?;
    let rows = FootingRows::Due(outer, columns);
    Ok(Footing { rows, unchanged })
}
