//! Rows of FROM without the domain: tables that are joined first, and asked for the domain's
//! columns in the end.
ghost use Rattle.std.specs.Prelude.{◌≡◌, ℕ, ◌+◌, ◌<◌, ◌++◌, List, length, IfOk, IfSome};
ghost use Rattle.expr_scalar.specs.declared.expr.Expr.{Expr as Expression};
ghost use Rattle.expr_scalar.specs.declared.expr.Expr.TheVariants.{Column};
ghost use Rattle.expr_conditions.specs.Ranks.{columns_from};
ghost use Rattle.plan_algebra.specs.declared.tree.DepTree.TheOpen as tree;
ghost use Rattle.plan_algebra.specs.Trees.{tree_step, width_of};
ghost use Rattle.plan_algebra.specs.Plans.{plan_width};
ghost use Rattle.plan_unnested_nodes.specs.Domains.{IsInPlan};
ghost use Rattle.plan_unnested_nodes.specs.Footings.{footing_width, IsFooting};
ghost use Rattle.plan_unnested_nodes.specs.FromRows.{
  GivesApart,
  AreOwn,
  AreOwnAndRest,
  IsGrown,
  IsOwnCondition,
  IsOwnOn,
  KeepsRows,
  SelectsApart,
  JoinsApart,
  OutersApart,
  IsOverDomain,
  LowersApart,
};

use crate::domain::DomainRows;
use crate::footing::Footing;
use crate::origins::column_kinds;
use crate::own_columns::own_columns;
use crate::own_rows::put_own;
use crate::put::{put_combinations, put_kept_rows, put_outer, put_select};
use base_schema::TableName;
use expr_conditions::{Parted, in_parts, put_condition, put_run};
use expr_scalar::Expr;
use plan_algebra::{Builder, DepTree, KeptPlan, Node, NodeId, Side, copy_expr, width};
use sqlite_items::{Boxed, Items};
use std::alloc::{AllocError, Global};

/// Rows that are still without a domain.
#[derive(Drop)]
pub struct Apart {
    /// The node that has them.
    pub rows: NodeId,
    /// How many columns it has.
    pub width: u32,
    /// The conditions that they are still under, on the domain's columns and, after these, their
    /// own.
    pub conditions: Items<Expr>,
}

/// The rows of a part of FROM.
#[derive(Drop)]
pub enum Part {
    /// Those of this node, after the domain's columns.
    Whole(NodeId),
    /// Rows that are still without the domain.
    Apart(Apart),
}

/// A table's rows.
#[tactic(auto, using(plan_algebra::proofs::Fits::scan_fits))]
pub fn put_apart_table(
    alloc: Global,
    builder: &mut Builder,
    table: TableName,
) -> Result<Apart, AllocError>
    ensures { IfOk result (λ part. (n : ℕ)
        → GivesApart builder.old.nodes builder.new.nodes (tree_step (tree.Scan table)) n part) }
{
    let width = u32::try_from(table.kinds().len()).map_err(|_| AllocError)?;
    let rows = builder.put(Node::Scan(table))?;
    let conditions = Items::new(alloc);
    Ok(Apart {
        rows,
        width,
        conditions,
    })
}

// How many columns a kept view has.
fn columns_of(plan: &Boxed<KeptPlan>) -> Result<u32, AllocError>
    ensures { IfOk result (λ width. width ≡ length plan.now.list) }
{
    u32::try_from(plan.get().list.len()).map_err(|_| AllocError)
}

/// A kept view's rows.
pub fn put_apart_kept(
    alloc: Global,
    builder: &mut Builder,
    number: u32,
    plan: &Boxed<KeptPlan>,
) -> Result<Apart, AllocError>
    ensures { IfOk result (λ part. (n : ℕ)
        → GivesApart builder.old.nodes builder.new.nodes (tree_step (tree.Kept number plan.now)) n
        part) }
{
    let width = columns_of(plan)?;
    let rows = put_kept_rows(alloc, builder, number, plan)?;
    let conditions = Items::new(alloc);
    Ok(Apart {
        rows,
        width,
        conditions,
    })
}

// The column that an expression is, without the n columns of a domain before it.
fn own_place(n: u32, e: &Expr) -> Option<u32>
    ensures { IfSome result (λ place. e.now ≡ Column (n + place)) }
{
    let Expr::Column(column) = e else {
        return None;
    };
    if *column < n {
        return None;
    }
    Some(*column - n)
}

/// A select list of columns that stand after a domain's n, over the rows without the domain;
/// nothing where it has something else.
pub fn own_list(alloc: Global, n: u32, es: &[Expr]) -> Result<Option<Items<Expr>>, AllocError>
    ensures { IfOk result (λ own. IfSome own (AreOwn n es.now)) }
{
    let mut own = Items::new(alloc);
    for e in es {
        let Some(place) = own_place(n, e) else {
            return Ok(None);
        };
        own.push(Expr::Column(place))?;
    }
    Ok(Some(own))
}

/// These columns of a table's rows.
#[tactic(auto, using(plan_algebra::proofs::Fits::scan_fits))]
pub fn put_apart_list(
    alloc: Global,
    builder: &mut Builder,
    table: TableName,
    own: Items<Expr>,
) -> Result<Apart, AllocError>
    ensures { IfOk result (λ part. (n : ℕ) (es : List Expression) → AreOwn n es own
        → GivesApart builder.old.nodes builder.new.nodes
        (tree_step (tree.Project (tree_step (tree.Scan table)) es)) n part) }
{
    let width = u32::try_from(own.len()).map_err(|_| AllocError)?;
    let all = builder.put(Node::Scan(table))?;
    let rows = builder.put(Node::Project(all, own))?;
    let conditions = Items::new(alloc);
    Ok(Apart {
        rows,
        width,
        conditions,
    })
}

// Two runs of columns.
fn two_runs(
    alloc: Global,
    first: u32,
    count: u32,
    second: u32,
    more: u32,
) -> Result<Vec<u32>, AllocError>
    ensures { IfOk result
        (λ v. v.items ≡ columns_from first count ++ columns_from second more) }
{
    let mut places = Vec::new(alloc);
    put_run(&mut places, first, count)?;
    put_run(&mut places, second, more)?;
    Ok(places)
}

// Conditions on a domain's n columns and w others, where more columns stand after these.
fn grown(
    alloc: Global,
    n: u32,
    width: u32,
    conditions: Items<Expr>,
) -> Result<Items<Expr>, AllocError>
    ensures { IfOk result (IsGrown n width conditions) }
{
    let places = two_runs(alloc, 0, n, n, width)?;
    let all = Boxed::new(alloc, Expr::All(conditions))?;
    let mut grown = Items::new(alloc);
    put_condition(alloc, all.get(), &places, &mut grown)?;
    Ok(grown)
}

// The conjuncts of a condition on a domain's n columns and w others: those that read the others
// alone, over these, and the rest, after other conditions.
fn split(
    alloc: Global,
    n: u32,
    width: u32,
    conditions: Items<Expr>,
    c: &Expr,
) -> Result<Parted, AllocError>
    ensures { IfOk result (λ p. AreOwnAndRest n width conditions c.now p.covered p.rest) }
{
    let domain_last = two_runs(alloc, width, n, 0, width)?;
    let mut all = Items::new(alloc);
    put_condition(alloc, c, &domain_last, &mut all)?;
    let same = two_runs(alloc, 0, width, width, n)?;
    let parts = in_parts(alloc, all.as_slice(), &same, width)?;
    let domain_first = two_runs(alloc, n, width, 0, n)?;
    let more = Boxed::new(alloc, Expr::All(parts.rest))?;
    let mut rest = conditions;
    put_condition(alloc, more.get(), &domain_first, &mut rest)?;
    let covered = parts.covered;
    Ok(Parted { covered, rest })
}

// The rows of a node that conditions keep.
fn put_kept(
    alloc: Global,
    builder: &mut Builder,
    rows: NodeId,
    conditions: Items<Expr>,
) -> Result<NodeId, AllocError>
    requires { length builder.old.nodes ≡ rows + 1 }
    ensures { IfOk result (KeepsRows builder.old.nodes builder.new.nodes rows conditions) }
{
    if conditions.is_empty() {
        return Ok(rows);
    }
    let condition = Boxed::new(alloc, Expr::All(conditions))?;
    let id = put_select(alloc, builder, rows, condition.get())?;
    Ok(id)
}

/// The rows that a condition keeps: what it says of them alone is asked now.
pub fn put_apart_select(
    alloc: Global,
    builder: &mut Builder,
    n: u32,
    part: Apart,
    condition: &Expr,
) -> Result<Apart, AllocError>
    requires last { length builder.old.nodes ≡ part.rows + 1 }
    requires width { plan_width builder.old.nodes part.rows ≡ part.width }
    ensures { IfOk result
        (SelectsApart builder.old.nodes builder.new.nodes n part condition.now) }
{
    let Apart {
        rows,
        width,
        conditions,
    } = part;
    let parts = split(alloc, n, width, conditions, condition)?;
    let rows = put_kept(alloc, builder, rows, parts.covered)?;
    let conditions = parts.rest;
    Ok(Apart {
        rows,
        width,
        conditions,
    })
}

/// The rows joined with those of another node, of `more` columns, that reads no domain.
pub fn put_apart_join(
    alloc: Global,
    builder: &mut Builder,
    n: u32,
    part: Apart,
    right: NodeId,
    more: u32,
    on: &Expr,
) -> Result<Apart, AllocError>
    requires left { part.rows < length builder.old.nodes }
    requires right { right < length builder.old.nodes }
    requires width { plan_width builder.old.nodes part.rows ≡ part.width }
    requires more { plan_width builder.old.nodes right ≡ more }
    ensures { IfOk result
        (JoinsApart builder.old.nodes builder.new.nodes n part right more on.now) }
{
    let Apart {
        rows,
        width,
        conditions,
    } = part;
    let conditions = grown(alloc, n, width, conditions)?;
    let width = width.checked_add(more).ok_or(AllocError)?;
    let parts = split(alloc, n, width, conditions, on)?;
    let on = Boxed::new(alloc, Expr::All(parts.covered))?;
    let rows = put_combinations(alloc, builder, rows, right, on)?;
    let conditions = parts.rest;
    Ok(Apart {
        rows,
        width,
        conditions,
    })
}

// A condition on a domain's n columns and w others, over the others alone; nothing where it reads
// the domain's.
fn own_condition(
    alloc: Global,
    n: u32,
    width: u32,
    c: &Expr,
) -> Result<Option<Items<Expr>>, AllocError>
    ensures { IfOk result (λ own. IfSome own (IsOwnCondition n width c.now)) }
{
    let none = Items::new(alloc);
    let parts = split(alloc, n, width, none, c)?;
    if !parts.rest.is_empty() {
        return Ok(None);
    }
    Ok(Some(parts.covered))
}

/// The condition of an outer join over its own columns alone; nothing where the right side is not
/// closed, or the condition reads the domain.
pub fn own_on(
    alloc: Global,
    footing: &Footing,
    left: &DepTree,
    right: &DepTree,
    side: &Side,
    on: &Expr,
) -> Result<Option<Items<Expr>>, AllocError>
    ensures { IfOk result (λ own. IfSome own
        (IsOwnOn (footing_width footing.now.rows) (width_of left.now + width_of right.now)
        side.now on.now)) }
{
    match side {
        Side::Closed => {
            let n = footing.width()?;
            let first = width(left)?;
            let more = width(right)?;
            let both = first.checked_add(more).ok_or(AllocError)?;
            let own = own_condition(alloc, n, both, on)?;
            Ok(own)
        }
        _ => Ok(None),
    }
}

/// The left outer join of the rows with those of another node, of `more` columns, that reads no
/// domain, under conditions that read none either.
pub fn put_apart_outer(
    alloc: Global,
    builder: &mut Builder,
    n: u32,
    part: Apart,
    right: NodeId,
    more: u32,
    own: Items<Expr>,
) -> Result<Apart, AllocError>
    requires left { part.rows < length builder.old.nodes }
    requires right { right < length builder.old.nodes }
    requires width { plan_width builder.old.nodes part.rows ≡ part.width }
    requires more { plan_width builder.old.nodes right ≡ more }
    ensures { IfOk result
        (λ next. (c : Expression) → IsOwnCondition n (part.width + more) c own
        → OutersApart builder.old.nodes builder.new.nodes n part right more c next) }
{
    let Apart {
        rows,
        width,
        conditions,
    } = part;
    let conditions = grown(alloc, n, width, conditions)?;
    let width = width.checked_add(more).ok_or(AllocError)?;
    let on = Boxed::new(alloc, Expr::All(own))?;
    let rows = put_outer(
        alloc,
        builder,
        rows,
        right,
        &Side::Closed,
        n,
        more,
        on.get(),
    )?;
    Ok(Apart {
        rows,
        width,
        conditions,
    })
}

/// The rows under each row that a tree is lowered over. Where columns of their own stand for all of
/// the domain's, they need no domain.
pub fn put_whole(
    alloc: Global,
    builder: &mut Builder,
    part: Apart,
    footing: &mut Footing,
) -> Result<NodeId, AllocError>
    requires footing { IsFooting builder.old.nodes footing.old.rows }
    requires rows { part.rows < length builder.old.nodes }
    requires width { plan_width builder.old.nodes part.rows ≡ part.width }
    ensures { IfOk result
        (LowersApart builder.old.nodes builder.new.nodes footing.old footing.new part) }
{
    let Apart {
        rows,
        width,
        conditions,
    } = part;
    let condition = Boxed::new(alloc, Expr::All(conditions))?;
    let kinds = column_kinds(alloc, builder.nodes.as_slice(), rows)?;
    let n = footing.width()?;
    let notes = footing.unchanged.as_slice();
    let known = kinds.as_slice();
    if let Some(own) = own_columns(alloc, condition.get(), known, n, notes)? {
        let id = put_own(
            alloc,
            builder,
            rows,
            width,
            condition.get(),
            known,
            own.as_slice(),
        )?;
        return Ok(id);
    }
    let domain = footing.settled(alloc, builder)?;
    let id = put_over(alloc, builder, rows, condition.get(), domain)?;
    Ok(id)
}

// The rows of a node that a condition keeps, under each row of a domain.
fn put_over(
    alloc: Global,
    builder: &mut Builder,
    rows: NodeId,
    condition: &Expr,
    domain: DomainRows,
) -> Result<NodeId, AllocError>
    requires domain { IsInPlan builder.old.nodes domain }
    requires rows { rows < length builder.old.nodes }
    ensures { IfOk result
        (IsOverDomain builder.old.nodes builder.new.nodes rows condition.now domain) }
{
    match domain {
        DomainRows::One => {
            let id = put_select(alloc, builder, rows, condition)?;
            Ok(id)
        }
        DomainRows::Node(id, _) => {
            let condition = copy_expr(alloc, condition)?;
            let id = put_combinations(alloc, builder, id, rows, condition)?;
            Ok(id)
        }
    }
}
