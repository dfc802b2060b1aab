//! The trees of FROM's items, and what right sides depend on.
ghost use Rattle.std.specs.Prelude.{◌≡◌, ◌+◌, [], length, IfOk};
ghost use Rattle.expr_scalar.specs.declared.expr.Expr.TheVariants.{All as all_of};
ghost use Rattle.base_schema.specs.Tables.{kinds_of};
ghost use Rattle.plan_kept_queries.specs.Scans.{tables_of_expr};
ghost use Rattle.plan_algebra.specs.declared.tree.DepTree.TheVariants as node;
ghost use Rattle.plan_dependent_nodes.specs.Growth.{IsPlain, ArePlain, DependsOn, IsKeptTree};
ghost use Rattle.plan_dependent_nodes.specs.Supplied.{ExprIsSupplied, InputsAreSupplied};

use crate::parts::{Right, Rows, always};
use crate::sight::{Sight, place_of};
use crate::source_sight::SourceSight;
use base_schema::TableName;
use expr_scalar::{Expr, rename};
use plan_algebra::{DepTree, Side};
use plan_kept_queries::{KeptPlanError, plan_of_block};
use sql_bound_query::{BoundBlock, BoundExpr, Input};
use sqlite_items::{Boxed, Items};
use std::alloc::{AllocError, Global};

/// A source to the right of another one.
#[derive(Drop)]
pub struct RightRows {
    /// Its tree.
    pub rows: Rows,
    /// What its domain row is.
    pub side: Side,
}

/// A table.
pub fn table_rows(alloc: Global, table: TableName) -> Result<Rows, AllocError>
    ensures { IfOk result (λ r. (r.tree ≡ node.Scan table) × (r.width ≡ length (kinds_of table))) }
{
    let width = u32::try_from(table.kinds().len()).map_err(|_| AllocError)?;
    let tree = Boxed::new(alloc, DepTree::Scan(table))?;
    Ok(Rows { tree, width })
}

/// The rows of the kept view of a number, whose query this is; nothing where its rows can't be kept.
pub fn kept_rows(alloc: Global, number: u32, q: &BoundBlock) -> Result<Option<Rows>, AllocError>
    ensures { IfOk result (IsKeptTree number q.now) }
{
    match plan_of_block(alloc, q) {
        Ok(plan) => {
            let width = u32::try_from(plan.list.len()).map_err(|_| AllocError)?;
            let plan = Boxed::new(alloc, plan)?;
            let tree = Boxed::new(alloc, DepTree::Kept(number, plan))?;
            Ok(Some(Rows { tree, width }))
        }
        Err(KeptPlanError::NotKept) => Ok(None),
        Err(KeptPlanError::OutOfMemory) => Err(AllocError),
    }
}

/// A right side over the domain of these columns.
pub fn depending(rows: Rows, columns: Items<u32>) -> Right
    ensures tree { result.tree ≡ rows.tree }
    ensures side { DependsOn columns result.side }
{
    let tree = rows.tree;
    if columns.is_empty() {
        let side = Side::Closed;
        Right { tree, side }
    } else {
        let side = Side::Dependent(columns);
        Right { tree, side }
    }
}

/// All combinations of the rows of two sides.
pub fn crossed(alloc: Global, left: Rows, right: RightRows) -> Result<Rows, AllocError>
    ensures { IfOk result (λ r.
        (r.tree ≡ node.Join left.tree right.rows.tree right.side (all_of []))
        × (r.width ≡ left.width + right.rows.width)) }
{
    let width = left.width.checked_add(right.rows.width).ok_or(AllocError)?;
    let condition = always(alloc)?;
    let tree = DepTree::Join(left.tree, right.rows.tree, right.side, condition);
    let tree = Boxed::new(alloc, tree)?;
    Ok(Rows { tree, width })
}

// The place of each input; nothing where one is a subquery.
fn plain_places(
    alloc: Global,
    inputs: &[Input],
    sight: &Sight,
) -> Result<Option<Items<u32>>, AllocError>
    ensures { IfOk result (λ o. InputsAreSupplied inputs.now sight.now.outer.now sight.now.width
        → ArePlain sight.now.outer.now sight.now.start sight.now.width inputs.now o) }
{
    let mut places = Items::new(alloc);
    for input in inputs {
        match input {
            Input::Column(level, place) => {
                let place = place_of(sight, *level, *place)?;
                places.push(place)?;
            }
            _ => return Ok(None),
        }
    }
    Ok(Some(places))
}

// A condition over a flat row; nothing where it has a subquery.
fn plain_condition(
    alloc: Global,
    on: &BoundExpr,
    sight: &Sight,
) -> Result<Option<Boxed<Expr>>, AllocError>
    ensures { IfOk result (λ o. ExprIsSupplied on.now sight.now.outer.now sight.now.width
        → IsPlain sight.now.outer.now sight.now.start sight.now.width on.now o) }
{
    match plain_places(alloc, on.inputs.as_slice(), sight)? {
        Some(places) => {
            let condition = rename(alloc, on.expr.get(), places.as_slice())?;
            let condition = Boxed::new(alloc, condition)?;
            Ok(Some(condition))
        }
        None => Ok(None),
    }
}

/// ON of a left outer join whose right side has `nulls` columns, over the domain row and the joined
/// row; nothing where it has a subquery.
pub fn outer_condition(
    alloc: Global,
    on: &BoundExpr,
    sight: &SourceSight,
    left: u32,
    nulls: u32,
) -> Result<Option<Boxed<Expr>>, AllocError>
    ensures { IfOk result (λ o. ExprIsSupplied on.now sight.now.outer.now (left + nulls)
        → IsPlain sight.now.outer.now sight.now.start (left + nulls) on.now o) }
{
    let width = left.checked_add(nulls).ok_or(AllocError)?;
    let sight = Sight {
        outer: sight.outer,
        start: sight.start,
        width,
    };
    let condition = plain_condition(alloc, on, &sight)?;
    Ok(condition)
}

/// LEFT OUTER JOIN under a condition, whose right side has `nulls` columns.
pub fn outer_joined(
    alloc: Global,
    left: Rows,
    right: RightRows,
    nulls: u32,
    condition: Boxed<Expr>,
) -> Result<Rows, AllocError>
    ensures { IfOk result (λ r. (r.tree ≡ node.Outer left.tree right.rows.tree right.side condition)
        × (r.width ≡ left.width + nulls)) }
{
    let width = left.width.checked_add(nulls).ok_or(AllocError)?;
    let tree = DepTree::Outer(left.tree, right.rows.tree, right.side, condition);
    let tree = Boxed::new(alloc, tree)?;
    Ok(Rows { tree, width })
}
