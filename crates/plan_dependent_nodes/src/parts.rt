//! The nodes of a tree that stand above what a query's parts became.
ghost use Rattle.std.specs.Prelude.{◌≡◌, ◌+◌, ◌<◌, [], length, map, IfOk};
ghost use Rattle.std.specs.List.{All};
ghost use Rattle.expr_scalar.specs.declared.expr.Expr.TheVariants.{Column as column_of};
ghost use Rattle.expr_scalar.specs.declared.expr.Expr.TheVariants.{All as all_of};
ghost use Rattle.expr_scalar.specs.declared.expr.Expr.TheVariants.{Compare as compare_of};
ghost use Rattle.expr_scalar.specs.Rename.{IsRenamed};
ghost use Rattle.expr_conditions.specs.Ranks.{columns_from};
ghost use Rattle.plan_algebra.specs.declared.aggregate.Aggregate.TheVariants as aggregate;
ghost use Rattle.plan_algebra.specs.declared.tree.DepTree.TheVariants as node;
ghost use Rattle.plan_dependent_nodes.specs.Growth.{AreAt, AreKeys, IsTrimmed};
ghost use Rattle.plan_dependent_nodes.specs.Supplied.{AreSeen};

use crate::sight::{OuterColumn, Sight, place_of};
use base_decimal::Scale;
use expr_aggregates::AggregateFunction;
use expr_scalar::{Comparison, Expr, rename};
use plan_algebra::{Aggregate, DepTree, Side};
use sqlite_items::{Boxed, Items};
use std::alloc::{AllocError, Global};

/// A tree, and how many columns its rows have.
#[derive(Drop)]
pub struct Rows {
    /// The tree.
    pub tree: Boxed<DepTree>,
    /// How many columns of its own its rows have.
    pub width: u32,
}

/// A tree whose rows are a query's rows with marks and values of subqueries after them.
#[derive(Drop)]
pub struct Grown {
    /// The tree.
    pub tree: Boxed<DepTree>,
    /// How many columns a flat row has: the domain's, and these.
    pub end: u32,
}

/// A right side, and what it depends on.
#[derive(Drop)]
pub struct Right {
    /// Its tree, over a domain row of its own.
    pub tree: Boxed<DepTree>,
    /// What that domain row is.
    pub side: Side,
}

/// A tree in whose flat row one more input stands.
#[derive(Drop)]
pub struct Attached {
    /// The tree.
    pub grown: Grown,
    /// The input's column.
    pub column: u32,
}

/// A tree in whose flat row the inputs of an expression stand.
#[derive(Drop)]
pub struct Placed {
    /// The tree.
    pub grown: Grown,
    /// The column of each input.
    pub columns: Items<u32>,
}

/// A tree, and an expression over its flat row.
#[derive(Drop)]
pub struct Read {
    /// The tree.
    pub grown: Grown,
    /// The expression.
    pub expr: Boxed<Expr>,
}

/// A tree, and a select list over its flat row.
#[derive(Drop)]
pub struct Listed {
    /// The tree.
    pub grown: Grown,
    /// The expressions.
    pub exprs: Items<Expr>,
}

/// A tree, and an aggregate over its flat row.
#[derive(Drop)]
pub struct Counted {
    /// The tree.
    pub grown: Grown,
    /// The aggregate.
    pub aggregate: Aggregate,
}

/// A tree, and aggregates over its flat row.
#[derive(Drop)]
pub struct Summed {
    /// The tree.
    pub grown: Grown,
    /// The aggregates.
    pub aggregates: Items<Aggregate>,
}

/// The condition that always holds.
pub fn always(alloc: Global) -> Result<Boxed<Expr>, AllocError>
    ensures { IfOk result (λ c. c ≡ all_of []) }
{
    let all = Boxed::new(alloc, Expr::All(Items::new(alloc)))?;
    Ok(all)
}

/// The tree of rows with nothing after them, at a place of the flat row.
pub fn grown_from(rows: Rows, start: u32) -> Result<Grown, AllocError>
    ensures { IfOk result (λ g. (g.tree ≡ rows.tree) × (g.end ≡ start + rows.width)) }
{
    let Rows { tree, width } = rows;
    let end = start.checked_add(width).ok_or(AllocError)?;
    Ok(Grown { tree, end })
}

/// One more column: the mark of a right side under a condition.
pub fn marked(
    alloc: Global,
    grown: Grown,
    right: Right,
    condition: Boxed<Expr>,
) -> Result<Attached, AllocError>
    ensures { IfOk result (λ a.
        (a.grown.tree ≡ node.Mark grown.tree right.tree right.side condition)
        × (a.grown.end ≡ grown.end + 1) × (a.column ≡ grown.end)) }
{
    let column = grown.end;
    let end = column.checked_add(1).ok_or(AllocError)?;
    let tree = DepTree::Mark(grown.tree, right.tree, right.side, condition);
    let tree = Boxed::new(alloc, tree)?;
    let grown = Grown { tree, end };
    Ok(Attached { grown, column })
}

/// EXISTS.
pub fn existing(alloc: Global, grown: Grown, right: Right) -> Result<Attached, AllocError>
    ensures { IfOk result (λ a.
        (a.grown.tree ≡ node.Mark grown.tree right.tree right.side (all_of []))
        × (a.grown.end ≡ grown.end + 1) × (a.column ≡ grown.end)) }
{
    let condition = always(alloc)?;
    let attached = marked(alloc, grown, right, condition)?;
    Ok(attached)
}

/// ANY: the left side compared with the right side's only column, the first one after the flat row.
pub fn contained(
    alloc: Global,
    comparison: Comparison,
    left: Read,
    right: Right,
) -> Result<Attached, AllocError>
    ensures { IfOk result (λ a.
        (a.grown.tree ≡ node.Mark left.grown.tree right.tree right.side
        (compare_of comparison left.expr (column_of left.grown.end)))
        × (a.grown.end ≡ left.grown.end + 1) × (a.column ≡ left.grown.end)) }
{
    let Read { grown, expr } = left;
    let only = Boxed::new(alloc, Expr::Column(grown.end))?;
    let condition = Boxed::new(alloc, Expr::Compare(comparison, expr, only))?;
    let attached = marked(alloc, grown, right, condition)?;
    Ok(attached)
}

/// A scalar subquery: the value of its only column.
pub fn valued(alloc: Global, grown: Grown, right: Right) -> Result<Attached, AllocError>
    ensures { IfOk result (λ a. (a.grown.tree ≡ node.Single grown.tree right.tree right.side 0)
        × (a.grown.end ≡ grown.end + 1) × (a.column ≡ grown.end)) }
{
    let column = grown.end;
    let end = column.checked_add(1).ok_or(AllocError)?;
    let tree = DepTree::Single(grown.tree, right.tree, right.side, 0);
    let tree = Boxed::new(alloc, tree)?;
    let grown = Grown { tree, end };
    Ok(Attached { grown, column })
}

/// An expression over its inputs, read from the flat row.
pub fn over_places(alloc: Global, placed: Placed, expr: &Expr) -> Result<Read, AllocError>
    ensures { IfOk result (λ r. (r.grown.tree ≡ placed.grown.tree)
        × (r.grown.end ≡ placed.grown.end) × IsRenamed placed.columns expr.now r.expr) }
{
    let Placed { grown, columns } = placed;
    let expr = rename(alloc, expr, columns.as_slice())?;
    let expr = Boxed::new(alloc, expr)?;
    Ok(Read { grown, expr })
}

/// An aggregate over its argument.
pub fn applied(function: AggregateFunction, scale: Scale, argument: Read) -> Counted
    ensures tree { result.grown.tree ≡ argument.grown.tree }
    ensures end { result.grown.end ≡ argument.grown.end }
    ensures aggregate { result.aggregate ≡ aggregate.Of function scale argument.expr }
{
    let Read { grown, expr } = argument;
    let aggregate = Aggregate::Of(function, scale, expr);
    Counted { grown, aggregate }
}

/// The rows that a condition keeps.
pub fn selected(alloc: Global, condition: Read) -> Result<Grown, AllocError>
    ensures { IfOk result (λ g. (g.tree ≡ node.Select condition.grown.tree condition.expr)
        × (g.end ≡ condition.grown.end)) }
{
    let Read { grown, expr } = condition;
    let Grown { tree, end } = grown;
    let tree = Boxed::new(alloc, DepTree::Select(tree, expr))?;
    Ok(Grown { tree, end })
}

/// The select list.
pub fn projected(alloc: Global, listed: Listed) -> Result<Rows, AllocError>
    ensures { IfOk result (λ r. (r.tree ≡ node.Project listed.grown.tree listed.exprs)
        × (r.width ≡ length listed.exprs)) }
{
    let Listed { grown, exprs } = listed;
    let width = u32::try_from(exprs.len()).map_err(|_| AllocError)?;
    let tree = Boxed::new(alloc, DepTree::Project(grown.tree, exprs))?;
    Ok(Rows { tree, width })
}

// A select list of the columns from a place on.
fn columns_of(alloc: Global, start: u32, width: u32) -> Result<Items<Expr>, AllocError>
    ensures { IfOk result (λ es. es ≡ map column_of (columns_from start width)) }
{
    let mut exprs = Items::new(alloc);
    for i in 0..width {
        let place = start.checked_add(i).ok_or(AllocError)?;
        exprs.push(Expr::Column(place))?;
    }
    Ok(exprs)
}

/// The first columns of a query's row, without what stands after them.
pub fn trimmed(alloc: Global, grown: Grown, start: u32, width: u32) -> Result<Rows, AllocError>
    ensures { IfOk result (λ r. IsTrimmed grown.tree start width grown.end r.tree
        × (r.width ≡ width)) }
{
    let Grown { tree, end } = grown;
    let last = start.checked_add(width).ok_or(AllocError)?;
    if end == last {
        Ok(Rows { tree, width })
    } else {
        let exprs = columns_of(alloc, start, width)?;
        let tree = Boxed::new(alloc, DepTree::Project(tree, exprs))?;
        Ok(Rows { tree, width })
    }
}

/// The places of the GROUP BY columns.
pub fn key_places(alloc: Global, sight: &Sight, keys: &[u32]) -> Result<Items<u32>, AllocError>
    ensures { IfOk result (λ ps. All (λ key. key < sight.now.width) keys.now
        → AreKeys sight.now.outer.now sight.now.start sight.now.width keys.now ps) }
{
    let mut places = Items::new(alloc);
    for key in keys {
        let place = place_of(sight, 0, *key)?;
        places.push(place)?;
    }
    Ok(places)
}

/// The groups by these columns, with aggregates.
pub fn grouped(alloc: Global, by: Items<u32>, summed: Summed) -> Result<Rows, AllocError>
    ensures { IfOk result (λ r. (r.tree ≡ node.Group summed.grown.tree by summed.aggregates)
        × (r.width ≡ length by + length summed.aggregates)) }
{
    let Summed { grown, aggregates } = summed;
    let keys = u32::try_from(by.len()).map_err(|_| AllocError)?;
    let values = u32::try_from(aggregates.len()).map_err(|_| AllocError)?;
    let width = keys.checked_add(values).ok_or(AllocError)?;
    let tree = Boxed::new(alloc, DepTree::Group(grown.tree, by, aggregates))?;
    Ok(Rows { tree, width })
}

/// Identical rows once.
pub fn distinct(alloc: Global, rows: Rows) -> Result<Rows, AllocError>
    ensures { IfOk result (λ r. (r.tree ≡ node.Distinct rows.tree) × (r.width ≡ rows.width)) }
{
    let Rows { tree, width } = rows;
    let tree = Boxed::new(alloc, DepTree::Distinct(tree))?;
    Ok(Rows { tree, width })
}

/// The places of columns of the rows around a subquery, of which the nearest is the query's own
/// row.
pub fn outer_places(
    alloc: Global,
    sight: &Sight,
    outer: &[OuterColumn],
) -> Result<Items<u32>, AllocError>
    ensures { IfOk result (λ ps. AreSeen sight.now.outer.now sight.now.width outer.now
        → AreAt sight.now.outer.now sight.now.start sight.now.width outer.now ps) }
{
    let mut places = Items::new(alloc);
    for column in outer {
        let place = place_of(sight, column.level, column.place)?;
        places.push(place)?;
    }
    Ok(places)
}
