//! Lateral joins with aggregates that stand without GROUP BY.
//!
//! Such an item has one row under each left row, also where it aggregates no rows. Where the
//! aggregates of no rows are all null, groups under a left outer join give the same, and they need
//! not be filled up from a domain.
ghost use Rattle.std.specs.Prelude.{◌≡◌, ◌+◌, ◌<◌, ◌++◌, ◌∷◌, [], IfOk, IsTrue, length};
ghost use Rattle.std.specs.List.{All as Every};
ghost use Rattle.base_value.specs.declared.value.Value.TheVariants.{Null};
ghost use Rattle.expr_scalar.specs.declared.expr.Expr.TheVariants.{All};
ghost use Rattle.expr_conditions.specs.Ranks.{columns_from};
ghost use Rattle.plan_algebra.specs.declared.tree.DepTree.TheVariants.{Join, Group};
ghost use Rattle.plan_algebra.specs.declared.tree.Side.TheVariants.{Dependent};
ghost use Rattle.plan_algebra.specs.Trees.{width_of};
ghost use Rattle.plan_predicate_sinking.specs.Arranged.{SameRows};
ghost use Rattle.plan_join_order.specs.Laterals.{AreNull, IsListAbove, IsKept};

use base_value::Value;
use expr_conditions::{put_run, renamed_all};
use expr_scalar::{Expr, rename};
use plan_algebra::{Aggregate, DepTree, Side, values_of_none, width};
use plan_tree_moves::{join_of, select_list, select_of};
use sqlite_items::{Boxed, Items};
use std::alloc::{AllocError, Global};

// Whether a value is null.
fn is_null(value: &Value) -> bool
    ensures { IsTrue result → value.now ≡ Null }
{
    matches!(value, Value::Null)
}

// Whether the aggregates of no rows are all null, as they are unless one is a count.
fn are_null(alloc: Global, aggregates: &[Aggregate]) -> Result<bool, AllocError>
    ensures { IfOk result (λ null. IsTrue null → AreNull aggregates.now) }
{
    let values = values_of_none(alloc, aggregates)?;
    for value in values.as_slice() {
        if !is_null(value) {
            return Ok(false);
        }
    }
    Ok(true)
}

// Whether columns are below a limit.
fn are_below(columns: &[u32], limit: u32) -> bool
    ensures { IsTrue result → Every (λ c. c < limit) columns.now }
{
    for column in columns {
        if *column >= limit {
            return false;
        }
    }
    true
}

// Whether a tree is aggregates without GROUP BY that are null of no rows, under select lists and
// selections at most.
fn is_total(alloc: Global, tree: &DepTree) -> Result<bool, AllocError> {
    match tree {
        DepTree::Project(t, _) | DepTree::Select(t, _) => is_total(alloc, t.get()),
        DepTree::Group(_, by, aggregates) => {
            let null = are_null(alloc, aggregates.as_slice())?;
            Ok(by.is_empty() && null)
        }
        _ => Ok(false),
    }
}

// Whether a condition is the AND of none.
fn is_always(c: &Expr) -> bool
    ensures { IsTrue result → c.now ≡ All [] }
{
    match c {
        Expr::All(es) => es.is_empty(),
        _ => false,
    }
}

// The condition that is true of all rows.
fn always(alloc: Global) -> Result<Boxed<Expr>, AllocError>
    ensures { IfOk result (λ c. c ≡ All []) }
{
    let none = Items::new(alloc);
    let c = Boxed::new(alloc, Expr::All(none))?;
    Ok(c)
}

// The join with a right side that depends on these columns, under no condition.
fn joined(
    alloc: Global,
    left: Boxed<DepTree>,
    right: Boxed<DepTree>,
    columns: &[u32],
) -> Result<Boxed<DepTree>, AllocError>
    ensures { IfOk result (λ new. new ≡ Join left right (Dependent columns.now) (All [])) }
{
    let on = always(alloc)?;
    let side = Side::Dependent(Items::from_slice(alloc, columns)?);
    let new = Boxed::new(alloc, DepTree::Join(left, right, side, on))?;
    Ok(new)
}

// Where the columns of a right side's domain row and of its own row stand, over rows of n columns,
// of `width` columns of the left side, and of `more` of its own.
fn joined_places(
    alloc: Global,
    n: u32,
    width: u32,
    more: u32,
    columns: &[u32],
) -> Result<Vec<u32>, AllocError>
    ensures { IfOk result (λ v. v.items ≡ columns.now ++ columns_from (n + width) more) }
{
    let from = n.checked_add(width).ok_or(AllocError)?;
    let mut places = Vec::from_slice(alloc, columns)?;
    put_run(&mut places, from, more)?;
    Ok(places)
}

// A right side's select list above the join: the left columns, and then the list.
fn list_above(
    alloc: Global,
    n: u32,
    width: u32,
    es: &[Expr],
    places: &[u32],
) -> Result<Items<Expr>, AllocError>
    ensures { IfOk result (IsListAbove n width places.now es.now) }
{
    let mut own = Vec::new(alloc);
    put_run(&mut own, 0, width)?;
    let mut list = select_list(alloc, n, &own)?;
    let more = renamed_all(alloc, es, places)?;
    list.append(more)?;
    Ok(list)
}

// The groups by a column of the domain, which is the same for all rows under a left row, under a
// left outer join.
fn groups_joined(
    alloc: Global,
    n: u32,
    left: Boxed<DepTree>,
    input: Boxed<DepTree>,
    aggregates: Items<Aggregate>,
    columns: &[u32],
) -> Result<Boxed<DepTree>, AllocError>
    requires some { 0 < length columns.now }
    requires null { AreNull aggregates }
    ensures { IfOk result
        (SameRows n (Join left (Group input [] aggregates) (Dependent columns.now) (All []))) }
{
    let first = width(left.get())?;
    let more = u32::try_from(aggregates.len()).map_err(|_| AllocError)?;
    let mut own = Vec::new(alloc);
    put_run(&mut own, 0, first)?;
    let after = first.checked_add(1).ok_or(AllocError)?;
    put_run(&mut own, after, more)?;
    let list = select_list(alloc, n, &own)?;
    let by = Items::from_slice(alloc, &[0])?;
    let groups = Boxed::new(alloc, DepTree::Group(input, by, aggregates))?;
    let on = always(alloc)?;
    let side = Side::Dependent(Items::from_slice(alloc, columns)?);
    let rows = Boxed::new(alloc, DepTree::Outer(left, groups, side, on))?;
    let new = Boxed::new(alloc, DepTree::Project(rows, list))?;
    Ok(new)
}

// The join with aggregates that depend on these columns, under no condition. Select lists and
// selections between both stand above it in the end.
fn total_joined(
    alloc: Global,
    n: u32,
    left: Boxed<DepTree>,
    right: Boxed<DepTree>,
    columns: &[u32],
) -> Result<Boxed<DepTree>, AllocError>
    requires { Every (λ c. c < n + width_of left) columns.now }
    ensures { IfOk result (SameRows n (Join left right (Dependent columns.now) (All []))) }
{
    match right.into_inner() {
        DepTree::Project(input, es) => {
            let first = width(left.get())?;
            let more = width(input.get())?;
            let places = joined_places(alloc, n, first, more, columns)?;
            let list = list_above(alloc, n, first, es.as_slice(), &places)?;
            let rows = total_joined(alloc, n, left, input, columns)?;
            let new = Boxed::new(alloc, DepTree::Project(rows, list))?;
            Ok(new)
        }
        DepTree::Select(input, c) => {
            let first = width(left.get())?;
            let more = width(input.get())?;
            let places = joined_places(alloc, n, first, more, columns)?;
            let above = rename(alloc, c.get(), &places)?;
            let above = Boxed::new(alloc, above)?;
            let rows = total_joined(alloc, n, left, input, columns)?;
            let new = Boxed::new(alloc, DepTree::Select(rows, above))?;
            Ok(new)
        }
        DepTree::Group(input, by, aggregates) => {
            if by.is_empty() && !columns.is_empty() && are_null(alloc, aggregates.as_slice())? {
                let new = groups_joined(alloc, n, left, input, aggregates, columns)?;
                return Ok(new);
            }
            let right = Boxed::new(alloc, DepTree::Group(input, by, aggregates))?;
            let new = joined(alloc, left, right, columns)?;
            Ok(new)
        }
        other => {
            let right = Boxed::new(alloc, other)?;
            let new = joined(alloc, left, right, columns)?;
            Ok(new)
        }
    }
}

// The rows that a condition keeps.
fn kept(alloc: Global, rows: Boxed<DepTree>, on: &Expr) -> Result<Boxed<DepTree>, AllocError>
    ensures { IfOk result (IsKept on.now rows) }
{
    if is_always(on) {
        return Ok(rows);
    }
    let new = select_of(alloc, rows, on)?;
    Ok(new)
}

/// The join of two sides. Where the right one is aggregates that stand without GROUP BY, and are
/// null of no rows, it is a left outer join with groups.
pub(crate) fn lateral_join(
    alloc: Global,
    n: u32,
    left: Boxed<DepTree>,
    right: Boxed<DepTree>,
    side: &Side,
    on: &Expr,
) -> Result<Boxed<DepTree>, AllocError>
    ensures { IfOk result (SameRows n (Join left right side.now on.now)) }
{
    if let Side::Dependent(columns) = side {
        let first = width(left.get())?;
        let limit = n.checked_add(first).ok_or(AllocError)?;
        if is_total(alloc, right.get())? && are_below(columns.as_slice(), limit) {
            let rows = total_joined(alloc, n, left, right, columns.as_slice())?;
            let new = kept(alloc, rows, on)?;
            return Ok(new);
        }
    }
    let new = join_of(alloc, left, right, side, on)?;
    Ok(new)
}
