//! Nodes over new inputs.
ghost use Rattle.std.specs.Prelude.{◌≡◌, IfOk};
ghost use Rattle.plan_algebra.specs.declared.tree.DepTree.TheVariants.{Select, Project, Join};
ghost use Rattle.plan_algebra.specs.declared.tree.DepTree.TheVariants.{Kept, Outer};
ghost use Rattle.plan_algebra.specs.declared.tree.DepTree.TheVariants.{Mark, Single, Group};

use expr_scalar::Expr;
use plan_algebra::{
    Aggregate, DepTree, KeptPlan, Side, copy_aggregates, copy_expr, copy_exprs, copy_kept_plan,
};
use sqlite_items::{Boxed, Items};
use std::alloc::{AllocError, Global};

/// A side once more.
pub fn copied_side(alloc: Global, side: &Side) -> Result<Side, AllocError>
    ensures { IfOk result (λ new. new ≡ side.now) }
{
    match side {
        Side::Closed => Ok(Side::Closed),
        Side::Shared => Ok(Side::Shared),
        Side::Dependent(columns) => {
            let columns = Items::from_slice(alloc, columns.as_slice())?;
            Ok(Side::Dependent(columns))
        }
    }
}

/// A kept view.
pub fn kept_of(
    alloc: Global,
    number: u32,
    plan: &Boxed<KeptPlan>,
) -> Result<Boxed<DepTree>, AllocError>
    ensures { IfOk result (λ new. new ≡ Kept number plan.now) }
{
    let plan = copy_kept_plan(alloc, plan.get())?;
    let new = Boxed::new(alloc, DepTree::Kept(number, plan))?;
    Ok(new)
}

/// A selection of an input.
pub fn select_of(
    alloc: Global,
    input: Boxed<DepTree>,
    c: &Expr,
) -> Result<Boxed<DepTree>, AllocError>
    ensures { IfOk result (λ new. new ≡ Select input c.now) }
{
    let c = copy_expr(alloc, c)?;
    let new = Boxed::new(alloc, DepTree::Select(input, c))?;
    Ok(new)
}

/// A select list over an input.
pub fn project_of(
    alloc: Global,
    input: Boxed<DepTree>,
    es: &[Expr],
) -> Result<Boxed<DepTree>, AllocError>
    ensures { IfOk result (λ new. new ≡ Project input es.now) }
{
    let es = copy_exprs(alloc, es)?;
    let new = Boxed::new(alloc, DepTree::Project(input, es))?;
    Ok(new)
}

/// A join of two inputs.
pub fn join_of(
    alloc: Global,
    left: Boxed<DepTree>,
    right: Boxed<DepTree>,
    side: &Side,
    c: &Expr,
) -> Result<Boxed<DepTree>, AllocError>
    ensures { IfOk result (λ new. new ≡ Join left right side.now c.now) }
{
    let c = copy_expr(alloc, c)?;
    let side = copied_side(alloc, side)?;
    let new = Boxed::new(alloc, DepTree::Join(left, right, side, c))?;
    Ok(new)
}

/// A left outer join of two inputs.
pub fn outer_of(
    alloc: Global,
    left: Boxed<DepTree>,
    right: Boxed<DepTree>,
    side: &Side,
    c: &Expr,
) -> Result<Boxed<DepTree>, AllocError>
    ensures { IfOk result (λ new. new ≡ Outer left right side.now c.now) }
{
    let c = copy_expr(alloc, c)?;
    let side = copied_side(alloc, side)?;
    let new = Boxed::new(alloc, DepTree::Outer(left, right, side, c))?;
    Ok(new)
}

/// The marks of a right input, after the columns of the left one.
pub fn mark_of(
    alloc: Global,
    left: Boxed<DepTree>,
    right: Boxed<DepTree>,
    side: &Side,
    c: &Expr,
) -> Result<Boxed<DepTree>, AllocError>
    ensures { IfOk result (λ new. new ≡ Mark left right side.now c.now) }
{
    let c = copy_expr(alloc, c)?;
    let side = copied_side(alloc, side)?;
    let new = Boxed::new(alloc, DepTree::Mark(left, right, side, c))?;
    Ok(new)
}

/// The scalar value of a right input, after the columns of the left one.
pub fn single_of(
    alloc: Global,
    left: Boxed<DepTree>,
    right: Boxed<DepTree>,
    side: &Side,
    column: u32,
) -> Result<Boxed<DepTree>, AllocError>
    ensures { IfOk result (λ new. new ≡ Single left right side.now column) }
{
    let side = copied_side(alloc, side)?;
    let new = Boxed::new(alloc, DepTree::Single(left, right, side, column))?;
    Ok(new)
}

/// The groups of an input.
pub fn group_of(
    alloc: Global,
    input: Boxed<DepTree>,
    by: &[u32],
    aggregates: &[Aggregate],
) -> Result<Boxed<DepTree>, AllocError>
    ensures { IfOk result (λ new. new ≡ Group input by.now aggregates.now) }
{
    let by = Items::from_slice(alloc, by)?;
    let aggregates = copy_aggregates(alloc, aggregates)?;
    let new = Boxed::new(alloc, DepTree::Group(input, by, aggregates))?;
    Ok(new)
}
