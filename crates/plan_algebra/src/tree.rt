//! Dependent trees: what a query's rows are made from, before its subqueries are unnested.
ghost use Rattle.std.specs.Prelude.{◌≡◌, IfOk};
ghost use Rattle.plan_algebra.specs.Trees.{width_of};

use crate::aggregate::Aggregate;
use crate::kept_plan::KeptPlan;
use base_schema::TableName;
use base_set_rows::SetOperation;
use expr_scalar::Expr;
use sqlite_items::{Boxed, Items};
use std::alloc::AllocError;

/// What a right side reads of what stands to its left.
pub enum Side {
    /// Nothing: its own tree is over a domain row of no columns.
    Closed,
    /// The domain row that its left side has too.
    Shared,
    /// These columns of the domain row and the left row, which are its own domain row.
    Dependent(Items<u32>),
}

impl Drop for Side {
    #[inline]
    fn drop(self) {
        match self {
            Side::Closed => {}
            Side::Shared => {}
            Side::Dependent(kept) => drop(kept),
        }
    }
}

/// A tree over a domain row d. Its rows are its own columns; its expressions read the columns of d,
/// and after these those of a row of its input. A right side is a tree over a domain row of its
/// own, by `Side`.
#[cycle(tree)]
#[derive(Drop)]
pub enum DepTree {
    /// The rows of a table.
    Scan(TableName),
    /// The rows of the kept view of a number, which are those of its plan. It reads no domain.
    Kept(u32, Boxed<KeptPlan>),
    /// WHERE, HAVING: the rows that the condition keeps.
    Select(Boxed<DepTree>, Boxed<Expr>),
    /// The select list.
    Project(Boxed<DepTree>, Items<Expr>),
    /// The inner join under a condition. With a dependent right side it is a lateral one.
    Join(Boxed<DepTree>, Boxed<DepTree>, Side, Boxed<Expr>),
    /// The left outer join under a condition.
    Outer(Boxed<DepTree>, Boxed<DepTree>, Side, Boxed<Expr>),
    /// EXISTS, IN: each left row with one more column, its mark under the condition over the left
    /// row and a right one.
    Mark(Boxed<DepTree>, Boxed<DepTree>, Side, Boxed<Expr>),
    /// A scalar subquery: each left row with one more column, the value of the right side's column
    /// of this number.
    Single(Boxed<DepTree>, Boxed<DepTree>, Side, u32),
    /// GROUP BY: for each group these columns and its aggregates. Without columns all rows are one
    /// group, also where there are none.
    Group(Boxed<DepTree>, Items<u32>, Items<Aggregate>),
    /// DISTINCT.
    Distinct(Boxed<DepTree>),
    /// A set operation of two trees over the same domain row. Trees of different widths mean the
    /// left one.
    Set(Boxed<DepTree>, Boxed<DepTree>, SetOperation),
}

/// How many columns of its own the tree's rows have.
#[tactic(auto, using(crate::proofs::Opened::widths_opened))]
pub fn width(tree: &DepTree) -> Result<u32, AllocError>
    ensures { IfOk result (λ w. w ≡ width_of tree.now) }
{
    match tree {
        DepTree::Scan(table) => u32::try_from(table.kinds().len()).map_err(|_| AllocError),
        DepTree::Kept(_, plan) => u32::try_from(plan.get().list.len()).map_err(|_| AllocError),
        DepTree::Select(t, _) | DepTree::Distinct(t) => width(t.get()),
        DepTree::Set(l, _, _) => width(l.get()),
        DepTree::Project(_, es) => u32::try_from(es.len()).map_err(|_| AllocError),
        DepTree::Join(l, r, _, _) | DepTree::Outer(l, r, _, _) => {
            let left = width(l.get())?;
            let right = width(r.get())?;
            left.checked_add(right).ok_or(AllocError)
        }
        DepTree::Mark(l, _, _, _) | DepTree::Single(l, _, _, _) => {
            let left = width(l.get())?;
            left.checked_add(1).ok_or(AllocError)
        }
        DepTree::Group(_, by, aggregates) => {
            let columns = u32::try_from(by.len()).map_err(|_| AllocError)?;
            let values = u32::try_from(aggregates.len()).map_err(|_| AllocError)?;
            columns.checked_add(values).ok_or(AllocError)
        }
    }
}
