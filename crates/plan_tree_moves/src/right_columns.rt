//! Marks whose right sides have only the columns that the condition reads.
ghost use Rattle.std.specs.Prelude.{◌≡◌, IfOk, IfSome};
ghost use Rattle.plan_algebra.specs.declared.tree.DepTree.TheVariants.{Mark};
ghost use Rattle.plan_algebra.specs.Trees.{width_of};
ghost use Rattle.plan_predicate_sinking.specs.Arranged.{SameRows};
ghost use Rattle.plan_tree_moves.specs.Prune.{RightMoves};

use crate::narrow::{after_domain, is_found, narrowed_input, own_columns, places_in};
use expr_scalar::{Expr, rename, used_columns};
use plan_algebra::{DepTree, Side, width};
use plan_predicate_sinking::{copied_side, mark_of, side_columns};
use sqlite_items::Boxed;
use std::alloc::{AllocError, Global};

// A condition over a domain row and a left row of `before` columns together, and after these the
// columns `own` of a right row; nothing where it reads one that is gone.
fn condition_on_right(
    alloc: Global,
    before: u32,
    own: &[u32],
    c: &Expr,
) -> Result<Option<Boxed<Expr>>, AllocError>
    ensures { IfOk result (λ o. IfSome o (RightMoves before own.now c.now)) }
{
    let whole = after_domain(alloc, before, own)?;
    let places = places_in(alloc, &whole)?;
    let found = is_found(alloc, c, &places, &whole)?;
    if found {
        let renamed = rename(alloc, c, &places)?;
        let new = Boxed::new(alloc, renamed)?;
        Ok(Some(new))
    } else {
        Ok(None)
    }
}

/// The marks of a right input, after the columns of the left one, over a domain row of n columns.
/// Of the right input's columns only those that the condition reads are left.
pub(crate) fn narrow_mark(
    alloc: Global,
    n: u32,
    left: Boxed<DepTree>,
    right: Boxed<DepTree>,
    side: &Side,
    c: &Expr,
) -> Result<Boxed<DepTree>, AllocError>
    ensures { IfOk result (SameRows n (Mark left right side.now c.now)) }
{
    let w = width(left.get())?;
    let k = width(right.get())?;
    let before = n.checked_add(w).ok_or(AllocError)?;
    let read = used_columns(alloc, c)?;
    let own = own_columns(alloc, &read, before, k)?;
    match condition_on_right(alloc, before, &own, c)? {
        Some(on) => {
            let m = side_columns(n, side)?;
            let right = narrowed_input(alloc, m, right.get(), &own)?;
            let side = copied_side(alloc, side)?;
            let new = Boxed::new(alloc, DepTree::Mark(left, right, side, on))?;
            Ok(new)
        }
        None => {
            let new = mark_of(alloc, left, right, side, c)?;
            Ok(new)
        }
    }
}
