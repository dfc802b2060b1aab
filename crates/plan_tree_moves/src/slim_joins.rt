//! Lateral and outer joins without the columns that nobody reads.
ghost use Rattle.std.specs.Prelude.{◌≡◌, ◌++◌, ◌+◌, ◌<◌, IfOk, IfSome, map};
ghost use Rattle.std.specs.List.{All as Every};
ghost use Rattle.base_row_laws.specs.Trees.{side_width};
ghost use Rattle.plan_algebra.specs.declared.tree.DepTree.{DepTree};
ghost use Rattle.plan_algebra.specs.declared.tree.DepTree.TheVariants.{Join, Outer};
ghost use Rattle.plan_algebra.specs.Trees.{width_of};
ghost use Rattle.plan_tree_moves.specs.Prune.{Keeps, BothMove};

use crate::columns::with_run;
use crate::narrow::{after_domain, is_found, narrowed_input, places_in, put_after};
use crate::prune::{Slim, moved_condition, side_of_slim};
use expr_scalar::{Expr, rename};
use plan_algebra::{DepTree, Side, width};
use plan_predicate_sinking::side_columns;
use sqlite_items::Boxed;
use std::alloc::{AllocError, Global};

/// The join with a left side of w columns; nothing where the right side or the condition reads a
/// column that is gone.
pub(crate) fn slim_join(
    alloc: Global,
    n: u32,
    left: Slim,
    w: u32,
    right: Boxed<DepTree>,
    side: &Side,
    c: &Expr,
) -> Result<Option<Slim>, AllocError>
    ensures { IfOk result (λ o. IfSome o (λ new. (l : DepTree) → w ≡ width_of l
        → Keeps n l left.kept.items left.tree
        → Keeps n (Join l right side.now c.now) new.kept.items new.tree)) }
{
    let k = width(right.get())?;
    match side_of_slim(alloc, n, &left, side)? {
        Some(moved) => match moved_condition(alloc, n, &left.kept, w, k, c)? {
            Some(on) => {
                let Slim { tree, kept } = left;
                let tree = Boxed::new(alloc, DepTree::Join(tree, right, moved, on))?;
                let kept = with_run(kept, w, k)?;
                Ok(Some(Slim { tree, kept }))
            }
            None => Ok(None),
        },
        None => Ok(None),
    }
}

// A condition over the columns `kept` of a left side of w columns, and after these the columns
// `own` of a right side; nothing where it reads one that is gone.
fn condition_on_both(
    alloc: Global,
    n: u32,
    kept: &[u32],
    w: u32,
    own: &[u32],
    c: &Expr,
) -> Result<Option<Boxed<Expr>>, AllocError>
    ensures { IfOk result (λ o. IfSome o (BothMove n kept.now w own.now c.now)) }
{
    let mut both = after_domain(alloc, n, kept)?;
    let end = n.checked_add(w).ok_or(AllocError)?;
    put_after(own, end, &mut both)?;
    let places = places_in(alloc, &both)?;
    let found = is_found(alloc, c, &places, &both)?;
    if found {
        let renamed = rename(alloc, c, &places)?;
        let new = Boxed::new(alloc, renamed)?;
        Ok(Some(new))
    } else {
        Ok(None)
    }
}

/// The left outer join of a left side of w columns with the columns `own` of a right side of k;
/// nothing where the right side or the condition reads a column that is gone.
pub(crate) fn slim_outer(
    alloc: Global,
    n: u32,
    left: Slim,
    w: u32,
    right: Boxed<DepTree>,
    own: &[u32],
    side: &Side,
    c: &Expr,
) -> Result<Option<Slim>, AllocError>
    requires { Every (λ c. c < width_of right) own.now }
    ensures { IfOk result (λ o. IfSome o (λ new. (l : DepTree) → w ≡ width_of l
        → Keeps n l left.kept.items left.tree
        → Keeps n (Outer l right side.now c.now) new.kept.items new.tree)) }
{
    match side_of_slim(alloc, n, &left, side)? {
        Some(moved) => match condition_on_both(alloc, n, &left.kept, w, own, c)? {
            Some(on) => {
                let m = side_columns(n, side)?;
                let right = narrowed_input(alloc, m, right.get(), own)?;
                let Slim { tree, mut kept } = left;
                let tree = Boxed::new(alloc, DepTree::Outer(tree, right, moved, on))?;
                put_after(own, w, &mut kept)?;
                Ok(Some(Slim { tree, kept }))
            }
            None => Ok(None),
        },
        None => Ok(None),
    }
}
