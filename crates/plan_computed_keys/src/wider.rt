//! Inputs with a computed column more.
ghost use Rattle.std.specs.Prelude.{◌≡◌, IfOk, IsTrue, List, []};
ghost use Rattle.base_value.specs.declared.value.Value.{Value};
ghost use Rattle.expr_conditions.specs.Ranks.{columns_from};
ghost use Rattle.plan_algebra.specs.Trees.{width_of, right_row};
ghost use Rattle.plan_computed_keys.specs.Keys.{IsWider};

use expr_conditions::{copy_of, put_run};
use expr_scalar::Expr;
use plan_algebra::{DepTree, Side};
use plan_tree_moves::select_list;
use sqlite_items::{Boxed, Items};
use std::alloc::{AllocError, Global};

/// Whether a right side reads nothing, where there is no outer column.
pub(crate) fn reads_nothing(side: &Side) -> bool
    ensures { IsTrue result → (left : List Value) → right_row side.now [] left ≡ [] }
{
    match side {
        Side::Closed | Side::Shared => true,
        Side::Dependent(columns) => columns.is_empty(),
    }
}

// The first columns of a row.
fn first_columns(alloc: Global, w: u32) -> Result<Vec<u32>, AllocError>
    ensures { IfOk result (λ v. v.items ≡ columns_from 0 w) }
{
    let mut all = Vec::new(alloc);
    put_run(&mut all, 0, w)?;
    Ok(all)
}

/// An input of w columns, with a computed one more.
pub(crate) fn wider(
    alloc: Global,
    input: Boxed<DepTree>,
    w: u32,
    more: &Option<Boxed<Expr>>,
) -> Result<Boxed<DepTree>, AllocError>
    requires { w ≡ width_of input }
    ensures { IfOk result (IsWider input more.now) }
{
    match more {
        None => Ok(input),
        Some(computed) => {
            let columns = first_columns(alloc, w)?;
            let mut es = select_list(alloc, 0, &columns)?;
            let last = copy_of(alloc, computed.get())?;
            es.push(last)?;
            let new = Boxed::new(alloc, DepTree::Project(input, es))?;
            Ok(new)
        }
    }
}
