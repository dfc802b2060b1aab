//! The dependent tree of a query, alone or inside others.
ghost use Rattle.std.specs.Prelude.{◌≡◌, List, [], IfOk};
ghost use Rattle.expr_scalar.specs.declared.kind.Kind.{Kind};
ghost use Rattle.sql_bound_query.specs.Typing.{IsWellTyped};
ghost use Rattle.plan_dependent_nodes.specs.Dependence.{IsTreeOf};
ghost use Rattle.plan_dependent_nodes.specs.Supplied.{QueryIsSupplied};

use crate::tree::block;
use plan_algebra::DepTree;
use plan_dependent_nodes::OuterColumn;
use sql_bound_query::{BoundBlock, BoundQuery};
use sqlite_items::Boxed;
use std::alloc::{AllocError, Global};

/// The dependent tree of a query.
///
/// EXISTS, IN and ANY become marks and scalar subqueries single values, attached to the rows of
/// FROM one after the other; an expression is then read from the flat row of the domain's columns,
/// the row's own and these. A subquery's domain row has just the columns of the rows around that it
/// reads.
pub fn depend(alloc: Global, query: &BoundQuery) -> Result<Boxed<DepTree>, AllocError>
    requires { (kinds : List Kind) × IsWellTyped query.now.block kinds }
    ensures { IfOk result (IsTreeOf query.now.block []) }
{
    let tree = depend_under(alloc, query.block.get(), &[])?;
    Ok(tree)
}

/// The dependent tree of a query inside others, over the domain row of these columns of the rows
/// around.
pub fn depend_under(
    alloc: Global,
    q: &BoundBlock,
    outer: &[OuterColumn],
) -> Result<Boxed<DepTree>, AllocError>
    requires { QueryIsSupplied q.now outer.now }
    ensures { IfOk result (IsTreeOf q.now outer.now) }
{
    let start = u32::try_from(outer.len()).map_err(|_| AllocError)?;
    let rows = block(alloc, q, outer, start)?;
    Ok(rows.tree)
}
