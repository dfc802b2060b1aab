//! Expressions and queries, which lead back to each other. All else is bound by rules that take
//! these two functions as values, so that each rule is proved alone.
ghost use Rattle.sql_binder.specs.Binding.{meaning, block_meaning};
ghost use Rattle.sql_binder_steps.specs.Names.{sight_of};
ghost use Rattle.sql_binder_steps.specs.Steps.{Binds};

use crate::exprs::ExprBinder;
use crate::subqueries::QueryBinder;
use sql_ast::{Block, Expr};
use sql_binder_steps::BindFault;
use sql_binder_steps::collected::{BoundTable, Collected, Typed};
use sql_binder_steps::scope::Site;
use std::alloc::Global;

/// A bound expression, whose inputs are added to those of its clause.
#[cycle(knot)]
fn expr(alloc: Global, site: &Site<'_>, state: &mut Collected, e: &Expr) -> Result<Typed, BindFault>
    ensures { Binds ((meaning e.now).binds (sight_of site.now) state.old) result state.new }
{
    let binder = QueryBinder {
        exprs: ExprBinder { alloc, expr },
        query,
    };
    binder.expr(site, state, e)
}

/// A bound query and its columns.
#[cycle(knot)]
pub(crate) fn query(
    alloc: Global,
    site: &Site<'_>,
    state: &mut Collected,
    q: &Block,
) -> Result<BoundTable, BindFault>
    ensures { Binds (block_meaning q.now (sight_of site.now) state.old) result state.new }
{
    let binder = QueryBinder {
        exprs: ExprBinder { alloc, expr },
        query,
    };
    binder.block(site, state, q)
}
