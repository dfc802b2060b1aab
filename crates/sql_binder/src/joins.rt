//! FROM lists.
ghost use Rattle.std.specs.Prelude.{map, length};
ghost use Rattle.base_row_laws.specs.Bags.{Each};
ghost use Rattle.sql_binder.specs.FromLists as spec;
ghost use Rattle.sql_binder.specs.Binding.{meaning, join_meaning, joined_meaning};
ghost use Rattle.sql_binder_steps.specs.Names.{sight_of};
ghost use Rattle.sql_binder.specs.Nests.{BindsExpr, BindsJoin, BindsJoined};
ghost use Rattle.sql_binder_steps.specs.Steps.{Binds};

use crate::subqueries::QueryBinder;
use sql_ast::{Block, Expr, Join, JoinKind, Joined};
use sql_binder_steps::BindFault;
use sql_binder_steps::collected::{BoundTable, Collected, FromRows, Typed};
use sql_binder_steps::from::{
    Joining, begin_join, columns_from, columns_so_far, crossed, first_rows, joined_rows, present,
};
use sql_binder_steps::scope::Site;
use sql_bound_query::BoundSource;
use sqlite_items::Boxed;
use std::alloc::Global;

impl<
    E: Copy + Fn(Global, &Site<'_>, &mut Collected, &Expr) -> Result<Typed, BindFault>,
    Q: Fn(Global, &Site<'_>, &mut Collected, &Block) -> Result<BoundTable, BindFault>,
> QueryBinder<E, Q> {
    /// ON of a join whose item is bound; its chain begins at column `start`.
    #[tactic(auto, unfolding(crate::specs::FromLists::on_joining))]
    fn on_joining(
        &self,
        site: &Site<'_>,
        state: &mut Collected,
        start: usize,
        kind: JoinKind,
        j: Joining,
        e: &Expr,
    ) -> Result<FromRows, BindFault>
        requires { BindsExpr (E.pre self.now.exprs.expr) (E.post self.now.exprs.expr) e.now }
        ensures { Binds (spec.on_joining start (sight_of site.now) kind j (meaning e.now) state.old)
            result state.new }
    {
        let columns = columns_from(j.columns.as_slice(), start);
        let on = self.exprs.on_condition(site, state, columns, e)?;
        Ok(joined_rows(self.exprs.alloc, kind, j, on)?)
    }

    /// A join, onto its chain.
    #[tactic(auto, using(crate::proofs::Opened::join_is))]
    fn join(
        &self,
        site: &Site<'_>,
        state: &mut Collected,
        start: usize,
        done: FromRows,
        j: &Join,
    ) -> Result<FromRows, BindFault>
        requires { BindsJoin (E.pre self.now.exprs.expr) (E.post self.now.exprs.expr)
            (Q.pre self.now.query) (Q.post self.now.query) j.now }
        ensures { Binds (join_meaning j.now start (sight_of site.now) done state.old)
            result state.new }
    {
        let o = self.from_item(site, state, &j.item, done.columns.as_slice())?;
        let both = begin_join(done, o)?;
        let rows = self.on_joining(site, state, start, j.kind, both, &j.condition)?;
        Ok(rows)
    }

    /// The joins of a chain.
    #[tactic(auto, unfolding(crate::specs::FromLists::joins))]
    fn joins(
        &self,
        site: &Site<'_>,
        state: &mut Collected,
        start: usize,
        first: FromRows,
        rest: &[Join],
    ) -> Result<FromRows, BindFault>
        requires { Each (BindsJoin (E.pre self.now.exprs.expr) (E.post self.now.exprs.expr)
            (Q.pre self.now.query) (Q.post self.now.query)) rest.now }
        ensures { Binds (spec.joins start (sight_of site.now) first (map join_meaning rest.now)
            state.old) result state.new }
    {
        let mut done = first;
        let mut left = rest;
        'joins: while let [j, others @ ..] = left {
            done = self.join(site, state, start, done, j)?;
            left = others;
        }
        Ok(done)
    }

    /// The joins of a chain, then what stands before its comma.
    #[tactic(auto, unfolding(crate::specs::FromLists::chained))]
    fn chained(
        &self,
        site: &Site<'_>,
        state: &mut Collected,
        start: usize,
        first: (Option<Boxed<BoundSource>>, FromRows),
        joins: &[Join],
    ) -> Result<FromRows, BindFault>
        requires { Each (BindsJoin (E.pre self.now.exprs.expr) (E.post self.now.exprs.expr)
            (Q.pre self.now.query) (Q.post self.now.query)) joins.now }
        ensures { Binds (spec.chained start (sight_of site.now) first (map join_meaning joins.now)
            state.old) result state.new }
    {
        let (before, first) = first;
        let chain = self.joins(site, state, start, first, joins)?;
        Ok(crossed(self.exprs.alloc, before, chain)?)
    }

    /// What stands between commas.
    #[tactic(auto, using(crate::proofs::Opened::joined_is))]
    fn joined(
        &self,
        site: &Site<'_>,
        state: &mut Collected,
        done: Option<FromRows>,
        j: &Joined,
    ) -> Result<FromRows, BindFault>
        requires { BindsJoined (E.pre self.now.exprs.expr) (E.post self.now.exprs.expr)
            (Q.pre self.now.query) (Q.post self.now.query) j.now }
        ensures { Binds (joined_meaning j.now (sight_of site.now) done state.old) result state.new }
    {
        let left = columns_so_far(&done);
        let start = left.len();
        let o = self.from_item(site, state, &j.first, left)?;
        let first = first_rows(done, o)?;
        let rows = self.chained(site, state, start, first, j.joins.as_slice())?;
        Ok(rows)
    }

    /// A FROM list.
    #[tactic(auto, unfolding(crate::specs::FromLists::from_list))]
    pub(crate) fn from_list(
        &self,
        site: &Site<'_>,
        state: &mut Collected,
        all: &[Joined],
    ) -> Result<FromRows, BindFault>
        requires { Each (BindsJoined (E.pre self.now.exprs.expr) (E.post self.now.exprs.expr)
            (Q.pre self.now.query) (Q.post self.now.query)) all.now }
        ensures { Binds (spec.from_list (sight_of site.now) (map joined_meaning all.now) state.old)
            result state.new }
    {
        let mut done = None;
        let mut left = all;
        'from: while let [j, others @ ..] = left {
            let rows = self.joined(site, state, done, j)?;
            done = Some(rows);
            left = others;
        }
        let rows = present(done)?;
        Ok(rows)
    }
}
