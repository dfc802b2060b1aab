//! Whole queries.
ghost use Rattle.std.specs.Prelude.{map};
ghost use Rattle.base_row_laws.specs.Bags.{Each};
ghost use Rattle.sql_binder.specs.Blocks as spec;
ghost use Rattle.sql_binder.specs.Binding.{block_meaning, select_meaning, set_part_meaning};
ghost use Rattle.sql_binder.specs.Binding.{clauses_of, opened_select};
ghost use Rattle.sql_binder_steps.specs.Names.{sight_of};
ghost use Rattle.sql_binder.specs.Nests.{Below, BindsBlock, BindsParts, BindsSetPart};
ghost use Rattle.sql_binder.specs.Sizes.{block_size, select_size};
ghost use Rattle.sql_binder_steps.specs.Steps.{Binds, apart};

use crate::subqueries::QueryBinder;
use crate::syntax::is_grouped;
use sql_ast::{Block, Expr, Select, SetPart};
use sql_binder_steps::BindFault;
use sql_binder_steps::collected::{BoundTable, Collected, FromRows, Shown, Typed};
use sql_binder_steps::lists::{closing, keys_of, once_each, plain};
use sql_binder_steps::scope::{ScopeColumn, Site};
use sql_binder_steps::sets::set_table;
use sql_bound_query::BoundExpr;
use sqlite_items::{Boxed, Items};
use std::alloc::Global;

impl<
    E: Copy + Fn(Global, &Site<'_>, &mut Collected, &Expr) -> Result<Typed, BindFault>,
    Q: Fn(Global, &Site<'_>, &mut Collected, &Block) -> Result<BoundTable, BindFault>,
> QueryBinder<E, Q> {
    /// FROM, then WHERE.
    #[tactic(auto, unfolding(crate::specs::Blocks::from_where))]
    fn from_where(
        &self,
        site: &Site<'_>,
        state: &mut Collected,
        q: &Select,
    ) -> Result<(FromRows, BoundExpr), BindFault>
        requires { BindsParts (E.pre self.now.exprs.expr) (E.post self.now.exprs.expr)
            (Q.pre self.now.query) (Q.post self.now.query) q.now }
        ensures { Binds (spec.from_where (sight_of site.now) (opened_select q.now).from
            (opened_select q.now).condition state.old) result state.new }
    {
        let from = self.from_list(site, state, q.from.as_slice())?;
        let none = None;
        let kept = self
            .exprs
            .condition(site, state, from.columns.as_slice(), &none, &q.condition)?;
        Ok((from, kept))
    }

    /// The select list of a query without groups.
    #[tactic(auto, unfolding(crate::specs::Blocks::over_rows))]
    fn over_rows(
        &self,
        site: &Site<'_>,
        state: &mut Collected,
        q: &Select,
        from: FromRows,
        kept: BoundExpr,
    ) -> Result<BoundTable, BindFault>
        requires { BindsParts (E.pre self.now.exprs.expr) (E.post self.now.exprs.expr)
            (Q.pre self.now.query) (Q.post self.now.query) q.now }
        ensures { Binds (spec.over_rows (sight_of site.now) from kept (opened_select q.now).selected
            state.old) result state.new }
    {
        let none = None;
        let shown = self
            .exprs
            .select(site, state, from.columns.as_slice(), &none, &q.selected)?;
        Ok(plain(self.exprs.alloc, from, kept, shown)?)
    }

    /// The select list, then HAVING.
    #[tactic(auto, unfolding(crate::specs::Blocks::group_lists))]
    fn group_lists(
        &self,
        site: &Site<'_>,
        state: &mut Collected,
        q: &Select,
        columns: &[ScopeColumn],
        keys: &Option<Items<u32>>,
    ) -> Result<(Shown, BoundExpr), BindFault>
        requires { BindsParts (E.pre self.now.exprs.expr) (E.post self.now.exprs.expr)
            (Q.pre self.now.query) (Q.post self.now.query) q.now }
        ensures { Binds (spec.group_lists (sight_of site.now) columns.now keys.now
            (opened_select q.now).selected (opened_select q.now).having state.old) result state.new }
    {
        let shown = self.exprs.select(site, state, columns, keys, &q.selected)?;
        let having = self.exprs.condition(site, state, columns, keys, &q.having)?;
        Ok((shown, having))
    }

    /// GROUP BY, the select list and HAVING.
    #[tactic(auto, unfolding(crate::specs::Blocks::over_groups))]
    fn over_groups(
        &self,
        site: &Site<'_>,
        state: &mut Collected,
        q: &Select,
        from: FromRows,
        kept: BoundExpr,
    ) -> Result<BoundTable, BindFault>
        requires { BindsParts (E.pre self.now.exprs.expr) (E.post self.now.exprs.expr)
            (Q.pre self.now.query) (Q.post self.now.query) q.now }
        ensures { Binds (spec.over_groups (sight_of site.now) from kept (opened_select q.now).group
            (opened_select q.now).selected (opened_select q.now).having state.old) result state.new }
    {
        let columns = from.columns.as_slice();
        let keys = Some(keys_of(self.exprs.alloc, columns, q.group.as_slice())?);
        let lists = self.group_lists(site, state, q, columns, &keys)?;
        let t = closing(self.exprs.alloc, state, from, kept, keys, lists)?;
        Ok(t)
    }

    /// The clauses of a query.
    #[tactic(auto, unfolding(crate::specs::Binding::clauses_of, crate::specs::Binding::is_grouped_select))]
    fn clauses(
        &self,
        site: &Site<'_>,
        state: &mut Collected,
        q: &Select,
    ) -> Result<BoundTable, BindFault>
        requires { BindsParts (E.pre self.now.exprs.expr) (E.post self.now.exprs.expr)
            (Q.pre self.now.query) (Q.post self.now.query) q.now }
        ensures { Binds (clauses_of q.now (sight_of site.now) state.old) result state.new }
    {
        let (from, kept) = self.from_where(site, state, q)?;
        if is_grouped(q) {
            let t = self.over_groups(site, state, q, from, kept)?;
            Ok(t)
        } else {
            let t = self.over_rows(site, state, q, from, kept)?;
            Ok(t)
        }
    }

    /// The clauses of a query, with aggregates of its own.
    #[tactic(auto, unfolding(sql_binder_steps::specs::Steps::apart))]
    fn own_clauses(
        &self,
        site: &Site<'_>,
        state: &mut Collected,
        q: &Select,
    ) -> Result<BoundTable, BindFault>
        requires { BindsParts (E.pre self.now.exprs.expr) (E.post self.now.exprs.expr)
            (Q.pre self.now.query) (Q.post self.now.query) q.now }
        ensures { Binds (apart (clauses_of q.now (sight_of site.now)) state.old) result state.new }
    {
        let outer = state.swap_aggregates(Items::new(self.exprs.alloc));
        let t = self.clauses(site, state, q)?;
        let _own = state.swap_aggregates(outer);
        Ok(t)
    }

    /// One SELECT, to HAVING.
    #[tactic(auto, using(crate::proofs::Opened::select_is))]
    fn select(
        &self,
        site: &Site<'_>,
        state: &mut Collected,
        q: &Select,
    ) -> Result<BoundTable, BindFault>
        requires { Below (select_size q.now) (E.pre self.now.exprs.expr)
            (E.post self.now.exprs.expr) (Q.pre self.now.query) (Q.post self.now.query) }
        ensures { Binds (select_meaning q.now (sight_of site.now) state.old) result state.new }
    {
        let t = self.own_clauses(site, state, q)?;
        Ok(once_each(self.exprs.alloc, q.is_distinct, t)?)
    }

    /// A query after the first one of a set operation, which is joined to those before it.
    #[tactic(auto, using(crate::proofs::Opened::set_part_is))]
    fn set_part(
        &self,
        site: &Site<'_>,
        state: &mut Collected,
        p: &SetPart,
        done: BoundTable,
    ) -> Result<BoundTable, BindFault>
        requires { BindsSetPart (Q.pre self.now.query) (Q.post self.now.query) p.now }
        ensures { Binds (set_part_meaning p.now (sight_of site.now) done state.old) result
            state.new }
    {
        let t = (self.query)(self.exprs.alloc, site, state, &p.query)?;
        let t = set_table(self.exprs.alloc, p.operator, p.keeps_all, done, t)?;
        Ok(t)
    }

    /// Queries joined by set operations.
    #[tactic(auto, unfolding(crate::specs::Blocks::combined))]
    fn combined(
        &self,
        site: &Site<'_>,
        state: &mut Collected,
        first: &Boxed<Block>,
        parts: &[SetPart],
    ) -> Result<BoundTable, BindFault>
        requires first { BindsBlock (Q.pre self.now.query) (Q.post self.now.query) first.now }
        requires parts { Each (BindsSetPart (Q.pre self.now.query) (Q.post self.now.query))
            parts.now }
        ensures { Binds (spec.combined (block_meaning first.now) (map set_part_meaning parts.now)
            (sight_of site.now) state.old) result state.new }
    {
        let mut done = (self.query)(self.exprs.alloc, site, state, first.get())?;
        let mut left = parts;
        'parts: while let [p, others @ ..] = left {
            done = self.set_part(site, state, p, done)?;
            left = others;
        }
        Ok(done)
    }

    /// A query.
    #[tactic(auto, using(crate::proofs::Opened::block_opened))]
    pub(crate) fn block(
        &self,
        site: &Site<'_>,
        state: &mut Collected,
        q: &Block,
    ) -> Result<BoundTable, BindFault>
        requires { Below (block_size q.now) (E.pre self.now.exprs.expr) (E.post self.now.exprs.expr)
            (Q.pre self.now.query) (Q.post self.now.query) }
        ensures { Binds (block_meaning q.now (sight_of site.now) state.old) result state.new }
    {
        match q {
            Block::Select(q) => self.select(site, state, q),
            Block::Combined(first, parts) => self.combined(site, state, first, parts.as_slice()),
        }
    }
}
