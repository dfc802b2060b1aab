//! Queries in other queries: in expressions, and as items of FROM. The function that binds a query
//! is a value here too.
ghost use Rattle.std.specs.Prelude.{None};
ghost use Rattle.sql_ast.specs.declared.tree.Block.TheOpen.{Expr-F};
ghost use Rattle.sql_binder.specs.Expressions as spec;
ghost use Rattle.sql_binder.specs.Binding.{meaning, block_meaning, from_item_meaning};
ghost use Rattle.sql_binder_steps.specs.Names.{sight_of};
ghost use Rattle.sql_binder.specs.Nests.{BindsExpr, BindsBlock, BindsFromItem};
ghost use Rattle.sql_binder_steps.specs.Parts.{hiding, inside};
ghost use Rattle.sql_binder_steps.specs.Steps.{Binds, alone};

use crate::exprs::ExprBinder;
use sql_ast::{Block, Comparison, Expr, FromItem, Quantifier};
use sql_binder_steps::BindFault;
use sql_binder_steps::collected::{BoundTable, Collected, FromRows, Typed};
use sql_binder_steps::from::{derived_rows, lateral_rows, table_rows};
use sql_binder_steps::names::alias_of;
use sql_binder_steps::scope::{Level, ScopeColumn, Site};
use sql_binder_steps::steps::{before, comparing, containing, existing, only_value};
use sqlite_items::Boxed;
use std::alloc::Global;

/// Binds what holds expressions and queries. `query` binds a query.
#[derive(Clone, Copy)]
pub(crate) struct QueryBinder<E, Q> {
    pub(crate) exprs: ExprBinder<E>,
    pub(crate) query: Q,
}

impl<
    E: Copy + Fn(Global, &Site<'_>, &mut Collected, &Expr) -> Result<Typed, BindFault>,
    Q: Fn(Global, &Site<'_>, &mut Collected, &Block) -> Result<BoundTable, BindFault>,
> QueryBinder<E, Q> {
    /// A query in an expression.
    fn subquery(
        &self,
        site: &Site<'_>,
        state: &mut Collected,
        q: &Boxed<Block>,
    ) -> Result<BoundTable, BindFault>
        requires { BindsBlock (Q.pre self.now.query) (Q.post self.now.query) q.now }
        ensures { Binds (block_meaning q.now (sight_of site.now) state.old) result state.new }
    {
        (self.query)(self.exprs.alloc, site, state, q.get())
    }

    /// `exists (..)`
    pub(crate) fn exists(
        &self,
        site: &Site<'_>,
        state: &mut Collected,
        q: &Boxed<Block>,
    ) -> Result<Typed, BindFault>
        requires { BindsBlock (Q.pre self.now.query) (Q.post self.now.query) q.now }
        ensures { Binds (spec.binds_step (sight_of site.now) (Expr-F.Exists (block_meaning q.now))
            state.old) result state.new }
    {
        let t = self.subquery(site, state, q)?;
        let t = existing(self.exprs.alloc, site, state, t)?;
        Ok(t)
    }

    /// The value of a query of one column.
    pub(crate) fn scalar(
        &self,
        site: &Site<'_>,
        state: &mut Collected,
        q: &Boxed<Block>,
    ) -> Result<Typed, BindFault>
        requires { BindsBlock (Q.pre self.now.query) (Q.post self.now.query) q.now }
        ensures { Binds (spec.binds_step (sight_of site.now) (Expr-F.Scalar (block_meaning q.now))
            state.old) result state.new }
    {
        let t = self.subquery(site, state, q)?;
        let t = only_value(self.exprs.alloc, site, state, t)?;
        Ok(t)
    }

    /// `a in (select ..)`
    pub(crate) fn in_query(
        &self,
        site: &Site<'_>,
        state: &mut Collected,
        a: &Boxed<Expr>,
        q: &Boxed<Block>,
    ) -> Result<Typed, BindFault>
        requires left { BindsExpr (E.pre self.now.exprs.expr) (E.post self.now.exprs.expr) a.now }
        requires query { BindsBlock (Q.pre self.now.query) (Q.post self.now.query) q.now }
        ensures { Binds (spec.binds_step (sight_of site.now)
            (Expr-F.InQuery (meaning a.now) (block_meaning q.now)) state.old) result state.new }
    {
        let left = self.exprs.part(site, state, a.get())?;
        let t = self.subquery(site, state, q)?;
        let t = containing(self.exprs.alloc, site, state, left, t)?;
        Ok(t)
    }

    /// `a < any (select ..)` and `a < all (select ..)`
    pub(crate) fn compare_query(
        &self,
        site: &Site<'_>,
        state: &mut Collected,
        c: Comparison,
        k: Quantifier,
        a: &Boxed<Expr>,
        q: &Boxed<Block>,
    ) -> Result<Typed, BindFault>
        requires left { BindsExpr (E.pre self.now.exprs.expr) (E.post self.now.exprs.expr) a.now }
        requires query { BindsBlock (Q.pre self.now.query) (Q.post self.now.query) q.now }
        ensures { Binds (spec.binds_step (sight_of site.now)
            (Expr-F.CompareQuery c k (meaning a.now) (block_meaning q.now)) state.old) result
            state.new }
    {
        let left = self.exprs.part(site, state, a.get())?;
        let t = self.subquery(site, state, q)?;
        let t = comparing(self.exprs.alloc, site, state, c, k, left, t)?;
        Ok(t)
    }

    /// A query that may use no name around it: neither of what stands left of it nor of the queries
    /// around.
    #[tactic(auto, unfolding(sql_binder_steps::specs::Parts::hiding))]
    fn hidden(
        &self,
        site: &Site<'_>,
        state: &mut Collected,
        left: &[ScopeColumn],
        q: &Boxed<Block>,
    ) -> Result<BoundTable, BindFault>
        requires { BindsBlock (Q.pre self.now.query) (Q.post self.now.query) q.now }
        ensures { Binds (block_meaning q.now (hiding (sight_of site.now) left.now) state.old)
            result state.new }
    {
        let none = None;
        let level = Level {
            columns: left,
            keys: &none,
        };
        let levels = before(self.exprs.alloc, level, site.levels)?;
        let inner = Site {
            views: site.views,
            levels: levels.as_slice(),
            hidden: levels.len(),
            takes_subqueries: true,
        };
        self.subquery(&inner, state, q)
    }

    /// A query that sees the columns to its left, as those of the innermost query around it.
    #[tactic(auto, unfolding(sql_binder_steps::specs::Parts::inside))]
    fn lateral(
        &self,
        site: &Site<'_>,
        state: &mut Collected,
        left: &[ScopeColumn],
        q: &Boxed<Block>,
    ) -> Result<BoundTable, BindFault>
        requires { BindsBlock (Q.pre self.now.query) (Q.post self.now.query) q.now }
        ensures { Binds (block_meaning q.now (inside (sight_of site.now) left.now None) state.old)
            result state.new }
    {
        let none = None;
        let level = Level {
            columns: left,
            keys: &none,
        };
        let levels = before(self.exprs.alloc, level, site.levels)?;
        let inner = Site {
            views: site.views,
            levels: levels.as_slice(),
            hidden: site.hidden,
            takes_subqueries: true,
        };
        self.subquery(&inner, state, q)
    }

    /// An item of FROM.
    #[tactic(auto, using(crate::proofs::Opened::from_item_opened))]
    pub(crate) fn from_item(
        &self,
        site: &Site<'_>,
        state: &mut Collected,
        i: &FromItem,
        left: &[ScopeColumn],
    ) -> Result<FromRows, BindFault>
        requires { BindsFromItem (Q.pre self.now.query) (Q.post self.now.query) i.now }
        ensures { Binds (from_item_meaning i.now (sight_of site.now) left.now state.old)
            result state.new }
    {
        match i {
            FromItem::Table(name, alias) => {
                let rows = table_rows(
                    self.exprs.alloc,
                    site,
                    state,
                    name,
                    alias_of(name, alias),
                    left,
                )?;
                Ok(rows)
            }
            FromItem::Derived(q, alias, names) => {
                state.counted(1)?;
                let t = self.hidden(site, state, left, q)?;
                let rows = derived_rows(self.exprs.alloc, t, alias, names.as_slice(), left)?;
                Ok(rows)
            }
            FromItem::Lateral(q, alias, names) => {
                state.counted(1)?;
                let t = self.lateral(site, state, left, q)?;
                let rows = lateral_rows(self.exprs.alloc, t, alias, names.as_slice(), left)?;
                Ok(rows)
            }
        }
    }
}
