//! Clauses: WHERE, HAVING and ON, and the select list.
ghost use Rattle.std.specs.Prelude.{map};
ghost use Rattle.base_row_laws.specs.Bags.{Each};
ghost use Rattle.sql_binder.specs.Clauses as clauses;
ghost use Rattle.sql_binder.specs.FromLists as from;
ghost use Rattle.sql_binder.specs.Binding.{meaning, clause_meaning, item_meaning, selected_meaning};
ghost use Rattle.sql_binder_steps.specs.Names.{sight_of};
ghost use Rattle.sql_binder.specs.Nests.{BindsExpr, BindsItem, BindsSelected, BindsClause};
ghost use Rattle.sql_binder_steps.specs.Steps.{Binds};

use crate::exprs::ExprBinder;
use crate::syntax::item_name;
use sql_ast::{Clause, Expr, Item, Selected};
use sql_binder_steps::BindFault;
use sql_binder_steps::collected::{Collected, Shown, Typed};
use sql_binder_steps::lists::{holding, no_condition, nothing_shown, shown_part, star};
use sql_binder_steps::scope::{Level, ScopeColumn, Site};
use sql_binder_steps::steps::before;
use sql_bound_query::BoundExpr;
use sqlite_items::Items;
use std::alloc::Global;

impl<E: Fn(Global, &Site<'_>, &mut Collected, &Expr) -> Result<Typed, BindFault>> ExprBinder<E> {
    /// ON, over the rows of its own join.
    #[tactic(auto, unfolding(crate::specs::FromLists::on_condition, sql_binder_steps::specs::Parts::within_on))]
    pub(crate) fn on_condition(
        &self,
        site: &Site<'_>,
        state: &mut Collected,
        columns: &[ScopeColumn],
        e: &Expr,
    ) -> Result<BoundExpr, BindFault>
        requires { BindsExpr (E.pre self.now.expr) (E.post self.now.expr) e.now }
        ensures { Binds (from.on_condition (sight_of site.now) columns.now (meaning e.now)
            state.old) result state.new }
    {
        let none = None;
        let level = Level {
            columns,
            keys: &none,
        };
        let levels = before(self.alloc, level, site.levels)?;
        let rows = Site {
            views: site.views,
            levels: levels.as_slice(),
            hidden: site.hidden,
            takes_subqueries: true,
        };
        let p = self.part(&rows, state, e)?;
        let on = holding(p)?;
        Ok(on)
    }

    /// WHERE or HAVING, in the sight of its query.
    #[tactic(auto, using(crate::proofs::Opened::clause_opened))]
    fn condition_in(
        &self,
        site: &Site<'_>,
        state: &mut Collected,
        clause: &Clause,
    ) -> Result<BoundExpr, BindFault>
        requires { BindsClause (E.pre self.now.expr) (E.post self.now.expr) clause.now }
        ensures { Binds (clauses.condition_in (sight_of site.now) (clause_meaning clause.now)
            state.old) result state.new }
    {
        match clause {
            Clause::Absent => Ok(no_condition(self.alloc)?),
            Clause::Condition(e) => {
                let p = self.part(site, state, e.get())?;
                let condition = holding(p)?;
                Ok(condition)
            }
        }
    }

    /// WHERE over a FROM list, or HAVING over its groups.
    #[tactic(auto, unfolding(crate::specs::Clauses::condition, sql_binder_steps::specs::Parts::inside))]
    pub(crate) fn condition(
        &self,
        site: &Site<'_>,
        state: &mut Collected,
        columns: &[ScopeColumn],
        keys: &Option<Items<u32>>,
        clause: &Clause,
    ) -> Result<BoundExpr, BindFault>
        requires { BindsClause (E.pre self.now.expr) (E.post self.now.expr) clause.now }
        ensures { Binds (clauses.condition (sight_of site.now) columns.now keys.now
            (clause_meaning clause.now) state.old) result state.new }
    {
        let levels = before(self.alloc, Level { columns, keys }, site.levels)?;
        let inner = Site {
            views: site.views,
            levels: levels.as_slice(),
            hidden: site.hidden,
            takes_subqueries: true,
        };
        self.condition_in(&inner, state, clause)
    }

    /// An item of a select list.
    #[tactic(auto, using(crate::proofs::Opened::item_is), unfolding(crate::specs::Clauses::shown_item))]
    fn shown_item(
        &self,
        site: &Site<'_>,
        state: &mut Collected,
        done: Shown,
        i: &Item,
    ) -> Result<Shown, BindFault>
        requires { BindsItem (E.pre self.now.expr) (E.post self.now.expr) i.now }
        ensures { Binds (clauses.shown_item (sight_of site.now) done (item_meaning i.now) state.old)
            result state.new }
    {
        let p = self.part(site, state, &i.value)?;
        let name = item_name(self.alloc, i)?;
        let done = shown_part(done, name, p)?;
        Ok(done)
    }

    /// The items of a select list.
    #[tactic(auto, unfolding(crate::specs::Clauses::shown_items))]
    fn shown_items(
        &self,
        site: &Site<'_>,
        state: &mut Collected,
        items: &[Item],
    ) -> Result<Shown, BindFault>
        requires { Each (BindsItem (E.pre self.now.expr) (E.post self.now.expr)) items.now }
        ensures { Binds (clauses.shown_items (sight_of site.now) (map item_meaning items.now)
            state.old) result state.new }
    {
        let mut done = nothing_shown(self.alloc);
        let mut left = items;
        'items: while let [i, others @ ..] = left {
            done = self.shown_item(site, state, done, i)?;
            left = others;
        }
        Ok(done)
    }

    /// A select list, in the sight of its query.
    #[tactic(auto, using(crate::proofs::Opened::selected_opened))]
    fn select_in(
        &self,
        site: &Site<'_>,
        state: &mut Collected,
        keys: &Option<Items<u32>>,
        columns: &[ScopeColumn],
        selected: &Selected,
    ) -> Result<Shown, BindFault>
        requires { BindsSelected (E.pre self.now.expr) (E.post self.now.expr) selected.now }
        ensures { Binds (clauses.select_in (sight_of site.now) keys.now columns.now
            (selected_meaning selected.now) state.old) result state.new }
    {
        match selected {
            Selected::All => {
                let shown = star(self.alloc, keys, columns)?;
                Ok(shown)
            }
            Selected::Items(items) => {
                let shown = self.shown_items(site, state, items.as_slice())?;
                Ok(shown)
            }
        }
    }

    /// A select list over a FROM list, or over its groups.
    #[tactic(auto, unfolding(crate::specs::Clauses::select, sql_binder_steps::specs::Parts::inside))]
    pub(crate) fn select(
        &self,
        site: &Site<'_>,
        state: &mut Collected,
        columns: &[ScopeColumn],
        keys: &Option<Items<u32>>,
        selected: &Selected,
    ) -> Result<Shown, BindFault>
        requires { BindsSelected (E.pre self.now.expr) (E.post self.now.expr) selected.now }
        ensures { Binds (clauses.select (sight_of site.now) columns.now keys.now
            (selected_meaning selected.now) state.old) result state.new }
    {
        let levels = before(self.alloc, Level { columns, keys }, site.levels)?;
        let inner = Site {
            views: site.views,
            levels: levels.as_slice(),
            hidden: site.hidden,
            takes_subqueries: true,
        };
        self.select_in(&inner, state, keys, columns, selected)
    }
}
