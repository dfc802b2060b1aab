//! A plan with the groups of its table's rows.
ghost use Rattle.std.specs.Prelude.{◌≡◌, IfOk, length};
ghost use Rattle.std.specs.Arc.{arc_value};
ghost use Rattle.base_row_laws.specs.Bags.{SameBag};
ghost use Rattle.base_schema.specs.State.{State as Tables, table_rows};
ghost use Rattle.plan_algebra.specs.KeptPlans.{query_rows};
ghost use Rattle.store_kept_views.specs.Kept.{CanMoveView, IsKept};

use crate::moving::{groups_after, groups_of};
use crate::output::shown_rows;
use base_columns::Bag;
use plan_algebra::KeptPlan;
use std::alloc::{AllocError, Global};
use std::marker::Model;
use std::sync::Arc;
use store_groups::Groups;
use store_state::State;

/// A plan with groups, seen as the two.
#[derive(Drop)]
pub(crate) struct View {
    plan: Arc<KeptPlan>,
    groups: Groups,
}

impl Model for View {
    ghost use Rattle.std.specs.Arc.{arc_value};
    ghost use Rattle.plan_algebra.specs.declared.kept_plan.KeptPlan.{KeptPlan as Plan};
    ghost use Rattle.store_groups.specs.Entries.{Entries};
    ghost use Rattle.std.specs.Coded.{codes};
    ghost use Rattle.expr_scalar.specs.contracts.expr.Expr as expr;

    ghost Value = { Plan × Entries };

    ghost coded = { Prim.hlevel (codes, expr.the_row.coded) };

    ghost view = { λ v. (arc_value v.plan, v.groups) };
}

impl View {
    /// The groups of the rows of the plan's table.
    pub(crate) fn start(
        alloc: Global,
        plan: &Arc<KeptPlan>,
        tables: &State,
    ) -> Result<View, AllocError>
        ensures plan { IfOk result (λ v. v.0 ≡ arc_value plan.now) }
        ensures kept { IfOk result (IsKept tables.now) }
    {
        let groups = groups_of(alloc, plan, tables.parts(plan.table))?;
        let plan = Arc::try_clone(plan)?;
        Ok(View { plan, groups })
    }

    /// The same plan's groups of the rows of another state, made anew.
    pub(crate) fn anew(&self, alloc: Global, tables: &State) -> Result<View, AllocError>
        ensures plan { IfOk result (λ v. v.0 ≡ self.now.0) }
        ensures kept { IfOk result (IsKept tables.now) }
    {
        let view = View::start(alloc, &self.plan, tables)?;
        Ok(view)
    }

    /// The same plan's groups of the rows after some were removed and others added.
    pub(crate) fn moved(
        &self,
        alloc: Global,
        added: &State,
        removed: &State,
        tables: &State,
    ) -> Result<View, AllocError>
        requires { CanMoveView self.now added.now removed.now tables.now }
        ensures plan { IfOk result (λ v. v.0 ≡ self.now.0) }
        ensures kept { IfOk result (IsKept tables.now) }
    {
        let table = self.plan.table;
        let groups = groups_after(
            alloc,
            &self.plan,
            &self.groups,
            added.parts(table),
            removed.parts(table),
            tables.parts(table),
        )?;
        let plan = Arc::try_clone(&self.plan)?;
        Ok(View { plan, groups })
    }

    /// Its plan.
    pub(crate) fn plan(&self) -> &KeptPlan
        ensures { result.now ≡ self.now.0 }
    {
        &self.plan
    }

    /// The rows that it shows: those of its query over each state that it stands for.
    pub(crate) fn rows(&self, alloc: Global) -> Result<Bag, AllocError>
        ensures rows { IfOk result (λ bag. (tables : Tables) → IsKept tables self.now
            → SameBag bag.rows (query_rows self.now.0 (table_rows tables self.now.0.table))) }
        ensures width { IfOk result (λ bag. bag.width ≡ length self.now.0.list) }
    {
        let bag = shown_rows(alloc, &self.plan, &self.groups)?;
        Ok(bag)
    }
}
