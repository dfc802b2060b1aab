//! The groups of some plans over the tables of a state.
ghost use Rattle.std.specs.Prelude.{◌≡◌, ◌<◌, Some, IfOk, length, map, slice_get};
ghost use Rattle.std.specs.Arc.{arc_value};
ghost use Rattle.base_row_laws.specs.Bags.{SameBag};
ghost use Rattle.base_schema.specs.State.{table_rows};
ghost use Rattle.store_state.specs.Moves.{AreMoved};
ghost use Rattle.plan_algebra.specs.declared.kept_plan.KeptPlan.{KeptPlan as Plan};
ghost use Rattle.plan_algebra.specs.KeptPlans.{query_rows};
ghost use Rattle.store_kept_views.specs.Kept.{AreKept, CanMoveViews, kept, plans_of};

use crate::view::View;
use base_columns::Bag;
use plan_algebra::KeptPlan;
use std::alloc::{AllocError, Global};
use std::marker::Model;
use std::sync::Arc;
use store_state::State;

/// The groups of some plans, with the state of whose rows they are made. It is seen as the plans
/// and the state.
#[derive(Drop)]
pub struct Kept {
    alloc: Global,
    tables: Arc<State>,
    views: Arc<Vec<View>>,
}

impl Model for Kept {
    ghost use Rattle.std.specs.Arc.{arc_value};
    ghost use Rattle.store_kept_views.specs.Kept.{AreKept, KeptRows, kept, plans_of};
    ghost use Rattle.std.specs.Coded.{codes};
    ghost use Rattle.expr_scalar.specs.contracts.expr.Expr as expr;

    ghost Value = { KeptRows };

    ghost coded = { Prim.hlevel (codes, expr.the_row.coded) };

    ghost view = { λ k. kept (plans_of (arc_value k.views).items) (arc_value k.tables) };

    ghost invariant = { λ k. AreKept (arc_value k.tables) (arc_value k.views).items };
}

// The views of plans.
fn start_views(
    alloc: Global,
    plans: &[Arc<KeptPlan>],
    tables: &State,
) -> Result<Vec<View>, AllocError>
    ensures plans { IfOk result (λ vs. plans_of vs.items ≡ map (λ p. arc_value p) plans.now) }
    ensures kept { IfOk result (λ vs. AreKept tables.now vs.items) }
{
    let mut views = Vec::with_capacity(alloc, plans.len())?;
    for plan in plans {
        let view = View::start(alloc, plan, tables)?;
        views.push(view)?;
    }
    Ok(views)
}

// The views of the same plans, made anew.
fn renew_views(alloc: Global, views: &[View], tables: &State) -> Result<Vec<View>, AllocError>
    ensures plans { IfOk result (λ vs. plans_of vs.items ≡ plans_of views.now) }
    ensures kept { IfOk result (λ vs. AreKept tables.now vs.items) }
{
    let mut next = Vec::with_capacity(alloc, views.len())?;
    for view in views {
        let made = view.anew(alloc, tables)?;
        next.push(made)?;
    }
    Ok(next)
}

// The views after some rows were removed and others added.
fn move_views(
    alloc: Global,
    views: &[View],
    added: &State,
    removed: &State,
    tables: &State,
) -> Result<Vec<View>, AllocError>
    requires { CanMoveViews views.now added.now removed.now tables.now }
    ensures plans { IfOk result (λ vs. plans_of vs.items ≡ plans_of views.now) }
    ensures kept { IfOk result (λ vs. AreKept tables.now vs.items) }
{
    let mut next = Vec::with_capacity(alloc, views.len())?;
    for view in views {
        let moved = view.moved(alloc, added, removed, tables)?;
        next.push(moved)?;
    }
    Ok(next)
}

impl Kept {
    /// The groups of plans over the tables of a state.
    pub fn start(
        alloc: Global,
        plans: &[Arc<KeptPlan>],
        tables: Arc<State>,
    ) -> Result<Kept, AllocError>
        ensures { IfOk result (λ k. k
            ≡ kept (map (λ p. arc_value p) plans.now) (arc_value tables)) }
    {
        let views = Arc::new(alloc, start_views(alloc, plans, &tables)?)?;
        Ok(Kept {
            alloc,
            tables,
            views,
        })
    }

    /// The same plans over the state after some rows were removed and others added. What was
    /// before stays as it is.
    pub fn moved(
        &self,
        added: &State,
        removed: &State,
        tables: Arc<State>,
    ) -> Result<Kept, AllocError>
        requires { AreMoved self.now.tables added.now removed.now (arc_value tables) }
        ensures { IfOk result (λ k. k ≡ kept self.now.plans (arc_value tables)) }
    {
        let views = move_views(self.alloc, self.views.as_slice(), added, removed, &tables)?;
        let views = Arc::new(self.alloc, views)?;
        Ok(Kept {
            alloc: self.alloc,
            tables,
            views,
        })
    }

    /// The same groups once more, of which nothing is copied.
    pub fn share(&self) -> Result<Kept, AllocError>
        ensures { IfOk result (λ k. k ≡ self.now) }
    {
        let tables = Arc::try_clone(&self.tables)?;
        let views = Arc::try_clone(&self.views)?;
        Ok(Kept {
            alloc: self.alloc,
            tables,
            views,
        })
    }

    /// The same plans over another state, made anew.
    pub fn anew(&self, tables: Arc<State>) -> Result<Kept, AllocError>
        ensures { IfOk result (λ k. k ≡ kept self.now.plans (arc_value tables)) }
    {
        let views = renew_views(self.alloc, self.views.as_slice(), &tables)?;
        let views = Arc::new(self.alloc, views)?;
        Ok(Kept {
            alloc: self.alloc,
            tables,
            views,
        })
    }

    /// How many plans there are.
    pub fn len(&self) -> usize
        ensures { result ≡ length self.now.plans }
    {
        self.views.len()
    }

    /// A plan.
    pub fn plan(&self, i: usize) -> &KeptPlan
        requires { i < length self.now.plans }
        ensures { slice_get self.now.plans i ≡ Some result.now }
    {
        self.views[i].plan()
    }

    /// The rows of a plan: those of its query over the state, with their standings, in any order.
    pub fn rows(&self, i: usize) -> Result<Bag, AllocError>
        requires { i < length self.now.plans }
        ensures rows { IfOk result (λ bag. (plan : Plan) → slice_get self.now.plans i ≡ Some plan
            → SameBag bag.rows (query_rows plan (table_rows self.now.tables plan.table))) }
        ensures width { IfOk result (λ bag. (plan : Plan) → slice_get self.now.plans i ≡ Some plan
            → bag.width ≡ length plan.list) }
    {
        self.views[i].rows(self.alloc)
    }
}
