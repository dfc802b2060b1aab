//! Kept groups that a version carries along.
ghost use Rattle.std.specs.Prelude.{◌≡◌, ◌<◌, List, Some, IfOk, length, slice_get};
ghost use Rattle.base_row_laws.specs.Bags.{SameBag};
ghost use Rattle.base_schema.specs.State.{State as Tables, table_rows};
ghost use Rattle.plan_algebra.specs.KeptPlans.{query_rows};
ghost use Rattle.plan_algebra.specs.declared.kept_plan.KeptPlan.{KeptPlan as Plan};
ghost use Rattle.store_kept_views.specs.Kept.{kept};

use crate::kept::Kept;
use base_columns::Bag;
use plan_algebra::{KeptPlan, is_same_plan};
use std::alloc::{AllocError, Global};
use std::marker::{Brand, Model, PhantomData};
use std::sync::Arc;
use store_state::{Refresh, State, moves_of};
use store_versions::Attachment;

/// The plans of one run. A marker type stands for them, so that each of its versions has the same.
pub trait Plans {
    ghost plans: { List Plan };
}

/// For a run whose plans the proof of a call picks; the list here stands for none of them.
impl Plans for Brand {
    ghost use Rattle.std.specs.Prelude.{[]};

    ghost plans = { [] };
}

/// Groups of the plans of a run, attached to a version of its tables. It is seen as these plans and
/// the state of whose rows the groups are made.
#[derive(Drop)]
pub struct KeptOf<P: Plans> {
    kept: Kept,
    of: PhantomData<P>,
}

impl<P: Plans> Model for KeptOf<P> {
    ghost use Rattle.std.specs.Prelude.{◌≡◌};
    ghost use Rattle.std.specs.Coded.{codes};
    ghost use Rattle.expr_scalar.specs.contracts.expr.Expr as expr;
    ghost use Rattle.store_kept_views.specs.Kept.{KeptRows};

    ghost Value = { KeptRows };

    ghost coded = { Prim.hlevel (codes, expr.the_row.coded) };

    ghost view = { λ k. k.kept };

    ghost invariant = { λ k. k.kept.plans ≡ P.plans };
}

impl<P: Plans> KeptOf<P> {
    /// These groups, whose plans are those of the run.
    pub fn new(kept: Kept) -> KeptOf<P>
        requires { kept.plans ≡ P.plans }
        ensures { result ≡ kept }
    {
        KeptOf {
            kept,
            of: PhantomData,
        }
    }

    /// How many plans there are.
    pub fn len(&self) -> usize
        ensures { result ≡ length self.now.plans }
    {
        self.kept.len()
    }

    /// The rows of a plan: over each state that this is right for, those of its query, with their
    /// standings, in any order.
    pub fn rows(&self, i: usize) -> Result<Bag, AllocError>
        requires { i < length self.now.plans }
        ensures { IfOk result (λ bag. (state : Tables) (plan : Plan)
            → self.now ≡ kept P.plans state → slice_get P.plans i ≡ Some plan
            → SameBag bag.rows (query_rows plan (table_rows state plan.table))) }
    {
        let rows = self.kept.rows(i)?;
        Ok(rows)
    }
}

impl<P: Plans> Attachment for KeptOf<P> {
    ghost is_right = { λ a state. a ≡ kept P.plans state };

    fn share(&self) -> Result<KeptOf<P>, AllocError> {
        Ok(KeptOf::new(self.kept.share()?))
    }

    fn after_refresh(
        &self,
        alloc: Global,
        before: &State,
        refresh: &Refresh,
        state: &Arc<State>,
    ) -> Result<KeptOf<P>, AllocError> {
        let moves = moves_of(alloc, before, refresh)?;
        let state = Arc::try_clone(state)?;
        let kept = self.kept.moved(&moves.added, &moves.removed, state)?;
        Ok(KeptOf::new(kept))
    }

    fn anew(&self, _alloc: Global, state: &Arc<State>) -> Result<KeptOf<P>, AllocError> {
        let kept = self.kept.anew(Arc::try_clone(state)?)?;
        Ok(KeptOf::new(kept))
    }

    fn view_rows(
        &self,
        _alloc: Global,
        number: u32,
        plan: &KeptPlan,
    ) -> Result<Option<Bag>, AllocError> {
        let i = number as usize;
        if i >= self.kept.len() {
            return Ok(None);
        }
        if !is_same_plan(self.kept.plan(i), plan) {
            return Ok(None);
        }
        let bag = self.kept.rows(i)?;
        Ok(Some(bag))
    }
}
