//! What a version carries along.
ghost use Rattle.std.specs.Prelude.{◌≡◌, IfOk, IfSome, Ok, length};
ghost use Rattle.std.specs.Arc.{arc_value};
ghost use Rattle.base_row_laws.specs.Bags.{SameBag};
ghost use Rattle.base_schema.specs.State.{State as Tables, table_rows};
ghost use Rattle.plan_algebra.specs.KeptPlans.{query_rows};
ghost use Rattle.store_state.specs.Refresh.{after};

use base_columns::Bag;
use plan_algebra::KeptPlan;
use std::alloc::{AllocError, Global};
use std::sync::Arc;
use store_state::{Refresh, State};

/// What is right for a state, and follows it when a refresh is accepted. A version carries one that
/// is right for its tables.
pub trait Attachment: Drop {
    /// Whether it is right for a state.
    ghost is_right: { Self → Tables → Type 0 };

    /// A further share of it.
    fn share(&self) -> Result<Self, AllocError>
        ensures { IfOk result
            (λ a. (state : Tables) → is_right self.now state → is_right a state) };

    /// What is right for the state that an accepted refresh leaves. This one stays as it is.
    fn after_refresh(
        &self,
        alloc: Global,
        before: &State,
        refresh: &Refresh,
        state: &Arc<State>,
    ) -> Result<Self, AllocError>
        requires right { is_right self.now before.now }
        requires leaves { after before.now refresh.now ≡ Ok (arc_value state.now) }
        ensures { IfOk result (λ a. is_right a (arc_value state.now)) };

    /// One for a state, whatever state this one is right for.
    fn anew(&self, alloc: Global, state: &Arc<State>) -> Result<Self, AllocError>
        ensures { IfOk result (λ a. is_right a (arc_value state.now)) };

    /// The rows of this plan over the state that it is right for, at their standings, in any order,
    /// where a kept view of this number and this plan is there.
    fn view_rows(
        &self,
        alloc: Global,
        number: u32,
        plan: &KeptPlan,
    ) -> Result<Option<Bag>, AllocError>
        ensures rows { IfOk result (λ found. IfSome found (λ bag.
            (state : Tables) → is_right self.now state
            → SameBag bag.rows (query_rows plan.now (table_rows state plan.now.table)))) }
        ensures width { IfOk result (λ found. IfSome found (λ bag.
            bag.width ≡ length plan.now.list)) };
}

/// Nothing, which is right for each state.
impl Attachment for () {
    ghost is_right = { λ nothing state. Unit {0} };

    fn share(&self) -> Result<(), AllocError> {
        Ok(())
    }

    fn after_refresh(
        &self,
        _alloc: Global,
        _before: &State,
        _refresh: &Refresh,
        _state: &Arc<State>,
    ) -> Result<(), AllocError> {
        Ok(())
    }

    fn anew(&self, _alloc: Global, _state: &Arc<State>) -> Result<(), AllocError> {
        Ok(())
    }

    fn view_rows(
        &self,
        _alloc: Global,
        _number: u32,
        _plan: &KeptPlan,
    ) -> Result<Option<Bag>, AllocError> {
        Ok(None)
    }
}
