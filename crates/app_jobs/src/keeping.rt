//! The rows that a job keeps at its base.
ghost use Rattle.std.specs.Prelude.{◌≡◌, IfOk, map};
ghost use Rattle.std.specs.Arc.{arc_value};
ghost use Rattle.store_kept_views.specs.Kept.{kept};

use plan_algebra::KeptPlan;
use std::alloc::{AllocError, Global};
use std::sync::Arc;
use store_kept_views::Kept;
use store_state::State;

/// The groups of plans over the tables of a base.
#[tactic(auto, using(crate::proofs::OwnPlans::own_plans))]
pub(crate) fn groups_of(
    alloc: Global,
    plans: &[Arc<KeptPlan>],
    base: &State,
) -> Result<Kept, AllocError>
    ensures plans { IfOk result (λ k. k.plans ≡ map (λ p. arc_value p) plans.now) }
    ensures right { IfOk result (λ k. k ≡ kept k.plans base.now) }
{
    let tables = Arc::new(alloc, base.share(alloc)?)?;
    let groups = Kept::start(alloc, plans, tables)?;
    Ok(groups)
}
