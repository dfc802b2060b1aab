//! Why a query is not bound.
ghost use Rattle.std.specs.Prelude.{◌≡◌};
ghost use Rattle.sql_binder_steps.specs.declared.fault.BindFault.TheVariants.{OutOfMemory};

use base_refusals::BindRefusal;
use std::alloc::AllocError;

/// Why a query is not bound.
#[derive(Clone, Copy, Debug, PartialEq, Eq)]
pub enum BindFault {
    /// Memory was refused.
    OutOfMemory,
    /// The first refusal in the order of binding.
    Refused(BindRefusal),
}

impl From<AllocError> for BindFault {
    ghost from_gives = { λ _ e. e ≡ OutOfMemory };

    fn from(_error: AllocError) -> BindFault {
        BindFault::OutOfMemory
    }
}
