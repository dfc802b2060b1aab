//! What an accumulator promises.
ghost use Rattle.std.specs.Prelude.{◌≡◌, ℕ, ◌+◌, ◌<◌, ◌≤◌, ◌^◌, List, [], ◌∷◌, ◌++◌, length, OnOk};
ghost use Rattle.std.specs.Prelude.{IfOk, IfSome};
ghost use Rattle.base_row_laws.specs.Ranked.{true_rank};
ghost use Rattle.base_value.specs.declared.value.Value.{Value as Datum};
ghost use Rattle.exec_accumulators.specs.Accumulators.{OfValues, Summed};

use base_decimal::Scale;
use base_value::Value;
use std::alloc::{AllocError, Global};

/// Computes an aggregate of a list of values, which come one by one or as what other accumulators
/// have of parts of the list.
pub trait Accumulator: Drop {
    /// Whether it has taken the values of a list, for an aggregate of them.
    ghost has_taken: { Self → OfValues → List Datum → Type 0 };

    /// How many terms it counts: no more than values that it has taken.
    ghost terms: { Self → ℕ };

    /// The aggregate that it computes, over numbers of a scale.
    ghost aggregate: { ℕ → OfValues };

    /// Of no values, whose numbers will be of this scale.
    fn new(alloc: Global, scale: Scale) -> Self
        ensures terms { terms result ≡ 0 }
        ensures taken { has_taken result (aggregate scale) [] };

    /// Of `count` numbers of this scale, where those at or above 0 have the sum `above`, and the
    /// others negated the sum `below`. None where it keeps more of numbers than that.
    fn of_sums(scale: Scale, count: u64, above: u128, below: u128) -> Option<Self>
        ensures terms { IfSome result (λ s. terms s ≡ count) }
        ensures taken { IfSome result
            (λ s. (vs : List Datum) → Summed true_rank count above below vs
            → has_taken s (aggregate scale) vs) };

    /// Takes a value after those that it has.
    fn put(&mut self, value: &Value) -> Result<(), AllocError>
        requires { terms self.old + 1 < 2 ^ 64 }
        ensures terms { terms self.new ≤ terms self.old + 1 }
        ensures taken { OnOk result
            ((aggregate : OfValues) (vs : List Datum) → has_taken self.old aggregate vs
            → has_taken self.new aggregate (vs ++ value.now ∷ [])) };

    /// Takes what another has after what it has itself.
    fn merge(&mut self, other: Self) -> Result<(), AllocError>
        requires { terms self.old + terms other < 2 ^ 64 }
        ensures terms { terms self.new ≤ terms self.old + terms other }
        ensures taken { OnOk result
            ((aggregate : OfValues) (vs ws : List Datum) → has_taken self.old aggregate vs
            → has_taken other aggregate ws → has_taken self.new aggregate (vs ++ ws)) };

    /// The aggregate of the values that it has taken.
    fn value(&self) -> Result<Value, AllocError>
        ensures { IfOk result
            (λ v. (aggregate : OfValues) (vs : List Datum) → has_taken self.now aggregate vs
            → v ≡ aggregate vs) };
}
