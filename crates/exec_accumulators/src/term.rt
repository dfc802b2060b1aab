//! What each accumulator reads of a value.
ghost use Rattle.std.specs.Prelude.{◌≡◌, ◌≤◌, min, length, ◌∷◌, [], nat_lt};
ghost use Rattle.std.specs.Prelude.{if◌then◌else◌};
ghost use Rattle.base_row_laws.specs.Ranked.{true_rank};
ghost use Rattle.base_value.specs.Truth.{standing_rank};
ghost use Rattle.expr_aggregates.specs.Values.{written, value_rank, is_null, above, below};
ghost use Rattle.expr_aggregates.specs.Values.{number_or_fault};
ghost use Rattle.exec_accumulators.specs.Accumulators.{present};

use base_decimal::{NumberFault, Scale};
use base_value::{Fault, Standing, Value};

// The lesser of a standing and a value's fault.
pub(crate) fn least_with(least: Standing, value: &Value) -> Standing
    ensures { standing_rank result ≡ min (standing_rank least) (value_rank value.now) }
{
    match value {
        Value::Fault(fault) => least.lesser(Standing::AtFault(*fault)),
        _ => least,
    }
}

// Whether a value is null.
pub(crate) fn is_null(value: &Value) -> bool
    ensures { result ≡ is_null value.now }
{
    matches!(value, Value::Null)
}

// 1 for a value that isn't null, 0 for null.
pub(crate) fn terms_of(value: &Value) -> u64
    ensures terms { result ≡ length (present (value.now ∷ [])) }
    ensures within { result ≤ 1 }
{
    match value {
        Value::Null => 0,
        _ => 1,
    }
}

// A number's coefficient where it is above 0, else 0.
pub(crate) fn above(value: &Value) -> u128
    ensures { result ≡ above value.now }
{
    match value {
        Value::Number(_, coefficient) if *coefficient > 0 => *coefficient as u128,
        _ => 0,
    }
}

// How far a number's coefficient is below 0, where it is, else 0.
pub(crate) fn below(value: &Value) -> u128
    ensures { result ≡ below value.now }
{
    match value {
        Value::Number(_, coefficient) if *coefficient < 0 => coefficient.unsigned_abs(),
        _ => 0,
    }
}

// The value, or the fault where a fault is the least standing.
pub(crate) fn unless_fault(least: Standing, value: Value) -> Value
    ensures { result ≡ (if nat_lt (standing_rank least) true_rank then written (standing_rank least)
        else value) }
{
    match least {
        Standing::AtFault(fault) => Value::Fault(fault),
        Standing::AtTrue => value,
    }
}

// A coefficient of a scale, or its fault, as a value.
pub(crate) fn number_or_fault(scale: Scale, coefficient: Result<i128, NumberFault>) -> Value
    ensures { result ≡ number_or_fault scale coefficient }
{
    match coefficient {
        Ok(coefficient) => Value::Number(scale, coefficient),
        Err(NumberFault::NumberRange) => Value::Fault(Fault::NumberRange),
        Err(NumberFault::DivideByZero) => Value::Fault(Fault::DivideByZero),
    }
}
