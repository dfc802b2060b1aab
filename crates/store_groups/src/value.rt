//! What a value adds to a cell.
ghost use Rattle.std.specs.Prelude.{◌≡◌};
ghost use Rattle.base_value.specs.Truth.{standing_rank};
ghost use Rattle.expr_aggregates.specs.Values.{is_null, value_rank};
ghost use Rattle.store_groups.specs.Groups.{term_of};

use base_value::{Standing, Value};

/// A coefficient, 0 for what is no number.
pub(crate) fn term_of(value: &Value) -> i128
    ensures { result ≡ term_of value.now }
{
    match value {
        Value::Number(_, coefficient) => *coefficient,
        _ => 0,
    }
}

/// Whether a value is null.
pub(crate) fn is_null(value: &Value) -> bool
    ensures { result ≡ is_null value.now }
{
    matches!(value, Value::Null)
}

/// How a value stands.
pub(crate) fn standing_of(value: &Value) -> Standing
    ensures { standing_rank result ≡ value_rank value.now }
{
    match value {
        Value::Fault(fault) => Standing::AtFault(*fault),
        _ => Standing::AtTrue,
    }
}
