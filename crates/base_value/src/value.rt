//! Values, and what it is for two of them to be identical.
ghost use Rattle.std.specs.Prelude.{◌≡◌, ◌↔◌, IsTrue, IfOk};
ghost use Rattle.base_value.specs.Value.{value_cmp, same_value};

use crate::truth::Fault;
use base_date::CivilDate;
use base_decimal::Scale;
use base_text::Text;
use std::alloc::AllocError;
use std::cmp::Ordering;

/// A value of a row. The derived comparisons are those of identity: null is identical to null, and
/// a fault to the same fault. The derived order is the ascending one of ORDER BY within a column,
/// null last.
#[derive(PartialEq, Eq, PartialOrd, Ord, Hash)]
pub enum Value {
    Fault(Fault),
    /// A coefficient c at a scale s, which stand for c / 10^s.
    Number(Scale, i128),
    Text(Text),
    Date(CivilDate),
    Null,
}

impl Drop for Value {
    #[inline]
    fn drop(self) {
        match self {
            Value::Fault(_) => {}
            Value::Number(_, _) => {}
            Value::Text(kept) => drop(kept),
            Value::Date(_) => {}
            Value::Null => {}
        }
    }
}

// A bag holds its values side by side, so their size is what a row costs.
const _: () = prove!(size_of::<Value>() <= 32);

impl Clone for Value {
    ghost is_clone = { λ v w. w ≡ v };

    fn clone(&self) -> Result<Value, AllocError>
        ensures { IfOk result (λ v. v ≡ self.now) }
    {
        match self {
            Value::Fault(fault) => Ok(Value::Fault(*fault)),
            Value::Number(scale, coefficient) => Ok(Value::Number(*scale, *coefficient)),
            Value::Text(text) => {
                let text = text.clone()?;
                Ok(Value::Text(text))
            }
            Value::Date(date) => Ok(Value::Date(*date)),
            Value::Null => Ok(Value::Null),
        }
    }
}

impl Default for Value {
    ghost use Rattle.base_value.specs.declared.value.Value.TheVariants.{Null};

    ghost is_default = { λ v. v ≡ Null };

    fn default() -> Value {
        Value::Null
    }
}

impl Value {
    /// Whether the two are the same value: of one kind, and for numbers of one scale.
    pub fn is_identical(&self, other: &Value) -> bool
        ensures fact { IsTrue result ↔ (self.now ≡ other.now) }
        ensures test { result ≡ same_value self.now other.now }
    {
        self == other
    }

    /// The ascending order of ORDER BY, in which null comes last.
    pub fn order(&self, other: &Value) -> Ordering
        ensures { result ≡ value_cmp self.now other.now }
    {
        self.cmp(other)
    }
}
