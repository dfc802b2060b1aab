//! A field of a row that is put together: a value whose text lies elsewhere.
ghost use Rattle.std.specs.Prelude.{◌≡◌, IfOk, IfSome};
ghost use Rattle.base_columns.specs.Fields.{field_value, IsPrintableField};

use base_date::CivilDate;
use base_decimal::Scale;
use base_text::Text;
use base_value::Value;
use std::alloc::{AllocError, Global};

/// A value that takes no memory of its own.
#[derive(Clone, Copy)]
pub enum Field<'a> {
    /// A coefficient of a scale.
    Number(Scale, i64),
    Date(CivilDate),
    /// The printable bytes of a text.
    Text(&'a [u8]),
    Null,
}

/// The value that a field stands for.
pub(crate) fn value_of(alloc: Global, field: &Field<'_>) -> Result<Value, AllocError>
    requires { IsPrintableField field.now }
    ensures { IfOk result (λ v. v ≡ field_value field.now) }
{
    match field {
        Field::Number(scale, number) => Ok(Value::Number(*scale, i128::from(*number))),
        Field::Date(date) => Ok(Value::Date(*date)),
        Field::Text(bytes) => {
            let text = Text::of_printable(alloc, bytes)?;
            Ok(Value::Text(text))
        }
        Field::Null => Ok(Value::Null),
    }
}

/// A value as a field, if it is null, a text, a date or a number of 64 bits.
pub(crate) fn field_of(value: &Value) -> Option<Field<'_>>
    ensures value { IfSome result (λ f. field_value f ≡ value.now) }
    ensures printable { IfSome result IsPrintableField }
{
    match value {
        Value::Number(scale, coefficient) => match i64::try_from(*coefficient) {
            Ok(number) => Some(Field::Number(*scale, number)),
            Err(_) => None,
        },
        Value::Date(date) => Some(Field::Date(*date)),
        Value::Text(text) => Some(Field::Text(text.bytes())),
        Value::Null => Some(Field::Null),
        Value::Fault(_) => None,
    }
}
