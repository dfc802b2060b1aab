//! Columns and their kinds, and which values they can hold.
ghost use Rattle.std.specs.Prelude.{◌≡◌};
ghost use Rattle.base_schema.specs.Kinds.{is_of_kind, can_hold};

use base_value::Value;

/// What a column holds.
#[derive(Clone, Copy, Debug, PartialEq, Eq, PartialOrd, Ord, Hash)]
pub enum ColumnKind {
    /// A key: a number of scale 0, from 0 to 2^63 - 1.
    Key,
    /// Another whole number: of scale 0, its absolute value at most 2^63 - 1.
    Whole,
    /// A decimal of scale 2, the absolute value of its coefficient at most 2^63 - 1.
    Decimal,
    /// A date.
    Date,
    /// A text of at most n bytes.
    Text(u8),
}

impl ColumnKind {
    /// Whether the value is of this kind. No null and no fault is.
    pub fn admits(self, value: &Value) -> bool
        ensures { result ≡ is_of_kind self value.now }
    {
        match (self, value) {
            (ColumnKind::Key, Value::Number(scale, c)) => {
                scale.places() == 0 && *c >= 0 && c.unsigned_abs() < 1 << 63
            }
            (ColumnKind::Whole, Value::Number(scale, c)) => {
                scale.places() == 0 && c.unsigned_abs() < 1 << 63
            }
            (ColumnKind::Decimal, Value::Number(scale, c)) => {
                scale.places() == 2 && c.unsigned_abs() < 1 << 63
            }
            (ColumnKind::Date, Value::Date(_)) => true,
            (ColumnKind::Text(most), Value::Text(text)) => text.bytes().len() <= most as usize,
            _ => false,
        }
    }
}

/// A column: the kind of its values, and whether it may be null.
#[derive(Clone, Copy, Debug, PartialEq, Eq)]
pub struct LineColumn {
    /// The kind of its values.
    pub kind: ColumnKind,
    /// Whether it may be null.
    pub nullable: bool,
}

impl LineColumn {
    /// Whether the column can hold the value: one of its kind, or null where it may be null. It
    /// holds no fault.
    pub fn admits(&self, value: &Value) -> bool
        ensures { result ≡ can_hold self.now value.now }
    {
        self.nullable && matches!(value, Value::Null) || self.kind.admits(value)
    }
}
