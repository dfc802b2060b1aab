//! One field of a line.
ghost use Rattle.std.specs.Prelude.{◌≡◌, IfOk, MatchOption, MatchResult, true, false};
ghost use Rattle.base_text.specs.Printable.{first_unprintable};
ghost use Rattle.base_date.specs.Date.{date_of};
ghost use Rattle.base_columns.specs.Fields.{field_value, IsPrintableField};
ghost use Rattle.base_decimal.specs.Written.{decimal_read};
ghost use Rattle.base_value.specs.declared.value.Value.TheVariants.{Number};
ghost use Rattle.base_schema.specs.declared.column.ColumnKind.TheVariants.{Text as TextKind};
ghost use Rattle.base_schema.specs.Kinds.{is_of_kind};
ghost use Rattle.store_file_reader.specs.Field.{column_value, spells_null};
ghost use Rattle.store_file_reader.specs.Field.{kind_field, number_field, text_field, date_field};

use base_columns::Field;
use base_date::CivilDate;
use base_decimal::{Scale, Spelling, read_decimal};
use base_refusals::LineFault;
use base_schema::{ColumnKind, LineColumn};
use base_value::Value;

/// What the bytes between two bars say in a column: null where they spell it and the column may be
/// null, whatever its kind.
pub fn read_field(column: LineColumn, bytes: &[u8]) -> Result<Field<'_>, LineFault>
    ensures value { MatchResult result (λ f. column_value column bytes.now ≡ Ok (field_value f))
        (λ fault. column_value column bytes.now ≡ Err fault) }
    ensures printable { IfOk result IsPrintableField }
{
    if column.nullable && spells_null(bytes) {
        return Ok(Field::Null);
    }
    read_value(column.kind, bytes)
}

/// Whether the bytes are `\N`.
pub fn spells_null(bytes: &[u8]) -> bool
    ensures { result ≡ spells_null bytes.now }
{
    bytes == b"\\N".as_slice()
}

// The value of that kind that the bytes say.
fn read_value(kind: ColumnKind, bytes: &[u8]) -> Result<Field<'_>, LineFault>
    ensures value { MatchResult result (λ f. kind_field kind bytes.now ≡ Ok (field_value f))
        (λ fault. kind_field kind bytes.now ≡ Err fault) }
    ensures printable { IfOk result IsPrintableField }
{
    match kind {
        ColumnKind::Key | ColumnKind::Whole => read_number(kind, Scale::new(0), bytes),
        ColumnKind::Decimal => read_number(kind, Scale::new(2), bytes),
        ColumnKind::Date => read_date(bytes),
        ColumnKind::Text(most) => read_text(most, bytes),
    }
}

// The number that the bytes spell at that scale.
fn read_number(kind: ColumnKind, scale: Scale, bytes: &[u8]) -> Result<Field<'_>, LineFault>
    ensures value { MatchResult result
        (λ f. number_field kind scale (decimal_read bytes.now scale) ≡ Ok (field_value f))
        (λ fault. number_field kind scale (decimal_read bytes.now scale) ≡ Err fault) }
    ensures printable { IfOk result IsPrintableField }
{
    match read_decimal(bytes, scale) {
        Ok(coefficient) => match held_number(kind, scale, coefficient) {
            Some(number) => Ok(Field::Number(scale, number)),
            None => Err(LineFault::NumberTooWide),
        },
        Err(Spelling::TooWide) => Err(LineFault::NumberTooWide),
        Err(Spelling::NotANumber) => Err(LineFault::BadNumber),
    }
}

// The coefficient in 64 bits, where a column of that kind can hold it.
#[tactic(auto, using(crate::proofs::Held::wide_is_not_held))]
fn held_number(kind: ColumnKind, scale: Scale, coefficient: i128) -> Option<i64>
    ensures value { MatchOption result (is_of_kind kind (Number scale coefficient) ≡ false)
        (λ number. number ≡ coefficient) }
    ensures held { MatchOption result (is_of_kind kind (Number scale coefficient) ≡ false)
        (λ number. is_of_kind kind (Number scale coefficient) ≡ true) }
{
    if coefficient.unsigned_abs() >= 1 << 63 {
        return None;
    }
    if !kind.admits(&Value::Number(scale, coefficient)) {
        return None;
    }
    Some(coefficient as i64)
}

// The date that the bytes spell.
fn read_date(bytes: &[u8]) -> Result<Field<'_>, LineFault>
    ensures value { MatchResult result (λ f. date_field (date_of bytes.now) ≡ Ok (field_value f))
        (λ fault. date_field (date_of bytes.now) ≡ Err fault) }
    ensures printable { IfOk result IsPrintableField }
{
    match CivilDate::read(bytes) {
        Ok(date) => Ok(Field::Date(date)),
        Err(_) => Err(LineFault::BadDate),
    }
}

// The text that the bytes are.
fn read_text(most: u8, bytes: &[u8]) -> Result<Field<'_>, LineFault>
    ensures value { MatchResult result
        (λ f. text_field (TextKind most) bytes.now ≡ Ok (field_value f))
        (λ fault. text_field (TextKind most) bytes.now ≡ Err fault) }
    ensures printable { IfOk result IsPrintableField }
{
    match first_unprintable(bytes) {
        Some(_) => Err(LineFault::BadText),
        None if bytes.len() > most as usize => Err(LineFault::TextTooLong),
        None => Ok(Field::Text(bytes)),
    }
}

// The place of the first byte that no text holds.
fn first_unprintable(bytes: &[u8]) -> Option<usize>
    ensures { result ≡ first_unprintable bytes.now }
{
    bytes.iter().position(|byte| !(0x20..=0x7e).contains(byte))
}
