//! Written values as SQL writes them.
use crate::writer::TextWriter;
use base_date::CivilDate;
use base_value::{Fault, Value};

/// Appends a text between quotes, each quote in it twice.
pub fn push_quoted(text: &mut TextWriter, plain: &[u8]) {
    text.put_byte(b'\'');
    for byte in plain {
        if *byte == b'\'' {
            text.put_byte(b'\'');
        }
        text.put_byte(*byte);
    }
    text.put_byte(b'\'');
}

/// Appends a date as YYYY-MM-DD, between quotes and after its word.
fn push_date(text: &mut TextWriter, date: CivilDate) {
    text.put(b"date '");
    text.put_last_digits(date.year() as u64, 4);
    text.put_byte(b'-');
    text.put_last_digits(date.month() as u64, 2);
    text.put_byte(b'-');
    text.put_last_digits(date.day() as u64, 2);
    text.put_byte(b'\'');
}

/// Appends a value. No script can write a fault.
pub fn push_literal(text: &mut TextWriter, value: &Value) {
    match value {
        Value::Fault(Fault::TooManyRows) => text.put(b"fault TooManyRows"),
        Value::Fault(Fault::DivideByZero) => text.put(b"fault DivideByZero"),
        Value::Fault(Fault::NumberRange) => text.put(b"fault NumberRange"),
        Value::Number(scale, coefficient) => text.put_decimal(*coefficient, *scale),
        Value::Text(plain) => push_quoted(text, plain.bytes()),
        Value::Date(date) => push_date(text, *date),
        Value::Null => text.put(b"null"),
    }
}
