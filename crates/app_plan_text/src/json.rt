//! Lines as JSON.
use crate::line::PlanLine;
use crate::writer::{Piece, TextWriter};

/// The digits of bytes in texts of JSON.
const DIGITS: &[u8; 16] = b"0123456789abcdef";

/// Appends a text of JSON, between quotes. A byte that is no printable ASCII is escaped by its
/// number: `\u00e9`.
pub fn push_json_text(text: &mut TextWriter, plain: &[u8]) {
    text.put_byte(b'"');
    for byte in plain {
        match *byte {
            b'"' => text.put(b"\\\""),
            b'\\' => text.put(b"\\\\"),
            b'\n' => text.put(b"\\n"),
            b' '..=b'~' => text.put_byte(*byte),
            other => {
                text.put(b"\\u00");
                text.put_byte(DIGITS[(other >> 4) as usize]);
                text.put_byte(DIGITS[(other & 15) as usize]);
            }
        }
    }
    text.put_byte(b'"');
}

/// Appends a list of numbers.
fn push_json_numbers(text: &mut TextWriter, numbers: &[usize]) {
    text.put_byte(b'[');
    for (place, number) in numbers.iter().enumerate() {
        if place > 0 {
            text.put_byte(b',');
        }
        text.put_number(*number);
    }
    text.put_byte(b']');
}

/// Appends a list of names.
fn push_json_names(text: &mut TextWriter, names: &[Vec<u8>]) {
    text.put_byte(b'[');
    for (place, name) in names.iter().enumerate() {
        if place > 0 {
            text.put_byte(b',');
        }
        push_json_text(text, name.as_slice());
    }
    text.put_byte(b']');
}

/// Appends the object of a line, with the rows of its node where they were counted.
fn push_json_line(text: &mut TextWriter, line: &PlanLine) {
    text.put_all(&[
        Piece::Text(b"{\"node\":"),
        Piece::Number(line.number),
        Piece::Text(b",\"depth\":"),
        Piece::Number(line.depth),
        Piece::Text(b",\"kind\":"),
    ]);
    push_json_text(text, line.kind.as_slice());
    text.put(b",\"inputs\":");
    push_json_numbers(text, line.inputs.as_slice());
    text.put(b",\"detail\":");
    push_json_text(text, line.detail.as_slice());
    text.put(b",\"columns\":");
    push_json_names(text, line.columns.as_slice());
    if let Some(count) = line.rows {
        text.put_all(&[Piece::Text(b",\"rows\":"), Piece::Number(count)]);
    }
    text.put_byte(b'}');
}

/// Appends the list of lines.
pub fn push_json_lines(text: &mut TextWriter, lines: &[PlanLine]) {
    text.put_byte(b'[');
    for (place, line) in lines.iter().enumerate() {
        if place > 0 {
            text.put_byte(b',');
        }
        push_json_line(text, line);
    }
    text.put_byte(b']');
}
