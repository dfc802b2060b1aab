//! Lines and columns of a script.
use app_plan_text::{Piece, TextWriter};
use std::alloc::{AllocError, Global};

/// The line of a byte and its place in the line, both counted from 1.
fn line_and_column(text: &[u8], byte: usize) -> (usize, usize) {
    let mut line: usize = 1;
    let mut column: usize = 1;
    for (place, other) in text.iter().enumerate() {
        if place < byte {
            column = column.saturating_add(1);
            if *other == b'\n' {
                line = line.saturating_add(1);
                column = 1;
            }
        }
    }
    (line, column)
}

/// The line and the column of a byte, on a line of their own: `line 2 column 8`.
pub fn place_line(alloc: Global, script: &[u8], byte: usize) -> Result<Vec<u8>, AllocError> {
    let (line, column) = line_and_column(script, byte);
    let mut text = TextWriter::new(alloc);
    text.put_all(&[
        Piece::Text(b"line "),
        Piece::Number(line),
        Piece::Text(b" column "),
        Piece::Number(column),
        Piece::Text(b"\n"),
    ]);
    text.finish()
}
