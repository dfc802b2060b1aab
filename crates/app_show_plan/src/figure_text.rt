//! What the nodes of a plan give, as lines or as objects.
use crate::figures::NodeFigures;
use app_plan_text::{Piece, TextWriter};

/// Writes what each node of a plan gives, and how it finds its pairs where it is a join. The words
/// stand between two nodes; before the number, the rows, the bytes and the time; behind the time;
/// before and behind the way of a join; and at the end.
pub fn put_figures(out: &mut TextWriter, figures: &[NodeFigures], words: &[&[u8]; 9]) {
    for (number, node) in figures.iter().enumerate() {
        if number > 0 {
            out.put(words[0]);
        }
        out.put_all(&[
            Piece::Text(words[1]),
            Piece::Number(number),
            Piece::Text(words[2]),
            Piece::Number(node.rows),
            Piece::Text(words[3]),
            Piece::Number(node.bytes),
            Piece::Text(words[4]),
            Piece::Number(node.micros as usize),
            Piece::Text(words[5]),
        ]);
        if let Some(way) = node.way {
            out.put(words[6]);
            out.put(way.words().as_bytes());
            out.put(words[7]);
        }
        out.put(words[8]);
    }
}
