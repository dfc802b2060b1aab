//! What is shown of a statement, as an object of JSON.
use crate::figure_text::put_figures;
use crate::figures::rows_of;
use crate::query_plan::{FormLines, QueryPlan};
use crate::statement_plan::StatementPlan;
use app_plan_text::{Piece, TextWriter, plan_lines, push_json_lines, push_json_text};
use itoa::Buffer;
use plan_spelling::plan_spelling;
use std::alloc::{AllocError, Global};

/// Writes a comma before all but the first of a list.
fn put_comma(out: &mut TextWriter, place: usize) {
    if place > 0 {
        out.put_byte(b',');
    }
}

/// Writes the objects of forms, with commas between them.
fn put_forms(out: &mut TextWriter, forms: &[FormLines]) {
    for (place, form) in forms.iter().enumerate() {
        put_comma(out, place);
        out.put_all(&[
            Piece::Text(b"{\"form\":\""),
            Piece::Text(form.title.as_bytes()),
            Piece::Text(b"\",\"lines\":"),
        ]);
        push_json_lines(out, form.lines.as_slice());
        out.put_byte(b'}');
    }
}

/// The words around what a node gives, in its object.
const WORDS: [&[u8]; 9] = [
    b",",
    b"{\"node\":",
    b",\"rows\":",
    b",\"bytes\":",
    b",\"microseconds\":",
    b"",
    b",\"way\":\"",
    b"\"",
    b"}",
];

/// Writes numbers of up to 128 bits, with commas between them.
fn put_numbers(out: &mut TextWriter, numbers: &[u128]) {
    for (place, number) in numbers.iter().enumerate() {
        put_comma(out, place);
        let mut buffer = Buffer::new();
        out.put(buffer.format(*number).as_bytes());
    }
}

/// Writes the fields of a query: its forms, its flat plan, what the nodes of that give, and its
/// spelling.
fn put_query(alloc: Global, out: &mut TextWriter, plan: &QueryPlan) -> Result<(), AllocError> {
    let nodes = plan.plan.nodes.as_slice();
    let rows = rows_of(alloc, plan.figures.as_slice())?;
    let lines = plan_lines(alloc, nodes, rows.as_slice())?;
    let numbers = plan_spelling(alloc, nodes)?;
    out.put(b",\"answer\":\"query\",\"forms\":[");
    put_forms(out, plan.forms.as_slice());
    out.put(b"],\"plan\":");
    push_json_lines(out, lines.as_slice());
    out.put(b",\"figures\":[");
    put_figures(out, plan.figures.as_slice(), &WORDS);
    out.put(b"],\"spelling\":[");
    put_numbers(out, numbers.as_slice());
    out.put_byte(b']');
    Ok(())
}

/// Writes what becomes of a statement, as fields.
fn put_fields(alloc: Global, out: &mut TextWriter, plan: &StatementPlan) -> Result<(), AllocError> {
    match plan {
        StatementPlan::Query(plan) => return put_query(alloc, out, plan),
        StatementPlan::Done => out.put(b",\"answer\":\"done\""),
        StatementPlan::Refresh => out.put(b",\"answer\":\"refresh\""),
        StatementPlan::Refused(why) => out.put_all(&[
            Piece::Text(b",\"answer\":\"refused\",\"number\":"),
            Piece::Number(why.number() as usize),
            Piece::Text(b",\"name\":\""),
            Piece::Text(why.name().as_bytes()),
            Piece::Text(b"\""),
        ]),
    }
    Ok(())
}

/// Appends what is shown of a statement of this number, as an object on a line of its own.
pub fn push_statement_object(
    alloc: Global,
    text: &mut Vec<u8>,
    number: usize,
    written: &[u8],
    plan: &StatementPlan,
) -> Result<(), AllocError> {
    let mut object = TextWriter::new(alloc);
    object.put_all(&[
        Piece::Text(b"{\"statement\":"),
        Piece::Number(number),
        Piece::Text(b",\"text\":"),
    ]);
    push_json_text(&mut object, written);
    put_fields(alloc, &mut object, plan)?;
    object.put(b"}\n");
    object.append_to(text)
}
