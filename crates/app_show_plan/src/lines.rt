//! What is shown of a statement, as lines for readers.
ghost use Rattle.std.specs.Prelude.{◌≡◌, ◌++◌, List, OnOk, codes};
ghost use Rattle.app_plan_text.specs.Lines.{AreLinesFrom, lines_text};
ghost use Rattle.app_plan_text.specs.declared.line.PlanLine.{PlanLine};
ghost use Rattle.plan_spelling.specs.Plans.{EndsWithPlan};
ghost use Rattle.app_show_plan.specs.Shown.{EndsWithItsPlan};

use crate::figure_text::put_figures;
use crate::figures::{NodeFigures, rows_of};
use crate::query_plan::{FormLines, QueryPlan};
use crate::statement_plan::StatementPlan;
use app_plan_text::{Piece, PlanLine, TextWriter, plan_lines, push_lines};
use app_result_text::push_refusal;
use base_refusals::Refusal;
use plan_algebra::Node;
use plan_spelling::push_plan;
use std::alloc::{AllocError, Global};

/// Appends a statement's number, a word, and the statement's text.
fn push_head<'x>(
    alloc: Global,
    text: &mut Vec<u8>,
    number: usize,
    word: &'x [u8],
    written: &'x [u8],
) -> Result<(), AllocError> {
    let mut head = TextWriter::new(alloc);
    head.put_all(&[
        Piece::Text(b"["),
        Piece::Number(number),
        Piece::Text(b"] "),
        Piece::Text(word),
        Piece::Text(b"\n"),
        Piece::Text(written),
        Piece::Text(b"\n"),
    ]);
    head.append_to(text)
}

/// Appends forms, one after the other: of each its title and its lines.
fn push_forms(text: &mut Vec<u8>, forms: &[FormLines]) -> Result<(), AllocError> {
    for form in forms {
        text.extend_from_slice(form.title.as_bytes())?;
        text.push(b'\n')?;
        push_lines(text, form.lines.as_slice())?;
    }
    Ok(())
}

/// Appends the title of a flat plan and its lines.
fn push_plan_lines(text: &mut Vec<u8>, lines: &[PlanLine]) -> Result<(), AllocError>
    ensures { OnOk result
        (text.new.items ≡ text.old.items ++ codes "flat plan\n" ++ lines_text lines.now) }
{
    text.extend_from_slice(b"flat plan\n")?;
    push_lines(text, lines)
}

/// Appends a flat plan: a line for each node, with its number, its kind and the nodes that it
/// reads.
fn push_flat_plan(
    alloc: Global,
    text: &mut Vec<u8>,
    nodes: &[Node],
    counts: &[usize],
) -> Result<(), AllocError>
    ensures { OnOk result ((lines : List PlanLine) × AreLinesFrom 0 nodes.now lines
        × (text.new.items ≡ text.old.items ++ codes "flat plan\n" ++ lines_text lines)) }
{
    let lines = plan_lines(alloc, nodes, counts)?;
    push_plan_lines(text, lines.as_slice())?;
    Ok(())
}

/// The words around what a node gives, in lines.
const WORDS: [&[u8]; 9] = [
    b"",
    b"  ",
    b": ",
    b" rows, ",
    b" bytes, ",
    b" microseconds",
    b", by ",
    b"",
    b"\n",
];

/// Appends what each node of a plan gives, where there are tables.
fn push_figures(
    alloc: Global,
    text: &mut Vec<u8>,
    figures: &[NodeFigures],
) -> Result<(), AllocError> {
    if figures.is_empty() {
        return Ok(());
    }
    let mut out = TextWriter::new(alloc);
    out.put(b"figures of the nodes, each with the time from the first one on\n");
    put_figures(&mut out, figures, &WORDS);
    out.append_to(text)
}

/// Appends what is shown of a query before the spelling of its plan.
fn push_forms_and_plan(
    alloc: Global,
    text: &mut Vec<u8>,
    plan: &QueryPlan,
) -> Result<(), AllocError> {
    push_forms(text, plan.forms.as_slice())?;
    let rows = rows_of(alloc, plan.figures.as_slice())?;
    push_flat_plan(alloc, text, plan.plan.nodes.as_slice(), rows.as_slice())?;
    push_figures(alloc, text, plan.figures.as_slice())
}

/// Appends what is shown of a query; at the end the spelling of its plan, which no other plan has.
fn push_query(
    alloc: Global,
    text: &mut Vec<u8>,
    number: usize,
    written: &[u8],
    plan: &QueryPlan,
) -> Result<(), AllocError>
    ensures { OnOk result (EndsWithPlan plan.now.plan.nodes text.new.items) }
{
    push_head(alloc, text, number, b"query", written)?;
    push_forms_and_plan(alloc, text, plan)?;
    push_plan(alloc, text, plan.plan.nodes.as_slice())
}

/// Appends what is shown of a refused statement.
fn push_refused(
    alloc: Global,
    text: &mut Vec<u8>,
    number: usize,
    written: &[u8],
    why: &Refusal,
) -> Result<(), AllocError> {
    let mut refusal = Vec::new(alloc);
    push_refusal(&mut refusal, why)?;
    push_head(alloc, text, number, refusal.as_slice(), written)
}

/// Appends what is shown of a statement of this number, as lines; of a query the spelling of its
/// plan at the end.
pub fn push_statement_lines(
    alloc: Global,
    text: &mut Vec<u8>,
    number: usize,
    written: &[u8],
    plan: &StatementPlan,
) -> Result<(), AllocError>
    ensures { OnOk result (EndsWithItsPlan plan.now text.new.items) }
{
    match plan {
        StatementPlan::Query(plan) => push_query(alloc, text, number, written, plan),
        StatementPlan::Done => push_head(alloc, text, number, b"done", written),
        StatementPlan::Refresh => push_head(alloc, text, number, b"refresh", written),
        StatementPlan::Refused(why) => push_refused(alloc, text, number, written, why),
    }
}
