//! The lines of a statement.
ghost use Rattle.std.specs.Prelude.{◌≡◌, ◌++◌, [], length, if◌then◌else◌, IfOk, IsTrue, OnOk};
ghost use Rattle.app_result_text.specs.Answer.{answer_text, header, rows_have_no_fault};
ghost use Rattle.app_sessions.specs.Outcomes.{is_printable, outcome_text};

use crate::outcome::Outcome;
use app_result_text::{
    accepted_text, done_text, header, push_row, refusal_text, version_refusal_text,
};
use exec_ordered_rows::OrderedRows;
use std::alloc::{AllocError, Global};

/// Appends the rows of an answer, in order.
#[tactic(auto, using(crate::proofs::RowTexts::answers))]
fn push_rows(text: &mut Vec<u8>, rows: &OrderedRows) -> Result<(), AllocError>
    requires { IsTrue (rows_have_no_fault rows.now) }
    ensures { OnOk result (text.new.items ≡ text.old.items ++ answer_text rows.now) }
{
    for i in 0..rows.len() {
        let (batch, place) = rows.at(i);
        push_row(text, batch, place)?;
    }
    Ok(())
}

/// The lines of an answer of these rows. The rows can be left out.
fn rows_text(
    alloc: Global,
    shows_rows: bool,
    number: u64,
    version: u64,
    rows: &OrderedRows,
) -> Result<Vec<u8>, AllocError>
    requires { IsTrue (rows_have_no_fault rows.now) }
    ensures { IfOk result (λ text. text.items ≡ header number version (length rows.now)
        ++ (if shows_rows then answer_text rows.now else [])) }
{
    let mut text = header(alloc, number, version, rows.len() as u64)?;
    if shows_rows {
        push_rows(&mut text, rows)?;
    }
    Ok(text)
}

/// The lines of a statement of this number, in which this version stands.
pub(crate) fn outcome_text(
    alloc: Global,
    shows_rows: bool,
    number: u64,
    version: u64,
    outcome: &Outcome,
) -> Result<Vec<u8>, AllocError>
    requires { IsTrue (is_printable outcome.now) }
    ensures { IfOk result (λ text. text.items
        ≡ outcome_text shows_rows number version outcome.now) }
{
    match outcome {
        Outcome::Rows(rows) => rows_text(alloc, shows_rows, number, version, rows),
        Outcome::Done => done_text(alloc, number, version),
        Outcome::Accepted(after) => accepted_text(alloc, number, version, *after),
        Outcome::Refused(why) => refusal_text(alloc, number, version, why),
        Outcome::VersionRefused(why) => version_refusal_text(alloc, number, version, *why),
    }
}
