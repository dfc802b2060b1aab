//! The plans of a script's statements, as they are printed. No statement is answered.
ghost use Rattle.std.specs.Prelude.{◌≡◌, ◌++◌, ℕ, List, [], IfOk, OnOk};
ghost use Rattle.base_refusals.specs.declared.statement.Refusal.TheVariants.{Bind};
ghost use Rattle.sql_ast.specs.declared.statement.Statement.{Statement};
ghost use Rattle.sql_binder.specs.Binding.{bound_query};
ghost use Rattle.app_sessions.specs.Expansion.{ExpandAll};
ghost use Rattle.app_sessions.specs.Explained.{AreExplained, IsExplained, IsQueryExplained};
ghost use Rattle.app_sessions.specs.Explained.{are_taken, is_refused, is_unbound, numbered};
ghost use Rattle.app_sessions.specs.Explained.{refused_line, short_line};
ghost use Rattle.app_sessions.specs.Outcomes.{is_refusal};
ghost use Rattle.app_sessions.specs.Views.{views_after};

use crate::expansion::expand;
use crate::outcome::Outcome;
use crate::runs::run_outcome;
use crate::views::{drop_view, make_view};
use app_result_text::push_refusal;
use base_refusals::Refusal;
use itoa::Buffer;
use plan_planner::{SessionViews, plan, plan_text};
use sql_ast::{Query, Statement};
use sql_binder_steps::BindFault;
use sqlite_items::Items;
use std::alloc::{AllocError, Global};

/// The lines of a script's statements, and whether none of them is a refusal.
#[derive(Drop)]
pub struct Explained {
    /// The lines.
    pub text: Vec<u8>,
    /// Whether no statement is refused.
    pub is_clean: bool,
}

/// Appends a text after the number of its statement.
fn push_numbered(text: &mut Vec<u8>, number: u64, line: &[u8]) -> Result<(), AllocError>
    ensures { OnOk result (text.new.items ≡ text.old.items ++ numbered number line.now) }
{
    let mut buffer = Buffer::new();
    text.push(b'[')?;
    text.extend_from_slice(buffer.format(number).as_bytes())?;
    text.extend_from_slice(b"] ")?;
    text.extend_from_slice(line)
}

/// Appends the line of a refused statement.
fn push_refused(
    alloc: Global,
    text: &mut Vec<u8>,
    number: u64,
    why: &Refusal,
) -> Result<(), AllocError>
    ensures { OnOk result (text.new.items ≡ text.old.items ++ refused_line number why.now) }
{
    let mut line = Vec::new(alloc);
    push_refusal(&mut line, why)?;
    line.push(b'\n')?;
    push_numbered(text, number, line.as_slice())
}

/// Appends the line of a statement that is neither a query nor a refresh, and answers whether it is
/// refused.
fn push_short(
    alloc: Global,
    text: &mut Vec<u8>,
    number: u64,
    outcome: &Outcome,
) -> Result<bool, AllocError>
    ensures line { OnOk result (text.new.items ≡ text.old.items ++ short_line number outcome.now) }
    ensures refused { IfOk result (λ refused. refused ≡ is_refusal outcome.now) }
{
    match outcome {
        Outcome::Refused(why) => push_refused(alloc, text, number, why)?,
        _ => push_numbered(text, number, b"done\n")?,
    }
    Ok(outcome.is_refusal())
}

/// Appends the lines of a query's plan, or why the query is not bound, and answers whether it is
/// refused.
fn push_query(
    alloc: Global,
    text: &mut Vec<u8>,
    number: u64,
    query: &Query,
    views: &SessionViews,
) -> Result<bool, AllocError>
    ensures lines { OnOk result ((lines : List ℕ)
        × IsQueryExplained number (bound_query query.now views.now) lines
        × (text.new.items ≡ text.old.items ++ lines)) }
    ensures refused { IfOk result (λ refused. refused
        ≡ is_unbound (bound_query query.now views.now)) }
{
    match plan(alloc, query, views) {
        Ok(plan) => {
            let lines = plan_text(alloc, &plan)?;
            push_numbered(text, number, lines.as_slice())?;
            Ok(false)
        }
        Err(BindFault::Refused(why)) => {
            push_refused(alloc, text, number, &Refusal::Bind(why))?;
            Ok(true)
        }
        Err(BindFault::OutOfMemory) => Err(AllocError),
    }
}

/// Appends the lines of a statement, does to the views what it does, and answers whether it is
/// refused.
fn push_statement(
    alloc: Global,
    text: &mut Vec<u8>,
    number: u64,
    statement: &Statement,
    views: &mut SessionViews,
) -> Result<bool, AllocError>
    ensures lines { OnOk result ((lines : List ℕ)
        × IsExplained number views.old statement.now lines
        × (text.new.items ≡ text.old.items ++ lines)) }
    ensures refused { IfOk result (λ refused. refused
        ≡ is_refused views.old statement.now) }
    ensures views { OnOk result (views.new ≡ views_after views.old statement.now) }
{
    match statement {
        Statement::Query(query) => push_query(alloc, text, number, query, views),
        Statement::CreateView(name, names, query) => {
            let outcome = make_view(alloc, views, name, names.as_slice(), query)?;
            push_short(alloc, text, number, &outcome)
        }
        Statement::DropView(name) => {
            let outcome = drop_view(views, name);
            push_short(alloc, text, number, &outcome)
        }
        Statement::Refresh(_, _) => {
            push_numbered(text, number, b"refresh\n")?;
            Ok(false)
        }
        Statement::Run(template, values) => {
            let outcome = run_outcome(alloc, *template, values.as_slice())?;
            push_short(alloc, text, number, &outcome)
        }
    }
}

/// The lines of statements, numbered from 1.
fn explain_steps(alloc: Global, steps: &[Statement]) -> Result<Explained, AllocError>
    ensures lines { IfOk result (λ e. AreExplained 1 [] steps.now e.text.items) }
    ensures clean { IfOk result (λ e. e.is_clean ≡ are_taken [] steps.now) }
{
    let mut views = SessionViews::new(alloc);
    let mut text = Vec::new(alloc);
    let mut is_clean = true;
    for (place, statement) in steps.iter().enumerate() {
        let is_refused = push_statement(alloc, &mut text, place as u64 + 1, statement, &mut views)?;
        is_clean &= !is_refused;
    }
    Ok(Explained { text, is_clean })
}

/// The lines of the statements that these stand for: of each query those of its plan, of each other
/// statement its line. A run stands for the statements of its filled text, and views are those of
/// the statements before.
///
/// # Errors
///
/// Memory ran out.
pub fn explain(alloc: Global, statements: Items<Statement>) -> Result<Explained, AllocError>
    ensures { IfOk result (λ e. (steps : List Statement) × ExpandAll statements steps
        × AreExplained 1 [] steps e.text.items × (e.is_clean ≡ are_taken [] steps)) }
{
    let steps = expand(alloc, statements)?;
    let explained = explain_steps(alloc, steps.as_slice())?;
    Ok(explained)
}
