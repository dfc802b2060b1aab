//! What is shown of a script's statements.
ghost use Rattle.std.specs.Prelude.{◌≡◌, [], IfOk, OnOk};
ghost use Rattle.app_sessions.specs.Views.{views_after};
ghost use Rattle.app_show_plan.specs.Shown.{AreShown, EndsAsShown, EndsInForm, ShowsScript};

use crate::lines::push_statement_lines;
use crate::objects::push_statement_object;
use crate::statement_plan::{StatementPlan, statement_plan};
use crate::written::written_statements;
use app_sessions::expand;
use plan_algebra::Tables;
use plan_planner::SessionViews;
use sql_ast::Statement;
use sqlite_items::Items;
use std::alloc::{AllocError, Global};
use std::thread::Threads;
use std::time::Clock;

/// How plans are written.
#[derive(Clone, Copy)]
pub enum PlanForm {
    /// As lines for readers.
    Lines,
    /// As JSON, an object a line.
    Objects,
}

/// What is shown of a script, or of one of its statements.
#[derive(Drop)]
pub struct ScriptPlans {
    /// The text.
    pub text: Vec<u8>,
    /// Whether no statement is refused.
    pub is_clean: bool,
}

/// Appends what is shown of a statement of this number.
fn push_plan(
    alloc: Global,
    text: &mut Vec<u8>,
    form: PlanForm,
    number: usize,
    written: &[u8],
    plan: &StatementPlan,
) -> Result<(), AllocError>
    ensures { OnOk result (EndsInForm form plan.now text.new.items) }
{
    match form {
        PlanForm::Lines => push_statement_lines(alloc, text, number, written, plan),
        PlanForm::Objects => push_statement_object(alloc, text, number, written, plan),
    }
}

/// What is shown of a statement of this number over these views, to which it does what it says.
/// Lines of a query end with the spelling of a plan of it.
fn shown_statement<R: Threads + Sync + Clock, T: Tables>(
    rt: &R,
    alloc: Global,
    form: PlanForm,
    number: usize,
    written: &[u8],
    statement: &Statement,
    views: &mut SessionViews,
    tables: Option<&T>,
) -> Result<ScriptPlans, AllocError>
    ensures shown { IfOk result (λ one.
        EndsAsShown form statement.now views.old one.text.items one.is_clean) }
    ensures views { OnOk result (views.new ≡ views_after views.old statement.now) }
{
    let plan = statement_plan(rt, alloc, statement, views, tables)?;
    let mut text = Vec::new(alloc);
    push_plan(alloc, &mut text, form, number, written, &plan)?;
    Ok(ScriptPlans {
        text,
        is_clean: plan.is_accepted(),
    })
}

/// The text that is written of the statement at this place; none where there is no such text.
fn written_at(written: &[Vec<u8>], place: usize) -> &[u8] {
    match written.get(place) {
        Some(text) => text.as_slice(),
        None => &[],
    }
}

/// What is shown of statements, one after the other, which are numbered from 1, from no view on.
fn shown_steps<R: Threads + Sync + Clock, T: Tables>(
    rt: &R,
    alloc: Global,
    form: PlanForm,
    written: &[Vec<u8>],
    steps: &[Statement],
    tables: Option<&T>,
) -> Result<ScriptPlans, AllocError>
    ensures { IfOk result (λ all. AreShown form [] steps.now all.text.items all.is_clean) }
{
    let mut views = SessionViews::new(alloc);
    let mut text = Vec::new(alloc);
    let mut is_clean = true;
    for (place, step) in steps.iter().enumerate() {
        let number = place.saturating_add(1);
        let own = written_at(written, place);
        let one = shown_statement(rt, alloc, form, number, own, step, &mut views, tables)?;
        text.extend_from_slice(one.text.as_slice())?;
        is_clean &= one.is_clean;
    }
    Ok(ScriptPlans { text, is_clean })
}

/// What is shown of the statements that a script's stand for, which are numbered from 1: of each
/// its text in the script, and what becomes of it. A run stands for the statements of its filled
/// text, and refreshes aren't tried. Where tables are given, each plan is run over them, whatever
/// version its query names.
///
/// # Errors
///
/// Memory ran out.
pub fn script_plans<R: Threads + Sync + Clock, T: Tables>(
    rt: &R,
    alloc: Global,
    script: &[u8],
    statements: Items<Statement>,
    form: PlanForm,
    tables: Option<&T>,
) -> Result<ScriptPlans, AllocError>
    ensures { IfOk result (λ all. ShowsScript form statements all.text.items all.is_clean) }
{
    let written = written_statements(alloc, script)?;
    let steps = expand(alloc, statements)?;
    let all = shown_steps(
        rt,
        alloc,
        form,
        written.as_slice(),
        steps.as_slice(),
        tables,
    )?;
    Ok(all)
}
