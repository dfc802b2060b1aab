//! Reading the kept views of a job.
ghost use Rattle.std.specs.Prelude.{◌≡◌, ◌≤◌, ◌<◌, ◌+◌, IfOk, OnOk, Some, is_some, length, map};
ghost use Rattle.std.specs.Prelude.{option_map, slice_get, true};
ghost use Rattle.app_job_file.specs.Files.{keep_parts, most_keeps};
ghost use Rattle.app_inputs.specs.FilesAfter.{FilesAfterInput};
ghost use Rattle.app_inputs.specs.Views.{Finds};
ghost use Rattle.plan_kept_queries.specs.Forms.{is_kept_block};
ghost use Rattle.plan_planner.specs.Made.{kept_view};
ghost use Rattle.sql_binder_steps.specs.declared.view.View.{View as BoundView};
ghost use Rattle.app_run.specs.JobKeeps.{AreKeeps, PutsKeep, is_bare, kept_block, kept_of};
ghost use Rattle.app_run.specs.JobKeeps.{view_of_keep};
ghost use Rattle.app_run.specs.JobViews.{AddsKeep};

use app_inputs::{InputError, InputFault, read_statements, refusal_of};
use app_job_file::{JobRefusal, Keep, RefusedLine};
use app_jobs::JobKeeps;
use base_io::Files;
use plan_algebra::KeptPlan;
use plan_kept_queries::{KeptPlanError, plan_of_block};
use plan_planner::SessionViews;
use sql_ast::{Block, Name, Query, Statement};
use sql_binder_steps::{BindFault, View};
use std::alloc::{AllocError, Global};
use std::sync::Arc;

/// Whether a query is without WITH, ORDER BY, row limit and version.
fn is_bare(query: &Query) -> bool
    ensures { result ≡ is_bare query.now }
{
    query.with_queries.is_empty()
        && query.order.is_empty()
        && query.limit.is_none()
        && query.version.is_none()
}

/// The block of a script that is one such query alone.
fn kept_block(statements: &[Statement]) -> Option<&Block>
    ensures { option_map (λ block. block.now) result ≡ kept_block statements.now }
{
    let [Statement::Query(query)] = statements else {
        return None;
    };
    if is_bare(query) {
        Some(&query.block)
    } else {
        None
    }
}

/// The plan of the query of the view at a place; none where its rows can't be kept.
fn plan_at(alloc: Global, views: &[View], place: usize) -> Result<Option<KeptPlan>, AllocError>
    ensures { (v : BoundView) → slice_get views.now place ≡ Some v
        → IfOk result (λ plan. is_some plan ≡ is_kept_block v.block) }
{
    let Some(view) = views.get(place) else {
        return Ok(None);
    };
    match plan_of_block(alloc, view.block.get()) {
        Ok(plan) => Ok(Some(plan)),
        Err(KeptPlanError::NotKept) => Ok(None),
        Err(KeptPlanError::OutOfMemory) => Err(AllocError),
    }
}

/// Adds the plan of the first view that has none yet; `false` where its rows can't be kept.
fn put_plan(alloc: Global, keeps: &mut JobKeeps) -> Result<bool, AllocError>
    ensures views { keeps.new.views ≡ keeps.old.views }
    ensures kept { (v : BoundView)
        → slice_get keeps.old.views (length keeps.old.plans.items) ≡ Some v
        → IfOk result (λ is_kept. is_kept ≡ is_kept_block v.block) }
    ensures plans { IfOk result (λ is_kept. is_kept ≡ true
        → length keeps.new.plans.items ≡ length keeps.old.plans.items + 1) }
{
    let place = keeps.plans.len();
    match plan_at(alloc, keeps.views.as_slice(), place)? {
        Some(plan) => {
            let share = Arc::new(alloc, plan)?;
            keeps.plans.push(share)?;
            Ok(true)
        }
        None => Ok(false),
    }
}

/// Adds the kept view of a query under this number; `false` where its rows can't be kept.
fn put_keep(
    alloc: Global,
    number: u32,
    keeps: &mut JobKeeps,
    name: &Name,
    query: &Block,
) -> Result<bool, AllocError>
    requires { length keeps.old.views ≡ length keeps.old.plans.items }
    ensures puts { IfOk result (PutsKeep keeps.old.views keeps.new.views
        (kept_of (kept_view number name.now query.now))) }
    ensures plans { IfOk result (λ is_kept. is_kept ≡ true
        → length keeps.new.plans.items ≡ length keeps.old.plans.items + 1) }
{
    match keeps.views.keep(alloc, number, name, query) {
        Ok(()) => put_plan(alloc, keeps),
        Err(BindFault::Refused(_)) => Ok(false),
        Err(BindFault::OutOfMemory) => Err(AllocError),
    }
}

/// Adds the kept view of a script under this number; `false` where the script has no query whose
/// rows can be kept.
fn put_script(
    alloc: Global,
    number: u32,
    keeps: &mut JobKeeps,
    name: &Name,
    statements: &[Statement],
) -> Result<bool, AllocError>
    requires { length keeps.old.views ≡ length keeps.old.plans.items }
    ensures puts { IfOk result (PutsKeep keeps.old.views keeps.new.views
        (view_of_keep number name.now statements.now)) }
    ensures plans { IfOk result (λ is_kept. is_kept ≡ true
        → length keeps.new.plans.items ≡ length keeps.old.plans.items + 1) }
{
    match kept_block(statements) {
        Some(query) => put_keep(alloc, number, keeps, name, query),
        None => Ok(false),
    }
}

/// Reads the kept view of a line of a job, and adds it under this number.
fn read_keep<F: Files>(
    alloc: Global,
    files: &mut F,
    job: &str,
    number: u32,
    keep: &Keep,
    all: &mut JobKeeps,
) -> Result<(), InputError>
    requires number { number ≡ length all.old.views }
    requires same { length all.old.views ≡ length all.old.plans.items }
    ensures input { AddsKeep (F.held files.old) job.now (keep_parts keep.now) all.old.views
        all.new.views result }
    ensures plans { OnOk result
        (length all.new.plans.items ≡ length all.old.plans.items + 1) }
    ensures files { FilesAfterInput F.held F.faults F.misses result files.old files.new }
{
    let statements = read_statements(alloc, files, keep.file.as_str())?;
    let is_kept = put_script(alloc, number, all, &keep.name, statements.as_slice())?;
    if is_kept {
        return Ok(());
    }
    let line = RefusedLine {
        refusal: JobRefusal::BadKeep,
        line: keep.line,
    };
    Err(refusal_of(alloc, job, InputFault::JobLine(line)))
}

/// The kept views of these lines of a job, in their order. Each script is read after those before
/// it.
pub fn read_keeps<F: Files>(
    alloc: Global,
    files: &mut F,
    job: &str,
    keeps: &[Keep],
) -> Result<JobKeeps, InputError>
    requires { length keeps.now ≤ most_keeps }
    ensures input { Finds (λ all. all.views) (F.held files.old)
        (λ folder. AreKeeps job.now folder 0 (map keep_parts keeps.now)) result }
    ensures files { FilesAfterInput F.held F.faults F.misses result files.old files.new }
{
    let mut all = JobKeeps {
        views: SessionViews::new(alloc),
        plans: Vec::new(alloc),
    };
    'reading: for keep in keeps {
        let number = all.plans.len() as u32;
        read_keep(alloc, files, job, number, keep, &mut all)?;
    }
    Ok(all)
}
