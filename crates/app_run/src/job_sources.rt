//! Reading what a job works on.
ghost use Rattle.std.specs.Prelude.{◌≡◌, IfOk, length};
ghost use Rattle.std.specs.List.{AllByRecursion};
ghost use Rattle.store_refresh_entries.specs.Change.{MayBeStored};
ghost use Rattle.app_inputs.specs.FilesAfter.{FilesAfterInput};
ghost use Rattle.app_inputs.specs.Views.{Finds, Reads};
ghost use Rattle.app_job_file.specs.Files.{IsReadable, parts_of};
ghost use Rattle.app_run.specs.JobInputs.{AreFilesBehind, AreJobFiles, job_base};
ghost use Rattle.app_run.specs.JobViews.{IsPlayable, base_view};
ghost use Rattle.app_jobs.specs.Sources.{work_view};

use crate::job_input::read_sessions;
use crate::job_keeps::read_keeps;
use app_inputs::{InputError, read_job_file, read_refreshes, read_state};
use app_job_file::{Job, Mention};
use app_jobs::{JobKeeps, JobSources};
use base_io::Files;
use std::alloc::{AllocError, Global};
use store_state::{Refresh, State};

/// The tables of the folder, and these refreshes.
fn read_base<F: Files>(
    alloc: Global,
    files: &mut F,
    folder: &str,
    refreshes: &[Mention],
) -> Result<(State, Vec<Refresh>), InputError>
    ensures input { Reads base_view (F.held files.old) (job_base folder.now refreshes.now) result }
    ensures length { IfOk result (λ r. length r.1.items ≡ length refreshes.now) }
    ensures storable { IfOk result (λ r. AllByRecursion MayBeStored r.1.items) }
    ensures files { FilesAfterInput F.held F.faults F.misses result files.old files.new }
{
    let base = read_state(alloc, files, folder)?;
    let list = read_refreshes(alloc, files, folder, refreshes)?;
    Ok((base, list))
}

/// What a job with these kept views works on, over the tables of the folder.
fn read_behind<F: Files>(
    alloc: Global,
    files: &mut F,
    folder: &str,
    parts: Job,
    keeps: JobKeeps,
    shows_rows: bool,
) -> Result<JobSources, InputError>
    requires { IsReadable parts }
    ensures input { Finds work_view (F.held files.old)
        (λ held. AreFilesBehind folder.now held (parts_of parts) keeps.views) result }
    ensures playable { IfOk result (IsPlayable shows_rows) }
    ensures files { FilesAfterInput F.held F.faults F.misses result files.old files.new }
{
    let names = parts.scripts.as_slice();
    let sessions = read_sessions(alloc, files, names, shows_rows, &keeps.views)?;
    let (base, list) = read_base(alloc, files, folder, parts.refreshes.as_slice())?;
    Ok(JobSources {
        keeps,
        sessions,
        base,
        list,
        before: parts.before,
        senders: parts.senders,
        journal: parts.journal,
    })
}

/// What the job of that file works on, over the tables of the folder.
pub fn read_inputs<F: Files>(
    alloc: Global,
    files: &mut F,
    folder: &str,
    job: &str,
    shows_rows: bool,
) -> Result<JobSources, InputError>
    ensures input { Finds work_view (F.held files.old) (AreJobFiles folder.now job.now) result }
    ensures playable { IfOk result (IsPlayable shows_rows) }
    ensures files { FilesAfterInput F.held F.faults F.misses result files.old files.new }
{
    let parts = read_job_file(alloc, files, job)?;
    let keeps = read_keeps(alloc, files, job, parts.keeps.as_slice())?;
    let sources = read_behind(alloc, files, folder, parts, keeps, shows_rows)?;
    Ok(sources)
}
