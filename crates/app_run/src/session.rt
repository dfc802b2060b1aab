//! One session: its script, then the tables, then the files of its refreshes, then its statements
//! one by one.
ghost use Rattle.std.specs.Prelude.{◌≡◌, ◌+◌, IfOk, length, true};
ghost use Rattle.app_sessions.specs.Sessions.{course_of};
ghost use Rattle.app_inputs.specs.FilesAfter.{FilesAfterInput};
ghost use Rattle.app_run.specs.SessionInputs.{AreSteps, work_of};
ghost use Rattle.app_run.specs.Meaning.{MeansSession};
ghost use Rattle.app_jobs.specs.Turns.{IsBegun, refresh_count, work_from};
ghost use Rattle.app_inputs.specs.Views.{Finds, Reads};
ghost use Rattle.app_run.specs.JobMeaning.{DiskTold};
ghost use Rattle.app_run.specs.Views.{IsTextOf};
ghost use Rattle.app_inputs.specs.Words.Command.{session};

use app_inputs::{InputError, Status, mentions_of, read_refreshes, read_state, read_statements};
use app_jobs::take_turns;
use app_sessions::Session;
use base_io::Files;
use plan_planner::SessionViews;
use sql_ast::Statement;
use std::alloc::{AllocError, Global};
use std::thread::Threads;
use store_versions::Directory;

/// A session of the script of that name, at its beginning, which has no view.
fn begin<F: Files>(alloc: Global, files: &mut F, script: &str) -> Result<Session, InputError>
    ensures input { Finds (λ s. (course_of s).steps) (F.held files.old)
        (λ folder. AreSteps folder script.now) result }
    ensures begun { IfOk result (λ s. IsBegun (course_of s)) }
    ensures files { FilesAfterInput F.held F.faults F.misses result files.old files.new }
{
    let statements = read_statements(alloc, files, script)?;
    let session = Session::new(alloc, statements, true, SessionViews::new(alloc))?;
    Ok(session)
}

/// The tables of the folder with the refreshes that the statements name, none of which was tried.
fn open_directory<F: Files>(
    alloc: Global,
    files: &mut F,
    folder: &str,
    steps: &[Statement],
) -> Result<Directory, InputError>
    ensures input { Reads (work_from steps.now) (F.held files.old)
        (λ held. work_of folder.now held steps.now) result }
    ensures fresh { IfOk result (λ d. (d.done ≡ 0) × (d.most ≡ length d.list)) }
    ensures places { IfOk result (λ d. length d.list ≡ refresh_count steps.now) }
    ensures files { FilesAfterInput F.held F.faults F.misses result files.old files.new }
{
    let mentions = mentions_of(alloc, steps)?;
    let state = read_state(alloc, files, folder)?;
    let list = read_refreshes(alloc, files, folder, &mentions)?;
    let most = list.len();
    let directory = Directory::new(alloc, state, (), list, most)?;
    Ok(directory)
}

/// The text of a session at its beginning over a version, and its status.
fn run_to_end<R: Threads + Sync>(
    rt: &R,
    alloc: Global,
    session: Session,
    directory: Directory,
) -> Result<(Vec<u8>, Status), AllocError>
    requires begun { IsBegun (course_of session) }
    requires fresh { (directory.done ≡ 0) × (directory.most ≡ length directory.list) }
    requires places { length directory.list ≡ refresh_count (course_of session).steps }
    ensures { IfOk result (λ printed. MeansSession (work_from (course_of session).steps directory)
        printed.0.items printed.1) }
{
    let mut session = session;
    take_turns(rt, alloc, &mut session, directory)?;
    let text = Vec::from_slice(alloc, session.text())?;
    if session.is_clean() {
        Ok((text, Status::Done))
    } else {
        Ok((text, Status::SomeRefused))
    }
}

/// The text of a session of that script over the tables of that folder, and its status.
pub fn session_text<R: Threads + Sync, F: Files>(
    rt: &R,
    alloc: Global,
    files: &mut F,
    folder: &str,
    script: &str,
) -> Result<(Vec<u8>, Status), InputError>
    ensures text { (disk : DiskTold)
        → IsTextOf (session folder.now script.now) (F.held files.old) disk result }
    ensures files { FilesAfterInput F.held F.faults F.misses result files.old files.new }
{
    let session = begin(alloc, files, script)?;
    let directory = open_directory(alloc, files, folder, session.steps())?;
    let printed = run_to_end(rt, alloc, session, directory)?;
    Ok(printed)
}
