//! The turns of a session, each over the version that the refreshes before it leave.
ghost use Rattle.std.specs.Prelude.{◌≡◌, ◌+◌, ◌<◌, length, Some, true, IfOk, OnOk};
ghost use Rattle.app_sessions.specs.Sessions.{IsRefresh, course_after, course_of, next_of};
ghost use Rattle.app_sessions.specs.Compaction.{IsCompactedWhenDue, is_compaction_due};
ghost use Rattle.store_snapshots.specs.Publishers.{LiesJoined};
ghost use Rattle.store_versions.specs.Trials.{one_more, version_of};
ghost use Rattle.sql_ast.specs.declared.statement.Statement.{Statement};
ghost use Rattle.app_jobs.specs.NextVersions.{joined_in, version_in};
ghost use Rattle.app_jobs.specs.Turns.{clean_from, left_of, moment_after, refresh_count};
ghost use Rattle.app_jobs.specs.Turns.{text_from};

use app_sessions::{Session, Turn, is_compaction_due};
use std::alloc::{AllocError, Global};
use std::thread::Threads;
use store_snapshots::Snapshot;
use store_state::RefreshError;
use store_versions::{Compacted, Directory};

/// The version that a refresh leaves.
#[derive(Drop)]
enum NextVersion {
    /// In the segments that the refresh left.
    Tried(Directory),
    /// In segments of which no row is deleted and no two neighbours fit in one.
    Joined(Compacted),
}

impl NextVersion {
    /// The version alone.
    fn into_directory(self) -> Result<Directory, AllocError>
        ensures { IfOk result (λ d. d ≡ version_in self) }
    {
        match self {
            NextVersion::Tried(directory) => Ok(directory),
            NextVersion::Joined(compacted) => compacted.into_directory(),
        }
    }
}

/// Puts the segments of a version together where that is due.
#[tactic(auto, using(crate::proofs::NextVersions::lies_joined))]
fn compact_if_due(directory: Directory) -> Result<NextVersion, AllocError>
    ensures version { IfOk result (λ next. version_in next ≡ directory) }
    ensures compacted { IfOk result (λ next. is_compaction_due (version_of directory) ≡ true
        → LiesJoined directory (joined_in next)) }
{
    if is_compaction_due(directory.version()) {
        let compacted = directory.compacted()?;
        return Ok(NextVersion::Joined(compacted));
    }
    Ok(NextVersion::Tried(directory))
}

/// Tries the refresh that the session asks for, hands in what comes of it, and puts the segments
/// together where that is due.
fn try_refresh(session: &mut Session, directory: Directory) -> Result<NextVersion, AllocError>
    requires next { IsRefresh (next_of (course_of session.old)) }
    requires place { directory.done < length directory.list }
    ensures next { IfOk result (λ next. version_in next ≡ one_more directory) }
    ensures compacted { IfOk result (λ next.
        IsCompactedWhenDue directory (version_in next) (joined_in next)) }
    ensures handed { OnOk result ((statement : Statement)
        → next_of (course_of session.old) ≡ Some statement
        → course_of session.new
        ≡ course_after (course_of session.old) (moment_after directory) statement) }
{
    let mut directory = directory;
    let before = directory.version();
    match directory.after_next() {
        Ok(next) => {
            session.hand_in(before, Ok(next.version()))?;
            let next = compact_if_due(next)?;
            Ok(next)
        }
        Err(RefreshError::Refused(cause)) => {
            session.hand_in(before, Err(cause))?;
            Ok(NextVersion::Tried(directory))
        }
        Err(RefreshError::OutOfMemory) => Err(AllocError),
    }
}

/// The version after the refresh that the session asks for, whose result is handed in.
fn refresh(session: &mut Session, directory: Directory) -> Result<Directory, AllocError>
    requires next { IsRefresh (next_of (course_of session.old)) }
    requires place { directory.done < length directory.list }
    ensures next { IfOk result (λ next. next ≡ one_more directory) }
    ensures handed { OnOk result ((statement : Statement)
        → next_of (course_of session.old) ≡ Some statement
        → course_of session.new
        ≡ course_after (course_of session.old) (moment_after directory) statement) }
{
    let next = try_refresh(session, directory)?;
    let directory = next.into_directory()?;
    Ok(directory)
}

/// Takes all turns of a session, the first over this version.
pub fn take_turns<R: Threads + Sync>(
    rt: &R,
    alloc: Global,
    session: &mut Session,
    directory: Directory,
) -> Result<(), AllocError>
    requires shows { (course_of session.old).shows_rows ≡ true }
    requires places { directory.done + refresh_count (left_of (course_of session.old))
        ≡ length directory.list }
    ensures text { OnOk result ((course_of session.new).text
        ≡ text_from (course_of session.old) directory) }
    ensures clean { OnOk result ((course_of session.new).is_clean
        ≡ clean_from (course_of session.old) directory) }
{
    let mut directory = directory;
    'turns: loop {
        let snapshot = Snapshot::of(alloc, &directory)?;
        match session.run_next(rt, &snapshot)? {
            Turn::Ended => return Ok(()),
            Turn::Answered => {}
            Turn::AskedRefresh(_, _) => directory = refresh(session, directory)?,
        }
    }
}
