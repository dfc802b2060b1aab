//! The end of a job's text.
ghost use Rattle.std.specs.Prelude.{◌≡◌, ◌<◌, ◌≤◌, ◌++◌, false, IfOk, OnOk, length};
ghost use Rattle.store_versions.specs.Trials.{version_of};
ghost use Rattle.app_sessions.specs.Gathered.{HavePlaces, IsJoined};
ghost use Rattle.app_sessions.specs.Jobs.{closing_line, closing_text};
ghost use Rattle.app_sessions.specs.Workers.{NoneIsLost};

use crate::counts::push_counts;
use crate::job_text::{JobText, gather};
use crate::report::Report;
use crate::worker::Worker;
use itoa::Buffer;
use std::alloc::{AllocError, Global};
use std::sync::Wait;
use store_snapshots::{Entry, Publisher, Snapshot};
use store_versions::Attachment;

/// Shows readers the last version with its whole list, where that has more refreshes than `listed`.
pub fn show_list<A: Attachment, R: Wait>(
    rt: &R,
    listed: usize,
    publisher: &mut Publisher<A>,
) -> Result<(), AllocError>
    ensures version { publisher.new.version ≡ publisher.old.version }
    ensures same { length publisher.old.version.list ≤ listed → publisher.new ≡ publisher.old }
    ensures shown { listed < length publisher.old.version.list
        → OnOk result (publisher.new.shown ≡ publisher.old.version) }
{
    if publisher.listed() <= listed {
        return Ok(());
    }
    publisher.compact(rt)
}

/// Appends the line of a closing version.
fn push_closing_line(text: &mut Vec<u8>, version: u64) -> Result<(), AllocError>
    ensures { OnOk result (text.new.items ≡ text.old.items ++ closing_line version) }
{
    let mut buffer = Buffer::new();
    text.extend_from_slice(b"closing version ")?;
    text.extend_from_slice(buffer.format(version).as_bytes())?;
    text.push(b'\n')?;
    Ok(())
}

/// Appends the line of a closing version, and those of the rows that its tables have.
fn push_closing<A: Attachment>(text: &mut Vec<u8>, snapshot: &Snapshot<A>) -> Result<(), AllocError>
    ensures { OnOk result (text.new.items ≡ text.old.items
        ++ closing_text snapshot.now.base snapshot.now.list (version_of snapshot.now)) }
{
    push_closing_line(text, snapshot.version())?;
    push_counts(text, snapshot)?;
    Ok(())
}

/// Appends the lines of the publisher's last version to a report.
pub fn close_report<A: Attachment>(
    publisher: &Publisher<A>,
    report: &mut Report,
) -> Result<(), AllocError>
    ensures text { OnOk result (report.new.text.items ≡ report.old.text.items
        ++ closing_text publisher.now.version.base publisher.now.version.list
        (version_of publisher.now.version)) }
    ensures accepted { report.new.accepted ≡ report.old.accepted }
{
    let snapshot = publisher.snapshot()?;
    push_closing(&mut report.text, &snapshot)
}

/// Whether memory ran out for a worker.
fn is_any_lost<E: Entry + Drop>(workers: &[Worker<E>]) -> bool
    ensures { result ≡ false → NoneIsLost workers.now }
{
    'asking: for worker in workers {
        if worker.is_lost {
            return true;
        }
    }
    false
}

/// The text of a job whose threads have ended.
pub fn whole_text<E: Entry + Drop>(
    alloc: Global,
    workers: &[Worker<E>],
    count: usize,
    report: &Report,
) -> Result<JobText, AllocError>
    requires { HavePlaces workers.now count }
    ensures { IfOk result (IsJoined workers.now count report.now.text.items report.now.accepted) }
{
    if is_any_lost(workers) {
        return Err(AllocError);
    }
    let mut text = gather(alloc, workers, count)?;
    text.close(report.text.as_slice(), report.accepted)?;
    Ok(text)
}
