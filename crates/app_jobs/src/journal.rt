//! Reaching the journal of a job.
ghost use Rattle.std.specs.Prelude.{◌≡◌, ◌<◌, ◌≤◌, [], IfOk, length, true};
ghost use Rattle.base_io.specs.Outside.{Rose};
ghost use Rattle.base_disk.specs.Disk.{Tells, file_named};
ghost use Rattle.app_jobs.specs.Reaching.{IsReachFault, IsReached, MeansFault};

use app_inputs::InputFault;
use base_disk::{Disk, Reach, Size};
use std::alloc::{AllocError, Global};
use store_journal::{Journal, JournalFault, make, reopen};
use store_refresh_entries::RefreshPayload;
use store_state::Refresh;

/// What comes of reaching a journal.
#[derive(Drop)]
pub enum Reached {
    /// The journal, and the refreshes that it keeps.
    Journal(Journal, Vec<Refresh>),
    /// Its file is refused.
    Refused(InputFault),
    /// A call of the disk failed.
    DiskFault,
}

/// What the fault of a journal means to its reader.
fn reached_by(fault: JournalFault) -> Result<Reached, AllocError>
    ensures { IfOk result (MeansFault fault) }
{
    match fault {
        JournalFault::Memory => Err(AllocError),
        JournalFault::Failed => Ok(Reached::DiskFault),
        JournalFault::BadEntry(place) => Ok(Reached::Refused(InputFault::BadEntry(place))),
        JournalFault::TooLong => Ok(Reached::Refused(InputFault::JournalTooLong)),
    }
}

/// Makes a journal of the file reached.
fn make_journal<D: Disk>(alloc: Global, disk: &mut D) -> Result<Reached, AllocError>
    requires reached { D.is_reached disk.old ≡ true }
    requires empty { Tells (D.reads disk.old) (λ file. file ≡ []) }
    ensures reached { IfOk result
        (IsReached D.is_reached D.may_leave (D.reads disk.old) disk.new) }
    ensures failed { IfOk result (λ reached. IsReachFault reached
        → Rose (D.faults disk.old) (D.faults disk.new)) }
    ensures later { D.faults disk.old ≤ D.faults disk.new }
{
    match make::<D, RefreshPayload>(disk) {
        Ok(journal) => Ok(Reached::Journal(journal, Vec::new(alloc))),
        Err(fault) => reached_by(fault),
    }
}

/// Opens the journal of the file reached again.
fn reopen_journal<D: Disk>(alloc: Global, disk: &mut D) -> Result<Reached, AllocError>
    requires reached { D.is_reached disk.old ≡ true }
    requires some { Tells (D.reads disk.old) (λ file. 0 < length file) }
    ensures reached { IfOk result
        (IsReached D.is_reached D.may_leave (D.reads disk.old) disk.new) }
    ensures failed { IfOk result (λ reached. IsReachFault reached
        → Rose (D.faults disk.old) (D.faults disk.new)) }
    ensures later { D.faults disk.old ≤ D.faults disk.new }
{
    match reopen::<D, RefreshPayload>(alloc, disk) {
        Ok((journal, kept)) => Ok(Reached::Journal(journal, kept)),
        Err(fault) => reached_by(fault),
    }
}

/// The journal of the file reached, which is made where that is empty, and the refreshes that it
/// keeps.
fn journal_of_file<D: Disk>(alloc: Global, disk: &mut D) -> Result<Reached, AllocError>
    requires { D.is_reached disk.old ≡ true }
    ensures reached { IfOk result
        (IsReached D.is_reached D.may_leave (D.reads disk.old) disk.new) }
    ensures failed { IfOk result (λ reached. IsReachFault reached
        → Rose (D.faults disk.old) (D.faults disk.new)) }
    ensures later { D.faults disk.old ≤ D.faults disk.new }
{
    match disk.size() {
        Size::Size(bytes) => {
            if bytes == 0 {
                make_journal(alloc, disk)
            } else {
                reopen_journal(alloc, disk)
            }
        }
        Size::Failed => Ok(Reached::DiskFault),
    }
}

/// Reaches the file of that name, makes its journal where it is empty, and reads what it keeps.
pub fn reach_journal<D: Disk>(
    alloc: Global,
    disk: &mut D,
    name: &str,
) -> Result<Reached, AllocError>
    ensures reached { IfOk result (IsReached D.is_reached D.may_leave
        (file_named (D.named disk.old) name.now) disk.new) }
    ensures failed { IfOk result (λ reached. IsReachFault reached
        → Rose (D.faults disk.old) (D.faults disk.new)) }
    ensures later { D.faults disk.old ≤ D.faults disk.new }
{
    match disk.reach(name) {
        Reach::Reached => journal_of_file(alloc, disk),
        Reach::Failed => Ok(Reached::DiskFault),
    }
}
