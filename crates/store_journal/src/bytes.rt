//! All bytes of the file reached.
ghost use Rattle.std.specs.Prelude.{◌≡◌, ◌≤◌, ◌^◌, ◌+◌, true, length, IfOk, IfErr, IsErrOf};
ghost use Rattle.std.specs.Prelude.{vec_len};
ghost use Rattle.base_io.specs.Outside.{Counts};
ghost use Rattle.base_disk.specs.Disk.{Tells, Gives};
ghost use Rattle.store_journal.specs.Journal.{OnlyReads};
ghost use Rattle.store_journal.specs.Bytes.{IsFront, NotRefused};

use crate::fault::JournalFault;
use base_disk::{Disk, Got};
use std::alloc::Global;

/// The most bytes that one call reads.
const PIECE: usize = 65_536;

/// Reads on from the end of the bytes so far, and answers how many came.
fn read_on<D: Disk>(disk: &mut D, bytes: &mut Vec<u8>) -> Result<usize, JournalFault>
    requires reached { D.is_reached disk.old ≡ true }
    requires front { Tells (D.reads disk.old) (IsFront bytes.old.items) }
    ensures front { Tells (D.reads disk.old) (IsFront bytes.new.items) }
    ensures more { IfOk result (λ n. (vec_len bytes.new ≡ vec_len bytes.old + n)
        × (n ≤ 65_536)) }
    ensures end { IfOk result (λ n. n ≡ 0
        → Tells (D.reads disk.old) (λ file. length file ≤ length bytes.new.items)) }
    ensures only_reads { OnlyReads D.reads D.may_leave D.moment D.left_since D.faults
        disk.old disk.new }
    ensures reached { D.is_reached disk.new ≡ true }
    ensures failed { Counts (IsErrOf result JournalFault.Failed)
        (D.faults disk.old) (D.faults disk.new) }
    ensures not_refused { IfErr result NotRefused }
{
    let mut piece = [0u8; PIECE];
    match disk.read(bytes.len() as u64, &mut piece) {
        Got::Failed => Err(JournalFault::Failed),
        Got::Got(count) => {
            bytes.extend_from_slice(&piece[..count])?;
            Ok(count)
        }
    }
}

/// All bytes of the file, which has that many.
pub(crate) fn read_all<D: Disk>(
    alloc: Global,
    disk: &mut D,
    size: usize,
) -> Result<Vec<u8>, JournalFault>
    requires reached { D.is_reached disk.old ≡ true }
    requires size { Tells (D.reads disk.old) (λ file. size ≡ length file) }
    requires short { size ≤ 2 ^ 60 }
    ensures bytes { IfOk result (λ v. Tells (D.reads disk.old) (λ file. v.items ≡ file)) }
    ensures few { IfOk result (λ v. length v.items ≤ size + 65_536) }
    ensures only_reads { OnlyReads D.reads D.may_leave D.moment D.left_since D.faults
        disk.old disk.new }
    ensures reached { D.is_reached disk.new ≡ true }
    ensures failed { Counts (IsErrOf result JournalFault.Failed)
        (D.faults disk.old) (D.faults disk.new) }
    ensures not_refused { IfErr result NotRefused }
{
    let mut bytes = Vec::with_capacity(alloc, size)?;
    while bytes.len() < size {
        if read_on(disk, &mut bytes)? == 0 {
            return Ok(bytes);
        }
    }
    Ok(bytes)
}
