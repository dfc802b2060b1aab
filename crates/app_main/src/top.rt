//! The top call.
ghost use Rattle.std.specs.Prelude.{◌≡◌, ◌≢◌, ◌≤◌, ◌⊎◌, ℕ, List, map};
ghost use Rattle.std.specs.Io.KnownBytes.{Appends, Keeps};
ghost use Rattle.std.specs.String.{string_bytes};
ghost use Rattle.base_io.specs.Outside.{AppendsPart, Rose};
ghost use Rattle.app_run.specs.JobMeaning.{disk_told};
ghost use Rattle.app_run.specs.Meaning.{IsAbsentInput, IsAccepted, LeavesDisk, MayPrint, Prints};
ghost use Rattle.app_inputs.specs.Printing.{IsAnswer};
ghost use Rattle.app_inputs.specs.Words.{command_of};

use app_inputs::Status;
use app_run::run;
use base_disk::Disk;
use base_io::{Files, Gate, Sink};
use std::alloc::Global;
use std::sync::Wait;
use std::thread::Threads;

/// Does all that the program does: reads the words, the files that they name, keeps a job's accepted
/// refreshes on the disk, where the job names a journal, and writes one text.
///
/// The text and its status are what the command means over the bytes of the files, and so is what
/// a job's journal holds in the end, where the disk tells it (`Prints`). The gate is for sessions
/// that run side by side.
///
/// # Errors
///
/// A fault of reading, writing or the disk is answered only where `files`, `out` or `disk` counted
/// one. No clause says when memory runs out.
pub fn tpch<R: Threads + Wait + Sync, F: Files, S: Sink, D: Disk + Send, G: Gate + Sync>(
    rt: &R,
    alloc: Global,
    words: &[String],
    files: &mut F,
    out: &mut S,
    disk: &mut D,
    gate: &G,
) -> Status
    // On an answer the whole text was taken, with its status.
    ensures answer { IsAnswer result → ((text : List ℕ)
        × Prints (command_of (map string_bytes words.now)) (F.held files.old)
        (disk_told (D.named disk.old) (D.reads disk.new)) text result
        × Appends (S.taken out.old) (S.taken out.new) text) }

    // A fault has a cause, and what was taken is nothing or a part of a text that may be printed.
    ensures read { result ≡ Status.ReadFault → Rose (F.faults files.old) (F.faults files.new)
        × Keeps (S.taken out.old) (S.taken out.new) }
    ensures write { result ≡ Status.WriteFault → Rose (S.faults out.old) (S.faults out.new)
        × ((text : List ℕ)
        × MayPrint (command_of (map string_bytes words.now)) (F.held files.old)
        (disk_told (D.named disk.old) (D.reads disk.new)) text
        × AppendsPart (S.taken out.old) (S.taken out.new) text) }
    ensures disk { result ≡ Status.DiskFault → Rose (D.faults disk.old) (D.faults disk.new)
        × Keeps (S.taken out.old) (S.taken out.new) }
    ensures memory { result ≡ Status.OutOfMemory → Keeps (S.taken out.old) (S.taken out.new)
        ⊎ ((text : List ℕ)
        × MayPrint (command_of (map string_bytes words.now)) (F.held files.old)
        (disk_told (D.named disk.old) (D.reads disk.new)) text
        × AppendsPart (S.taken out.old) (S.taken out.new) text) }

    // An absent input is refused only where a miss was counted.
    ensures absent { result ≡ Status.InputRefused
        → IsAbsentInput (command_of (map string_bytes words.now)) (F.held files.old)
        (D.named disk.old)
        → Rose (F.misses files.old) (F.misses files.new) }

    // A command is answered where its files are known and accepted, unless memory runs out.
    ensures complete { IsAccepted (command_of (map string_bytes words.now)) (F.held files.old)
        (D.named disk.old)
        → ¬ Rose (F.faults files.old) (F.faults files.new)
        → ¬ Rose (S.faults out.old) (S.faults out.new)
        → ¬ Rose (D.faults disk.old) (D.faults disk.new)
        → result ≢ Status.OutOfMemory → (result ≡ Status.Done) ⊎ (result ≡ Status.SomeRefused) }
    ensures held { F.held files.new ≡ F.held files.old }
    ensures counts { (F.faults files.old ≤ F.faults files.new)
        × (F.misses files.old ≤ F.misses files.new)
        × (S.faults out.old ≤ S.faults out.new)
        × (D.faults disk.old ≤ D.faults disk.new) }

    // The disk is reached last, and only for a journal.
    ensures untouched { LeavesDisk (command_of (map string_bytes words.now)) (F.held files.old)
        → disk.new ≡ disk.old }
{
    run(rt, alloc, words, files, out, disk, gate)
}
