//! Runs over files and a sink that never fail, alone and beside those that do.
ghost use Rattle.std.specs.Prelude.{◌≡◌, ◌≢◌, ◌⊎◌, None, Some, map};
ghost use Rattle.std.specs.String.{string_bytes};
ghost use Rattle.app_main.specs.Meaning.{IsAccepted};
ghost use Rattle.app_main.specs.Words.{command_of};
ghost use Rattle.base_io.specs.Memory.{folder_of};

use crate::disks::SureDisk;
use crate::runs::{Given, ONE_QUERY, SCRIPT, SESSION, failing, files_of, run, sink, words_of};
use app_main::{Status, tpch};
use base_io::{MemSink, OpenGate, SureFiles, SureSink};
use std::alloc::Global;
use std::process::Abort;
use std::sync::Wait;
use std::thread::Threads;

/// Runs words over files and a sink that never fail: a command whose files are of their forms is
/// answered, unless memory runs out.
fn run_surely<R: Threads + Wait + Sync>(
    rt: &R,
    alloc: Global,
    words: &[String],
    files: &mut SureFiles,
    out: &mut SureSink,
) -> Status
    ensures no_fault { (result ≢ Status.ReadFault) × (result ≢ Status.WriteFault) }
    ensures complete { IsAccepted (command_of (map string_bytes words.now))
        (Some (folder_of files.old.folder.files.items)) None
        → result ≢ Status.OutOfMemory
        → (result ≡ Status.Done) ⊎ (result ≡ Status.SomeRefused) }
{
    tpch(rt, alloc, words, files, out, &mut SureDisk, &OpenGate)
}

/// Words, files, and the status.
type Case = (&'static [&'static str], Given, Status);

const CASES: &[Case] = &[
    (SESSION, ONE_QUERY, Status::Done),
    (SESSION, &[("s", "drop view v;")], Status::SomeRefused),
    (SESSION, &[("s", "select")], Status::InputRefused),
    (&["session", "d"], &[("s", SCRIPT)], Status::Usage),
    (&["check", "e"], ONE_QUERY, Status::InputRefused),
];

/// Files that never fail.
fn sure_files<R: Abort>(rt: &R, alloc: Global, own: Given) -> SureFiles {
    SureFiles::new(files_of(rt, alloc, own, &[]))
}

/// Whether a case has its status, and prints something.
fn holds<R: Threads + Wait + Sync + Abort>(rt: &R, alloc: Global, case: &Case) -> bool {
    let (words, own, status) = case;
    let words = words_of(rt, alloc, words);
    let mut files = sure_files(rt, alloc, own);
    let mut out = SureSink::new(Vec::new(alloc));
    run_surely(rt, alloc, &words, &mut files, &mut out) == *status && !out.bytes.is_empty()
}

#[test]
fn statuses_without_faults(rt: HostRuntime) {
    for case in CASES {
        assert!(rt; holds(&rt, rt.alloc(), case));
    }
}

/// The status of the query over files whose seventh call fails, and a sink that never fails.
fn status_of_reading<R: Threads + Wait + Sync + Abort>(rt: &R, alloc: Global) -> Status {
    let mut files = failing(rt, alloc, files_of(rt, alloc, ONE_QUERY, &[]), &[7]);
    let mut out = SureSink::new(Vec::new(alloc));
    run(rt, alloc, SESSION, &mut files, &mut out)
}

/// Its status over files that never fail, and a sink.
fn status_of_writing<R: Threads + Wait + Sync + Abort>(
    rt: &R,
    alloc: Global,
    mut out: MemSink,
) -> Status {
    let mut files = sure_files(rt, alloc, ONE_QUERY);
    run(rt, alloc, SESSION, &mut files, &mut out)
}

#[test]
fn faults_on_one_side(rt: HostRuntime) {
    let alloc = rt.alloc();
    assert!(rt; status_of_reading(&rt, alloc) == Status::ReadFault);
    let first = Vec::from_slice(alloc, &[1]).expect(&rt, "memory");
    let failing = MemSink::new(Vec::new(alloc), usize::MAX, first);
    assert!(rt; status_of_writing(&rt, alloc, failing) == Status::WriteFault);
    assert!(rt; status_of_writing(&rt, alloc, sink(alloc)) == Status::Done);
}
