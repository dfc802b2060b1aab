//! Calls of a sink that fail.
use crate::runs::{ONE_QUERY, SESSION, failing, files_of, run};
use app_main::Status;
use base_io::MemSink;
use std::alloc::Global;
use std::process::Abort;
use std::sync::Wait;
use std::thread::Threads;

/// The text of the one query.
const TEXT: &[u8] = b"[1] version 0 rows 2\nAFRICA\nAMERICA\n";

/// Runs the query over a sink that takes so many bytes a call, and of which this call fails. The
/// status, and what it took.
fn written<R: Threads + Wait + Sync + Abort>(
    rt: &R,
    alloc: Global,
    most: usize,
    call: u64,
) -> (Status, Vec<u8>) {
    let mut files = failing(rt, alloc, files_of(rt, alloc, ONE_QUERY, &[]), &[]);
    let calls = Vec::from_slice(alloc, &[call]).expect(rt, "memory");
    let mut out = MemSink::new(Vec::new(alloc), most, calls);
    let status = run(rt, alloc, SESSION, &mut files, &mut out);
    (status, out.bytes)
}

/// How many bytes a sink of so many a call takes before this call of it fails, and the status.
const CASES: &[(usize, u64, usize, Status)] = &[
    (5, 1, 0, Status::WriteFault),
    (5, 2, 5, Status::WriteFault),
    (5, 3, 10, Status::WriteFault),
    (5, 4, 15, Status::WriteFault),
    (5, 5, 20, Status::WriteFault),
    (5, 6, 25, Status::WriteFault),
    (5, 7, 30, Status::WriteFault),
    (5, 8, 35, Status::WriteFault),
    (5, 9, 36, Status::Done),
    (0, 9, 0, Status::WriteFault),
];

// The text has 36 bytes, which a sink of five bytes a call takes by eight calls.
#[test]
fn ends_at_a_writing_fault(rt: HostRuntime) {
    for (most, call, length, wanted) in CASES {
        let (status, taken) = written(&rt, rt.alloc(), *most, *call);
        assert!(rt; status == *wanted && taken.len() == *length && TEXT.starts_with(&taken));
    }
}
