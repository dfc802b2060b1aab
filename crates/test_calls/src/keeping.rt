//! A job that keeps its refreshes in a journal, over a disk that fails or crashes.
use crate::runs::{Given, run_job};
use app_main::Status;
use base_disk::MemDisk;
use base_io::OpenGate;
use std::alloc::Global;
use std::process::Abort;
use std::sync::Wait;
use std::thread::Threads;

const COUNT: &str = "select count(*) from orders;";

/// A session, and a refresh before it that a journal keeps.
const JOB: Given = &[
    ("j", "session a\njournal k\nbefore insert 1\n"),
    ("a", COUNT),
];

/// A session, and a journal that it only begins with.
const READING: Given = &[("j", "session a\njournal k\n"), ("a", COUNT)];

/// A session beside two senders, whose refreshes a journal keeps.
const SENDING: Given = &[
    (
        "j",
        "session a\njournal k\nsend1 delete 1\nsend2 insert 1\n",
    ),
    ("a", COUNT),
];

/// What a job without refreshes prints over the tables, the first set's insert being kept or not.
const EMPTY: &str = "\
session 1
[1] version 0 rows 1
2
closing version 0
region rows 5
nation rows 0
part rows 0
supplier rows 0
partsupp rows 0
customer rows 2
orders rows 2
lineitem rows 0
";

const KEPT: &str = "\
session 1
[1] version 1 rows 1
3
closing version 1
region rows 5
nation rows 0
part rows 0
supplier rows 0
partsupp rows 0
customer rows 2
orders rows 3
lineitem rows 1
";

/// A disk with a file of these bytes, of which this call fails.
fn disk_of<R: Abort>(rt: &R, alloc: Global, bytes: Vec<u8>, call: u64) -> MemDisk {
    let name = String::from_str(alloc, "k").expect(rt, "memory");
    let failing = Vec::from_slice(alloc, &[call]).expect(rt, "memory");
    MemDisk::new(alloc, name, bytes, failing, 4096).expect(rt, "memory")
}

/// The status of a job over a disk of which this call fails. Where it is a fault nothing is
/// written.
fn status_at<R: Threads + Wait + Sync + Abort>(
    rt: &R,
    alloc: Global,
    job: Given,
    call: u64,
) -> Status {
    let mut disk = disk_of(rt, alloc, Vec::new(alloc), call);
    let (status, text) = run_job(rt, alloc, job, &mut disk, &OpenGate);
    assert!(rt; text.is_empty() == (status == Status::DiskFault));
    status
}

/// Expects that a job ends at each of so many calls of its disk that fails, and calls it no more.
fn expect_calls<R: Threads + Wait + Sync + Abort>(rt: &R, alloc: Global, job: Given, calls: u64) {
    for call in 1..=calls {
        assert!(rt; status_at(rt, alloc, job, call) == Status::DiskFault);
    }
    assert!(rt; status_at(rt, alloc, job, calls.saturating_add(1)) == Status::Done);
}

// The file is reached and its size asked for, the journal is made by two calls, and an entry is put
// by four. The threads of two senders end too.
#[test]
fn a_disk_that_fails_ends_the_job(rt: HostRuntime) {
    expect_calls(&rt, rt.alloc(), JOB, 8);
    expect_calls(&rt, rt.alloc(), SENDING, 12);
}

/// Whether a job that reads what a crash left after so many writes and syncs finds the refresh that
/// was being stored, or none; at the end it must be there.
fn is_read<R: Threads + Wait + Sync + Abort>(
    rt: &R,
    alloc: Global,
    disk: &MemDisk,
    count: usize,
    fill: u8,
) -> bool {
    let image = disk.image(alloc, count, fill).expect(rt, "memory");
    let mut left = disk_of(rt, alloc, image.expect(rt, "an image"), 0);
    let (status, text) = run_job(rt, alloc, READING, &mut left, &OpenGate);
    let is_kept = text.as_slice() == KEPT.as_bytes();
    status == Status::Done && (is_kept || (count < 6 && text.as_slice() == EMPTY.as_bytes()))
}

#[test]
fn each_crash_leaves_a_journal(rt: HostRuntime) {
    let alloc = rt.alloc();
    let mut disk = disk_of(&rt, alloc, Vec::new(alloc), 0);
    let _first = run_job(&rt, alloc, JOB, &mut disk, &OpenGate);
    // The journal is made by a write and a sync, and the entry put by two of each.
    for count in 2..=6 {
        for fill in [0u8, 1, 7, 255] {
            assert!(rt; is_read(&rt, alloc, &disk, count, fill));
        }
    }
}
