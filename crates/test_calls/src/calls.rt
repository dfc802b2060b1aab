//! Which calls files get, and calls that fail.
use crate::runs::{
    FIRST_SET, Given, ONE_QUERY, REGIONS, SCRIPT, SESSION, THROUGHPUT, failing, files_of, run, sink,
};
use app_main::Status;
use std::alloc::Global;
use std::process::Abort;
use std::sync::Wait;
use std::thread::Threads;

/// Words, files, those of a set, and how many calls the files get.
type Case = (&'static [&'static str], Given, Given, u64);

const CHECK: &[&str] = &["check", "d"];

const COUNT: &str = "select count(*) from orders;";

const TWICE: &str = "refresh insert 1; refresh delete 1; refresh insert 1; refresh delete 1;";

/// A job of two sessions, a refresh before them and one beside them.
const JOB: Given = &[
    (
        "j",
        "session a\nsession b\nbefore insert 1\nbeside delete 1\n",
    ),
    ("a", COUNT),
    ("b", COUNT),
];

// What is named is opened once and read to its end, and nothing else is called: of a file with
// bytes three calls each, of an empty one two. An input that is refused leaves those after it
// unopened, and a bad line that has ended is refused before the next bytes are read.
const CASES: &[Case] = &[
    // The script, the regions and seven empty tables.
    (SESSION, ONE_QUERY, &[], 20),
    (
        SESSION,
        &[("s", "select"), ("d/region.tbl", REGIONS)],
        &[],
        3,
    ),
    (SESSION, &[("s", SCRIPT), ("d/region.tbl", "0")], &[], 6),
    (CHECK, ONE_QUERY, &[], 17),
    (CHECK, &[("d/region.tbl", "0")], &[], 3),
    (CHECK, &[("d/region.tbl", "0\n")], &[], 2),
    // The script, three tables with bytes and five empty ones; then the refresh files, each once.
    (SESSION, &[("s", COUNT)], FIRST_SET, 22),
    (SESSION, &[("s", "refresh insert 1;")], FIRST_SET, 28),
    (
        SESSION,
        &[("s", "refresh insert 1; refresh delete 1;")],
        FIRST_SET,
        31,
    ),
    (SESSION, &[("s", TWICE)], FIRST_SET, 31),
    (THROUGHPUT, JOB, FIRST_SET, 37),
];

/// What comes of a case where this call fails: the status, how many bytes are written, and how many
/// calls there were.
fn outcome<R: Threads + Wait + Sync + Abort>(
    rt: &R,
    alloc: Global,
    case: &Case,
    call: u64,
) -> (Status, usize, u64) {
    let (words, own, set, _) = case;
    let mut files = failing(rt, alloc, files_of(rt, alloc, own, set), &[call]);
    let mut out = sink(alloc);
    let status = run(rt, alloc, words, &mut files, &mut out);
    (status, out.bytes.len(), files.calls)
}

/// Expects as many calls as the case says where none fails, and a reading fault at each of them.
fn expect_calls<R: Threads + Wait + Sync + Abort>(rt: &R, alloc: Global, case: &Case) {
    let calls = case.3;
    let (status, _, made) = outcome(rt, alloc, case, 0);
    assert!(rt; made == calls && status != Status::ReadFault);
    for call in 1..=calls {
        let (status, written, _) = outcome(rt, alloc, case, call);
        assert!(rt; status == Status::ReadFault && written == 0);
    }
}

#[test]
fn each_call_may_fail(rt: HostRuntime) {
    for case in CASES {
        expect_calls(&rt, rt.alloc(), case);
    }
}
