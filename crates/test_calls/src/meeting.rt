//! A job of two sessions that meet the publisher.
use crate::disks::SureDisk;
use crate::gates::MeetGate;
use crate::runs::{Given, run_job};
use app_main::Status;

/// A script that counts the orders twice.
const COUNTS: &str = "select count(*) from orders; select count(*) from orders;";

/// A job of two sessions, a refresh before them and one beside them.
const JOB: Given = &[
    (
        "j",
        "session a\nsession b\nbefore insert 1\nbeside delete 1\n",
    ),
    ("a", COUNTS),
    ("b", COUNTS),
];

/// The text of the job where each session asks first before the publish beside it, and then after.
const MET: &str = "\
session 1
[1] version 1 rows 1
3
[2] version 2 rows 1
2
session 2
[1] version 1 rows 1
3
[2] version 2 rows 1
2
refresh 1 version 1
refresh 2 version 2
closing version 2
region rows 5
nation rows 0
part rows 0
supplier rows 0
partsupp rows 0
customer rows 2
orders rows 2
lineitem rows 1
";

#[test]
fn two_sessions_meet_the_publisher(rt: HostRuntime) {
    let gate = MeetGate::new(&rt);
    let (status, text) = run_job(&rt, rt.alloc(), JOB, &mut SureDisk, &gate);
    assert!(rt; status == Status::Done && gate.misses() == 0);
    assert!(rt; text.as_slice() == MET.as_bytes());
}
