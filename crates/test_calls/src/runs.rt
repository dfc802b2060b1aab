//! Runs over files and a sink in memory.
use crate::disks::SureDisk;
use app_main::{Status, tpch};
use base_disk::Disk;
use base_io::{Files, Gate, MemFile, MemFiles, MemSink, OpenGate, Sink};
use std::alloc::Global;
use std::process::Abort;
use std::sync::Wait;
use std::thread::Threads;

/// The names of files and their texts.
pub(crate) type Given = &'static [(&'static str, &'static str)];

/// The five regions.
pub(crate) const REGIONS: &str =
    "0|AFRICA|a|\n1|AMERICA|b|\n2|ASIA|c|\n3|EUROPE|d|\n4|MIDDLE EAST|e|\n";

/// The tables of a folder `d` that have rows, and its first refresh set.
pub(crate) const FIRST_SET: Given = &[
    ("d/region.tbl", REGIONS),
    (
        "d/customer.tbl",
        "1|C1|a|0|p|0.00|B|c|\n2|C2|a|0|p|0.00|B|c|\n",
    ),
    (
        "d/orders.tbl",
        "7|1|O|10.00|1996-01-02|1-URGENT|K|0|x|\n8|1|F|20.00|1996-01-03|5-LOW|K|0|y|\n",
    ),
    ("d/orders.tbl.u1", "9|2|O|5.00|1996-01-04|5-LOW|K|0|z|\n"),
    (
        "d/lineitem.tbl.u1",
        "9|1|1|1|1.00|5.00|0.00|0.00|N|O|1996-02-01|1996-02-02|1996-02-03|NONE|MAIL|w|\n",
    ),
    ("d/delete.1", "7\n"),
];

/// A script of one query.
pub(crate) const SCRIPT: &str = "select r_name from region where r_regionkey < 2;";

/// That script, and the regions.
pub(crate) const ONE_QUERY: Given = &[("s", SCRIPT), ("d/region.tbl", REGIONS)];

/// A session's words, which name the script `s`.
pub(crate) const SESSION: &[&str] = &["session", "d", "s"];

/// A job's words, which name the job `j`.
pub(crate) const THROUGHPUT: &[&str] = &["throughput", "d", "j"];

/// The tables, empty.
const EMPTY_TABLES: Given = &[
    ("d/region.tbl", ""),
    ("d/nation.tbl", ""),
    ("d/part.tbl", ""),
    ("d/supplier.tbl", ""),
    ("d/partsupp.tbl", ""),
    ("d/customer.tbl", ""),
    ("d/orders.tbl", ""),
    ("d/lineitem.tbl", ""),
];

/// The words as owned texts.
pub(crate) fn words_of<R: Abort>(rt: &R, alloc: Global, words: &[&str]) -> Vec<String> {
    let mut owned = Vec::new(alloc);
    for word in words {
        let word = String::from_str(alloc, word).expect(rt, "memory");
        owned.push(word).expect(rt, "memory");
    }
    owned
}

/// Puts files behind others.
fn put_files<R: Abort>(rt: &R, alloc: Global, files: &mut Vec<MemFile>, given: Given) {
    for (name, text) in given {
        let name = String::from_str(alloc, name).expect(rt, "memory");
        let bytes = Vec::from_slice(alloc, text.as_bytes()).expect(rt, "memory");
        files.push(MemFile { name, bytes }).expect(rt, "memory");
    }
}

/// These files and those of a set, with the tables, which are empty where neither has them: of two
/// files with one name the first one counts.
pub(crate) fn files_of<R: Abort>(rt: &R, alloc: Global, own: Given, set: Given) -> Vec<MemFile> {
    let mut files = Vec::new(alloc);
    put_files(rt, alloc, &mut files, own);
    put_files(rt, alloc, &mut files, set);
    put_files(rt, alloc, &mut files, EMPTY_TABLES);
    files
}

/// Files of which these calls fail.
pub(crate) fn failing<R: Abort>(
    rt: &R,
    alloc: Global,
    files: Vec<MemFile>,
    calls: &[u64],
) -> MemFiles {
    MemFiles::new(files, Vec::from_slice(alloc, calls).expect(rt, "memory"))
}

/// A sink that takes all that it is given.
pub(crate) fn sink(alloc: Global) -> MemSink {
    MemSink::new(Vec::new(alloc), usize::MAX, Vec::new(alloc))
}

/// Runs words over files and a sink, without a disk.
pub(crate) fn run<R: Threads + Wait + Sync + Abort, F: Files, S: Sink>(
    rt: &R,
    alloc: Global,
    words: &[&str],
    files: &mut F,
    out: &mut S,
) -> Status {
    let words = words_of(rt, alloc, words);
    tpch(rt, alloc, &words, files, out, &mut SureDisk, &OpenGate)
}

/// Runs the job `j` over its files and those of the first set. The status, and the text.
pub(crate) fn run_job<R: Threads + Wait + Sync + Abort, D: Disk + Send, G: Gate + Sync>(
    rt: &R,
    alloc: Global,
    own: Given,
    disk: &mut D,
    gate: &G,
) -> (Status, Vec<u8>) {
    let words = words_of(rt, alloc, THROUGHPUT);
    let mut files = MemFiles::new(files_of(rt, alloc, own, FIRST_SET), Vec::new(alloc));
    let mut out = sink(alloc);
    let status = tpch(rt, alloc, &words, &mut files, &mut out, disk, gate);
    (status, out.bytes)
}
