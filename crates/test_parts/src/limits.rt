//! Readers of files of a few bytes at most. The limit of a run is 2^32 bytes.
use base_refusals::{LineFault, LineRefusal, RefreshFile};
use base_schema::TableName;
use std::alloc::Global;
use std::process::Abort;
use store_file_reader::{RefreshReader, TableError, TableReader};

// What a reader of regions of at most `limit` bytes answers to the last of these pieces.
fn last_answer<R: Abort>(
    rt: &R,
    alloc: Global,
    limit: u64,
    pieces: &[&[u8]],
) -> Result<(), TableError> {
    let reader = TableReader::with_limit(alloc, TableName::Region, limit);
    let mut reader = reader.expect(rt, "memory");
    let mut last = Ok(());
    for piece in pieces {
        last = reader.feed(piece);
    }
    last
}

// What a file is answered that is too long at a line; at none it isn't.
fn too_long(line: u64) -> Result<(), TableError> {
    if line == 0 {
        return Ok(());
    }
    let fault = LineFault::FileTooLong;
    Err(TableError::Refused(LineRefusal { line, fault }))
}

const LINES: &[u8] = b"0|A|a|\n1|B|b|\n";

// Limits, pieces, and the line at which the file is too long.
const CASES: &[(u64, &[&[u8]], u64)] = &[
    (14, &[LINES], 0),
    (14, &[LINES, b"x"], 3),
    (14, &[LINES, b"x", b""], 3),
    (13, &[LINES, b"x"], 2),
];

#[test]
fn ends_at_the_limit(rt: HostRuntime) {
    for (limit, pieces, line) in CASES {
        assert!(rt; last_answer(&rt, rt.alloc(), *limit, pieces) == too_long(*line));
    }
}

#[test]
fn limits_refresh_files(rt: HostRuntime) {
    let keys = RefreshReader::with_limit(rt.alloc(), RefreshFile::Delete, 5);
    let mut keys = keys.expect(&rt, "memory");
    assert!(rt; keys.feed(b"7|\n7") == Ok(()));
    assert!(rt; keys.feed(b"\n\n") == too_long(3));
}
