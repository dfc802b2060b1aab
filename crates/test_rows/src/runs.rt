//! One case, run over its files and a sink in memory.
use crate::texts::Text;
use app_main::tpch;
use base_disk::MemDisk;
use base_io::{MemFile, MemFiles, MemSink, OpenGate};
use std::alloc::{AllocError, Global};
use std::sync::Wait;
use std::thread::Threads;

/// The words of a case.
fn words_of(alloc: Global, case: &[Text]) -> Result<Vec<String>, AllocError> {
    let mut words = Vec::new(alloc);
    for text in case {
        if let Some(word) = text.header.strip_prefix("word ") {
            words.push(String::from_str(alloc, word)?)?;
        }
    }
    Ok(words)
}

/// A file of this name and these bytes.
fn file_of(alloc: Global, name: &str, bytes: &[u8]) -> Result<MemFile, AllocError> {
    let name = String::from_str(alloc, name)?;
    let bytes = Vec::from_slice(alloc, bytes)?;
    Ok(MemFile { name, bytes })
}

/// The files of a case.
fn files_of(alloc: Global, case: &[Text]) -> Result<MemFiles, AllocError> {
    let mut files = Vec::new(alloc);
    for text in case {
        if let Some(name) = text.header.strip_prefix("file ") {
            files.push(file_of(alloc, name, &text.bytes)?)?;
        }
    }
    Ok(MemFiles::new(files, Vec::new(alloc)))
}

/// A disk with a file of this name and these bytes.
fn disk_over(alloc: Global, name: &str, bytes: &[u8]) -> Result<MemDisk, AllocError> {
    let name = String::from_str(alloc, name)?;
    let bytes = Vec::from_slice(alloc, bytes)?;
    MemDisk::new(alloc, name, bytes, Vec::new(alloc), usize::MAX)
}

/// The disk of a case, whose file has no name where it has no journal.
fn disk_of(alloc: Global, case: &[Text]) -> Result<MemDisk, AllocError> {
    for text in case {
        if let Some(name) = text.header.strip_prefix("disk ") {
            return disk_over(alloc, name, &text.bytes);
        }
    }
    disk_over(alloc, "", b"")
}

/// The bytes before the first byte of that value, and those between it and the next one.
fn first_two(bytes: &[u8], value: u8) -> (&[u8], &[u8]) {
    let mut parts = bytes.split(|byte| *byte == value);
    let first = parts.next().unwrap_or(b"");
    (first, parts.next().unwrap_or(b""))
}

/// Whether the first line is this one, in which * is any text.
fn has_head(printed: &[u8], head: &[u8]) -> bool {
    let (line, _) = first_two(printed, b'\n');
    let (front, back) = first_two(head, b'*');
    if front.len() == head.len() {
        return line == head;
    }
    let least = front.len().saturating_add(back.len());
    line.len() >= least && line.starts_with(front) && line.ends_with(back)
}

/// Whether a text of a case says that this is printed with this status.
fn agrees(text: &Text, status: u8, printed: &[u8]) -> bool {
    let Some((kind, number)) = text.header.split_once(' ') else {
        return false;
    };
    if number.parse::<u8>() != Ok(status) {
        return false;
    }
    let bytes = text.bytes.as_slice();
    if kind == "head" {
        has_head(printed, bytes)
    } else if kind == "end" {
        printed.ends_with(bytes)
    } else {
        kind == "out" && printed == bytes
    }
}

/// Whether one of a case's texts says that this is printed with this status.
fn is_told(case: &[Text], status: u8, printed: &[u8]) -> bool {
    for text in case {
        if agrees(text, status, printed) {
            return true;
        }
    }
    false
}

/// Whether the journal has the bytes that the case says it has after the run.
fn is_kept(case: &[Text], kept: &[u8]) -> bool {
    for text in case {
        if text.header.as_str() == "after" && text.bytes.as_slice() != kept {
            return false;
        }
    }
    true
}

/// Runs words over files and a disk. The status, and what is printed.
fn run<R: Threads + Wait + Sync>(
    rt: &R,
    alloc: Global,
    words: &[String],
    files: &mut MemFiles,
    disk: &mut MemDisk,
) -> (u8, Vec<u8>) {
    let mut out = MemSink::new(Vec::new(alloc), usize::MAX, Vec::new(alloc));
    let status = tpch(rt, alloc, words, files, &mut out, disk, &OpenGate);
    (status.number(), out.bytes)
}

/// Runs a case. Whether one of its texts agrees with the run, and its journal has what it says.
pub fn passes<R: Threads + Wait + Sync>(
    rt: &R,
    alloc: Global,
    case: &[Text],
) -> Result<bool, AllocError> {
    let words = words_of(alloc, case)?;
    let mut files = files_of(alloc, case)?;
    let mut disk = disk_of(alloc, case)?;
    let (status, printed) = run(rt, alloc, &words, &mut files, &mut disk);
    Ok(is_told(case, status, &printed) && is_kept(case, &disk.bytes))
}
