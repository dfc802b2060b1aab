//! The journal on a disk in memory that fails or crashes.
use crate::plain::{Plain, SEVEN, disk_of, seven};
use base_disk::{Disk, MemDisk, Reach};
use std::alloc::Global;
use std::process::Abort;
use store_journal::{Appended, Journal, make, reopen};

/// The entries of a disk's journal.
fn entries<R: Abort>(rt: &R, alloc: Global, disk: &mut MemDisk) -> Vec<Vec<u8>> {
    assert!(rt; disk.reach("j") == Reach::Reached);
    let (_, values) = reopen::<_, Plain>(alloc, disk).expect(rt, "a journal");
    values
}

/// Whether each value is the one entry.
fn are_sevens(values: &[Vec<u8>]) -> bool {
    let mut good = true;
    for value in values {
        good &= value.as_slice() == SEVEN.as_slice();
    }
    good
}

/// How many entries the journal of these bytes has, each of which is the one.
fn sevens<R: Abort>(rt: &R, alloc: Global, bytes: &[u8]) -> usize {
    let mut disk = disk_of(rt, alloc, bytes, &[]);
    let values = entries(rt, alloc, &mut disk);
    assert!(rt; are_sevens(&values));
    values.len()
}

/// What comes of an entry, where the one of number `sound` is the first to meet a failing call.
fn answer_to(entry: usize, sound: usize) -> Appended {
    if entry < sound {
        Appended::Stored
    } else if entry == sound {
        Appended::Failed
    } else {
        Appended::Shut
    }
}

/// Adds the one entry.
fn add<R: Abort>(rt: &R, alloc: Global, journal: &mut Journal, disk: &mut MemDisk) -> Appended {
    assert!(rt; disk.is_reached && journal.end < 1000);
    let value = seven(rt, alloc);
    let appended = journal.append::<_, Plain>(alloc, disk, &value);
    appended.expect(rt, "memory")
}

/// Adds forty entries to a new journal, of which so many are stored before a call fails.
fn add_forty<R: Abort>(rt: &R, alloc: Global, disk: &mut MemDisk, sound: usize) {
    assert!(rt; disk.reach("j") == Reach::Reached);
    let mut journal = make::<_, Plain>(disk).expect(rt, "a journal");
    for entry in 0..40 {
        assert!(rt; add(rt, alloc, &mut journal, disk) == answer_to(entry, sound));
    }
}

/// What a crash leaves after so many writes and syncs has as many entries as were stored, or one
/// more in the midst of an append.
fn expect_images<R: Abort>(rt: &R, alloc: Global, disk: &MemDisk, count: usize) {
    // `make` writes and syncs once, and each append twice.
    let least = count.saturating_sub(2) / 4;
    let most = count.saturating_add(1) / 4;
    for fill in 0..=255u8 {
        let image = disk.image(alloc, count, fill).expect(rt, "memory");
        let found = sevens(rt, alloc, &image.expect(rt, "an image"));
        assert!(rt; found == least || found == most);
    }
}

#[test]
fn each_image_is_read(rt: HostRuntime) {
    let mut disk = disk_of(&rt, rt.alloc(), &[], &[]);
    add_forty(&rt, rt.alloc(), &mut disk, 40);
    for count in 2..=10 {
        expect_images(&rt, rt.alloc(), &disk, count);
    }
}

/// A disk that fails at one call: what was stored is read, and at most the one entry that was being
/// added.
fn expect_told<R: Abort>(rt: &R, alloc: Global, failing: u64) {
    // The calls are: reach, two of `make`, and four of each append; the last one never comes.
    let sound = (failing.saturating_sub(4) / 4) as usize;
    let faults = u64::from(failing < 164);
    let mut disk = disk_of(rt, alloc, &[], &[failing]);
    add_forty(rt, alloc, &mut disk, sound);
    assert!(rt; disk.faults == faults);
    let found = sevens(rt, alloc, &disk.bytes);
    assert!(rt; found == sound || found == sound.saturating_add(faults as usize));
}

#[test]
fn each_failing_call_is_told(rt: HostRuntime) {
    for failing in 4..=164 {
        expect_told(&rt, rt.alloc(), failing);
    }
}
