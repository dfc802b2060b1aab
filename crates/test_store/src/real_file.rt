//! The journal on a file of the machine.
ghost use Rattle.std.specs.Prelude.{◌≡◌, true};

use crate::plain::{Plain, seven};
use base_disk::{Disk, Reach, RealDisk};
use std::alloc::Global;
use std::fs;
use std::process::Abort;
use store_journal::{Appended, make, reopen};

const NAME: &str = "journal_of_a_test";

/// Makes a journal on a disk, and appends a value.
fn append_one<R: Abort, D: Disk>(rt: &R, alloc: Global, disk: &mut D) -> Appended
    requires { D.is_reached disk.old ≡ true }
    ensures { D.is_reached disk.new ≡ true }
{
    let value = seven(rt, alloc);
    let mut journal = make::<_, Plain>(disk).expect(rt, "a journal");
    let appended = journal.append::<_, Plain>(alloc, disk, &value);
    appended.expect(rt, "memory")
}

/// Where the journal on a disk ends, and how many values it has.
fn read_again<R: Abort, D: Disk>(rt: &R, alloc: Global, disk: &mut D) -> (u64, usize)
    requires { D.is_reached disk.old ≡ true }
{
    let (journal, values) = reopen::<_, Plain>(alloc, disk).expect(rt, "a journal");
    (journal.end, values.len())
}

/// Whether what a disk's file holds is what was appended to it.
fn holds_one<R: Abort, D: Disk>(rt: &R, alloc: Global, disk: &mut D) -> bool
    requires { D.is_reached disk.old ≡ true }
{
    append_one(rt, alloc, disk) == Appended::Stored && read_again(rt, alloc, disk) == (12, 1)
}

/// The file is locked as long as it is reached, and holds what was appended.
#[test]
fn a_real_file(rt: HostRuntime) {
    let mut disk = RealDisk::new(&rt);
    assert!(rt; disk.reach(NAME) == Reach::Reached);
    let mut other = RealDisk::new(&rt);
    assert!(rt; other.reach(NAME) == Reach::Failed);
    assert!(rt; holds_one(&rt, rt.alloc(), &mut disk));
    assert!(rt; fs::remove_file(&rt, NAME).is_ok());
}
