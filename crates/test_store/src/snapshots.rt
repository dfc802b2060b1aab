//! Readers of two orders and of what refreshes make of them.
ghost use Rattle.std.specs.Prelude.{◌≡◌, ◌<◌, length};
ghost use Rattle.store_snapshots.specs.Openings.{opening_at};
ghost use Rattle.store_snapshots.specs.Ruled.{opening_of};

use crate::files::{delete_nine, have_keys, insert_nine, key_of, two_orders};
use base_schema::TableName;
use plan_algebra::{Piece, Steps, Tables};
use std::alloc::Global;
use std::marker::Brand;
use std::process::Abort;
use std::sync::ledger::{Blank, Ledger};
use std::sync::{Arc, Wait};
use store_snapshots::{Published, Publisher, Reader, RuledEntry, Snapshot, SureEntry, open};
use store_state::Refresh;
use store_versions::Directory;

/// An insert of an order and a delete of the same, `count` times.
fn pairs<R: Abort>(rt: &R, alloc: Global, count: usize) -> Vec<Refresh> {
    let mut list = Vec::new(alloc);
    for _pair in 0..count {
        list.push(insert_nine(rt, alloc)).expect(rt, "memory");
        list.push(delete_nine(rt, alloc)).expect(rt, "memory");
    }
    list
}

/// Publishes `count` refreshes. Returns how many of the list were accepted.
fn publish<R: Wait>(rt: &R, publisher: &mut Publisher, count: usize) -> u64
    ensures base { publisher.new.version.base ≡ publisher.old.version.base }
    ensures list { publisher.new.version.list ≡ publisher.old.version.list }
    ensures most { publisher.new.version.most ≡ publisher.old.version.most }
{
    let mut accepted: u64 = 0;
    'publishing: for _refresh in 0..count {
        if let Published::Published(note) = publisher.publish_next(rt) {
            accepted = note.version();
        }
    }
    accepted
}

/// The pieces of a snapshot's orders.
fn scanned<R: Abort, L: Ledger>(
    rt: &R,
    alloc: Global,
    snapshot: &Snapshot,
    blank: Blank,
) -> Vec<Piece>
    requires name { blank.name ≡ L.name }
    requires parts { blank.parts ≡ L.parts }
    requires some { 0 < blank.parts }
{
    let mut steps = Steps::<L>::new(blank);
    let pieces = snapshot.scan(alloc, TableName::Orders, &mut steps);
    pieces.expect(rt, "memory")
}

/// Expects of a snapshot that it is of this version, and has the two orders of the base in one
/// piece.
fn expect_base<R: Abort>(rt: &R, alloc: Global, snapshot: &Snapshot, version: u64) {
    let pieces = scanned::<R, Brand>(rt, alloc, snapshot, Blank::new(1));
    assert!(rt; snapshot.version() == version && pieces.len() == 1);
    let batch = pieces[0].batch(alloc).expect(rt, "memory");
    assert!(rt; batch.len() == 2);
    for (i, key) in [(0, 7), (1, 8)] {
        assert!(rt; i < batch.len());
        let row = batch.row(alloc, i).expect(rt, "memory");
        assert!(rt; key_of(&row) == Some(key));
    }
}

/// A snapshot of the base keeps its rows while twenty refreshes and a compaction are published. The
/// reader, once it has learnt the last note, begins at the last version, whose rows are joined, and
/// once more after it met the list.
fn hold<R: Wait + Abort>(
    rt: &R,
    alloc: Global,
    publisher: &mut Publisher,
    reader: &mut Reader<RuledEntry>,
)
    requires { opening_of reader.old.entry ≡ opening_at publisher.old.version }
{
    let held = reader.begin().expect(rt, "memory");
    expect_base(rt, alloc, &held, 0);
    assert!(rt; publish(rt, publisher, 20) == 20);
    publisher.compact(rt).expect(rt, "memory");
    reader.learn(publisher.tell().expect(rt, "memory"));
    let last = reader.begin().expect(rt, "memory");
    expect_base(rt, alloc, &last, 20);
    expect_base(rt, alloc, &held, 0);
    reader.meet(rt).expect(rt, "memory");
    assert!(rt; reader.begin().expect(rt, "memory").version() == 20);
}

#[test]
fn holds_a_snapshot(rt: HostRuntime) {
    let alloc = rt.alloc();
    let list = pairs(&rt, alloc, 10);
    let most = list.len();
    let opened = open(&rt, alloc, two_orders(&rt, alloc), (), list, 1, most);
    let (mut publisher, mut readers) = opened.expect(&rt, "memory");
    hold(&rt, alloc, &mut publisher, &mut readers[0]);
    publisher.close(&rt);
}

/// Two orders and so many pairs of refreshes, with nothing tried.
fn base<R: Abort>(rt: &R, alloc: Global, count: usize) -> Directory
    ensures { result.most ≡ length result.list }
{
    let list = pairs(rt, alloc, count);
    let most = list.len();
    Directory::new(alloc, two_orders(rt, alloc), (), list, most).expect(rt, "memory")
}

/// The version after the next refresh, which is accepted.
fn next<R: Abort>(rt: &R, directory: &mut Directory) -> Directory
    ensures opening { opening_at result ≡ opening_at directory.old }
    ensures same { directory.new ≡ directory.old }
{
    assert!(rt; !directory.is_done());
    directory.after_next().expect(rt, "an accepted one")
}

/// A reader of the versions 0, 1 and 2.
fn sure_reader<R: Abort>(rt: &R, alloc: Global) -> Reader<SureEntry> {
    let mut zero = base(rt, alloc, 1);
    let mut one = next(rt, &mut zero);
    let two = next(rt, &mut one);
    let first = Arc::new(alloc, zero).expect(rt, "memory");
    let versions = vec![in alloc;
        Arc::try_clone(&first).expect(rt, "a share"),
        Arc::new(alloc, one).expect(rt, "memory"),
        Arc::new(alloc, two).expect(rt, "memory"),
    ];
    let share = Arc::try_clone(&first).expect(rt, "a share");
    let entry = SureEntry::new(share, versions.expect(rt, "memory"));
    Reader::new(entry, first)
}

#[test]
fn begins_at_each_version_in_turn(rt: HostRuntime) {
    let mut reader = sure_reader(&rt, rt.alloc());
    for version in [0, 1, 2, 2] {
        assert!(rt; reader.begin().expect(&rt, "memory").version() == version);
    }
}

/// The last of 66 versions after the base.
fn last_version<R: Abort>(rt: &R, alloc: Global) -> Directory {
    let mut directory = base(rt, alloc, 33);
    for _refresh in 0..66 {
        directory = next(rt, &mut directory);
    }
    directory
}

/// The third version comes with none before it, so that the first is made anew of it.
#[test]
fn makes_a_version_anew(rt: HostRuntime) {
    let last = last_version(&rt, rt.alloc());
    let third = last.older(3).expect(&rt, "the third");
    let first = third.older(1).expect(&rt, "the first");
    let rows = first.rows(TableName::Orders).expect(&rt, "memory");
    assert!(rt; first.version() == 1 && have_keys(&rows, &[7, 8, 9]));
}

/// A list that got longer begins as it was, and not the other way round.
#[test]
fn lists_get_longer(rt: HostRuntime) {
    let alloc = rt.alloc();
    let list = vec![in alloc; insert_nine(&rt, alloc)].expect(&rt, "memory");
    let short = Directory::new(alloc, two_orders(&rt, alloc), (), list, 2);
    let short = short.expect(&rt, "memory");
    let offered = short.offered(delete_nine(&rt, alloc));
    let long = offered.expect(&rt, "memory");
    assert!(rt; long.begins_with(&short, 0) && !short.begins_with(&long, 0));
}
