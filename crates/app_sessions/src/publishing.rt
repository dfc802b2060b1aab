//! What the publisher of a job does: it takes turns of a feed, and tells of each refresh.
ghost use Rattle.std.specs.Prelude.{◌≡◌, ◌⊎◌, ◌+◌, ◌<◌, ◌≤◌, ◌++◌, ◌&&◌, [], IfOk, OnOk, is_ok};
ghost use Rattle.std.specs.Prelude.{IsErrOf, length, true};
ghost use Rattle.base_io.specs.Outside.{Counts};
ghost use Rattle.store_snapshots.specs.Publishers.{LiesJoined};
ghost use Rattle.store_versions.specs.Trials.{Trials};
ghost use Rattle.app_sessions.specs.Compaction.{IsCompactedWhenDue, is_compaction_due};
ghost use Rattle.app_sessions.specs.Orders.{RefreshOrder};
ghost use Rattle.app_sessions.specs.Reports.{HasTried, IsTold, PublishesOne, refresh_line};

use crate::compaction::is_compaction_due;
use crate::report::{Report, tell_of};
use base_io::Gate;
use base_refusals::Cause;
use std::alloc::AllocError;
use std::sync::Wait;
use std::thread;
use store_snapshots::{Feed, FeedError, FeedTurn, Publisher};
use store_versions::Attachment;

/// Puts the segments together where that is due after a refresh.
fn compact_if_due<A: Attachment, R: Wait>(
    rt: &R,
    tried: Result<u64, Cause>,
    publisher: &mut Publisher<A>,
) -> Result<(), AllocError>
    ensures version { publisher.new.version ≡ publisher.old.version }
    ensures shown { OnOk result ((publisher.new.shown ≡ publisher.old.shown)
        ⊎ (publisher.new.shown ≡ publisher.old.version)) }
    ensures compacted { OnOk result (IfOk tried (λ version. is_compaction_due version ≡ true
        → LiesJoined publisher.new.version publisher.new.joined)) }
{
    match tried {
        Ok(version) if is_compaction_due(version) => publisher.compact(rt),
        _ => Ok(()),
    }
}

/// Puts the segments together where that is due after a refresh, and tells of it.
fn end_refresh<A: Attachment, R: Wait>(
    rt: &R,
    sender: Option<u64>,
    tried: Result<u64, Cause>,
    publisher: &mut Publisher<A>,
    report: &mut Report,
) -> Result<(), AllocError>
    requires room { report.old.count < publisher.old.version.done }
    requires within { publisher.old.version.done ≤ length publisher.old.version.list }
    ensures version { publisher.new.version ≡ publisher.old.version }
    ensures shown { OnOk result ((publisher.new.shown ≡ publisher.old.shown)
        ⊎ (publisher.new.shown ≡ publisher.old.version)) }
    ensures compacted { OnOk result (IfOk tried (λ version. is_compaction_due version ≡ true
        → LiesJoined publisher.new.version publisher.new.joined)) }
    ensures count { OnOk result (report.new.count ≡ report.old.count + 1) }
    ensures text { OnOk result (report.new.text.items
        ≡ report.old.text.items ++ refresh_line (report.old.count + 1) sender tried) }
    ensures accepted { OnOk result (report.new.accepted
        ≡ (report.old.accepted && is_ok tried)) }
{
    let listed = publisher.listed();
    prove!(report.count < listed);
    compact_if_due(rt, tried, publisher)?;
    tell_of(sender, tried, report)
}

/// Takes turns of the feed until one tries a refresh, puts the segments together where that is due,
/// and tells of the refresh. While the feed is idle it yields. Whether a refresh was tried: none is
/// where the feed has ended. After an error no turn is asked for.
fn publish_one<A: Attachment, F: Feed<Attached = A>, R: Wait>(
    rt: &R,
    publisher: &mut Publisher<A>,
    report: &mut Report,
    feed: &mut F,
) -> Result<bool, FeedError>
    requires fits { F.fits feed.old publisher.old.version }
    requires room { report.old.count ≤ publisher.old.version.done }
    ensures fits { OnOk result (F.fits feed.new publisher.new.version) }
    ensures one { IfOk result (PublishesOne (F.tried feed.old) (F.tried feed.new)
        (F.is_over feed.new) publisher.old publisher.new report.old report.new) }
    ensures compacted { OnOk result (IsCompactedWhenDue publisher.old.version
        publisher.new.version publisher.new.joined) }
    ensures source { F.source feed.new ≡ F.source feed.old }
    ensures failed { Counts (IsErrOf result FeedError.Failed)
        (F.faults feed.old) (F.faults feed.new) }
{
    'waiting: for _ in rt.forever() {
        match feed.turn(rt, publisher)? {
            FeedTurn::Published(sender, note) => {
                end_refresh(rt, sender, Ok(note.version()), publisher, report)?;
                return Ok(true);
            }
            FeedTurn::Refused(sender, cause) => {
                end_refresh(rt, sender, Err(cause), publisher, report)?;
                return Ok(true);
            }
            FeedTurn::Idle => thread::yield_now(),
            FeedTurn::Ended => return Ok(false),
        }
    }
    unreachable!()
}

/// Has `count` refreshes of the publisher's list tried by turns of a feed that tried none, and
/// tells of them.
pub fn publish_first<A: Attachment, F: Feed<Attached = A>, R: Wait>(
    rt: &R,
    count: usize,
    publisher: &mut Publisher<A>,
    report: &mut Report,
    feed: &mut F,
) -> Result<(), FeedError>
    requires shown { publisher.old.shown ≡ publisher.old.version }
    requires fits { F.fits feed.old publisher.old.version }
    requires fresh { F.tried feed.old ≡ [] }
    requires places { publisher.old.version.done + count ≤ length publisher.old.version.list }
    requires told { IsTold publisher.old.version [] report.old }
    ensures fits { OnOk result (F.fits feed.new publisher.new.version) }
    ensures tried { OnOk result (HasTried publisher.old.version publisher.new
        (F.tried feed.new)) }
    ensures told { OnOk result (IsTold publisher.old.version (F.tried feed.new) report.new) }
    ensures done { OnOk result (publisher.new.version.done ≡ publisher.old.version.done + count) }
    ensures count { OnOk result (report.new.count ≡ count) }
    ensures list { OnOk result (publisher.new.version.list ≡ publisher.old.version.list) }
    ensures source { F.source feed.new ≡ F.source feed.old }
    ensures failed { Counts (IsErrOf result FeedError.Failed)
        (F.faults feed.old) (F.faults feed.new) }
{
    'publishing: for _k in 0..count {
        if !publish_one(rt, publisher, report, feed)? {
            unreachable!()
        }
    }
    Ok(())
}

/// Has the feed's refreshes tried until it ends, passes the gate before and after each, and tells
/// of them. Before the feed's end it passes the gate once more.
pub fn publish_rest<A: Attachment, F: Feed<Attached = A>, G: Gate, R: Wait>(
    rt: &R,
    gate: &G,
    publisher: &mut Publisher<A>,
    report: &mut Report,
    feed: &mut F,
) -> Result<(), FeedError>
    requires fits { F.fits feed.old publisher.old.version }
    requires room { report.old.count ≤ publisher.old.version.done }
    ensures fits { OnOk result (F.fits feed.new publisher.new.version) }
    ensures over { OnOk result (F.is_over feed.new publisher.new.version) }
    ensures done { OnOk result (publisher.new.version.done ≡ length publisher.new.version.list) }
    ensures tried { OnOk result ((start : Trials) (first : RefreshOrder)
        → HasTried start publisher.old (first ++ F.tried feed.old)
        → HasTried start publisher.new (first ++ F.tried feed.new)) }
    ensures told { OnOk result ((start : Trials) (first : RefreshOrder)
        → HasTried start publisher.old (first ++ F.tried feed.old)
        → IsTold start (first ++ F.tried feed.old) report.old
        → IsTold start (first ++ F.tried feed.new) report.new) }
    ensures source { F.source feed.new ≡ F.source feed.old }
    ensures failed { Counts (IsErrOf result FeedError.Failed)
        (F.faults feed.old) (F.faults feed.new) }
{
    let mut turn = (report.count as u64).saturating_mul(2).saturating_add(2);
    'publishing: for _ in rt.forever() {
        gate.pass(0, turn);
        if !publish_one(rt, publisher, report, feed)? {
            return Ok(());
        }
        gate.pass(0, turn.saturating_add(1));
        turn = turn.saturating_add(2);
    }
    unreachable!()
}
