//! The end of a job's run: each reader meets the publisher, whose list is whole by then.
ghost use Rattle.std.specs.Prelude.{◌≡◌, OnOk, length};
ghost use Rattle.store_snapshots.specs.Ruled.{list_fits, opening_of};
ghost use Rattle.app_sessions.specs.Workers.{AllHaveMet, AllMayMeet, HasMet, MayMeet};

use crate::worker::Worker;
use std::alloc::AllocError;
use std::sync::Wait;
use store_snapshots::{Publisher, RuledEntry};
use store_versions::Attachment;

/// Has a worker's reader enter the version that is shown, whose list it is told of. So that list
/// begins with each one that the reader saw. It isn't longer than the list may get, so it is just
/// the one that is shown.
fn meet_worker<A: Attachment, R: Wait>(
    rt: &R,
    publisher: &Publisher<A>,
    worker: &mut Worker<RuledEntry<A>>,
) -> Result<(), AllocError>
    requires opened { MayMeet opening_of publisher.now.shown worker.old }
    requires whole { length publisher.now.shown.list ≡ publisher.now.shown.most }
    ensures { OnOk result (HasMet list_fits publisher.now.shown.list worker.old worker.new) }
{
    worker.reader.learn(publisher.tell()?);
    worker.reader.meet(rt)
}

/// Has the readers of all workers enter the version that is shown.
pub fn meet_workers<A: Attachment, R: Wait>(
    rt: &R,
    publisher: &Publisher<A>,
    workers: &mut [Worker<RuledEntry<A>>],
) -> Result<(), AllocError>
    requires opened { AllMayMeet opening_of publisher.now.shown workers.old }
    requires whole { length publisher.now.shown.list ≡ publisher.now.shown.most }
    ensures { OnOk result (AllHaveMet list_fits publisher.now.shown.list workers.old
        workers.new) }
{
    'meeting: for i in 0..workers.len() {
        meet_worker(rt, publisher, &mut workers[i])?;
    }
    Ok(())
}
