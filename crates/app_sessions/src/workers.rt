//! Making the workers of a job, and assigning its sessions to them.
ghost use Rattle.std.specs.Prelude.{◌≡◌, ◌<◌, [], ◌∷◌, ◌++◌, ℕ, IfOk, OnOk, Some, length, vec_len};
ghost use Rattle.store_versions.specs.Trials.{version_of};
ghost use Rattle.store_snapshots.specs.Openings.{IsOf, opening_at};
ghost use Rattle.store_snapshots.specs.Ruled.{list_fits, opening_of};
ghost use Rattle.app_sessions.specs.Asked.{AllUnasked, IsUnasked};
ghost use Rattle.app_sessions.specs.Workers.{AllInformed, AllIdle, AreAssigned, AreOfOpening};
ghost use Rattle.app_sessions.specs.Workers.{IsInformed};
ghost use Rattle.app_sessions.specs.Workers.{next_place};

use crate::session::Session;
use crate::worker::Worker;
use std::alloc::{AllocError, Global};
use store_snapshots::{Entry, Publisher, Reader, RuledEntry};
use store_versions::Attachment;

/// The worker of a reader that is told of the last version.
fn make_worker<A: Attachment>(
    alloc: Global,
    first: u32,
    step: u32,
    mut reader: Reader<RuledEntry<A>>,
    publisher: &Publisher<A>,
) -> Result<Worker<RuledEntry<A>>, AllocError>
    requires opened { opening_of reader.entry ≡ opening_at publisher.now.version }
    requires shown { IsOf (opening_at publisher.now.version) publisher.now.shown }
    ensures informed { IfOk result (IsInformed opening_of list_fits publisher.now.version
        (version_of publisher.now.version)) }
    ensures idle { IfOk result (λ worker. worker.sessions.items ≡ []) }
{
    reader.learn(publisher.tell()?);
    Ok(Worker {
        reader,
        sessions: Vec::new(alloc),
        is_lost: false,
        first,
        step,
    })
}

/// A worker for each reader, which is told of the last version.
pub fn make_workers<A: Attachment>(
    alloc: Global,
    mut readers: Vec<Reader<RuledEntry<A>>>,
    publisher: &Publisher<A>,
) -> Result<Vec<Worker<RuledEntry<A>>>, AllocError>
    requires opened { AreOfOpening opening_of publisher.now.version readers.items }
    requires shown { IsOf (opening_at publisher.now.version) publisher.now.shown }
    ensures len { IfOk result (λ workers. vec_len workers ≡ vec_len readers) }
    ensures informed { IfOk result (λ workers. AllInformed opening_of list_fits
        publisher.now.version (version_of publisher.now.version) workers.items) }
    ensures idle { IfOk result (λ workers. AllIdle workers.items) }
{
    let step = readers.len().min(u32::MAX as usize) as u32;
    let mut workers = Vec::new(alloc);
    let mut first = 1u32;
    'making: while let Some(reader) = readers.pop() {
        workers.push(make_worker(alloc, first, step, reader, publisher)?)?;
        first = first.saturating_add(1);
    }
    Ok(workers)
}

/// The worker whose turn is next.
fn next_turn(turn: usize, count: usize) -> usize
    requires { turn < count }
    ensures next { (round : ℕ) → result ≡ (next_place count (turn, round)).0 }
    ensures within { result < count }
{
    if turn + 1 < count { turn + 1 } else { 0 }
}

/// Gives a worker one session more.
fn push_session<E: Entry + Drop>(worker: &mut Worker<E>, session: Session) -> Result<(), AllocError>
    requires { IsUnasked session }
    ensures reader { worker.new.reader ≡ worker.old.reader }
    ensures going { worker.new.is_lost ≡ worker.old.is_lost }
    ensures sessions { OnOk result (worker.new.sessions.items
        ≡ worker.old.sessions.items ++ session ∷ []) }
{
    worker.sessions.push(session)?;
    Ok(())
}

/// Assigns sessions to workers in turn.
pub fn assign_sessions<E: Entry + Drop>(
    mut sessions: Vec<Session>,
    workers: &mut [Worker<E>],
) -> Result<(), AllocError>
    requires some { 0 < length workers.old }
    requires unasked { AllUnasked sessions.items }
    requires idle { AllIdle workers.old }
    ensures { OnOk result (AreAssigned sessions.items workers.old workers.new (vec_len sessions)) }
{
    let mut turn = 0;
    'assigning: for _k in 0..sessions.len() {
        let worker = &mut workers[turn];
        let session = sessions.remove(0);
        push_session(worker, session)?;
        turn = next_turn(turn, workers.len());
    }
    Ok(())
}
