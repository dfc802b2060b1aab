//! What one thread of a job does: it runs the sessions of one reader, one after another.
ghost use Rattle.std.specs.Prelude.{◌≡◌, ◌≤◌, OnOk};
ghost use denote.Param.Send.{IsSync};
ghost use Rattle.store_versions.specs.Trials.{version_of};
ghost use Rattle.store_snapshots.specs.Openings.{AllBegin, IsOf, Narrower};
ghost use Rattle.app_sessions.specs.Asked.{IsOverOf, IsUnasked, job_session};
ghost use Rattle.app_sessions.specs.Workers.{AllHaveRun, AllReady, HasRun, IsReady};
ghost use Rattle.store_snapshots.specs.Ruled.{list_fits, opening_of};

use crate::session::{Session, Turn};
use base_io::Gate;
use std::alloc::AllocError;
use std::thread::{Threads, for_each_mut};
use store_snapshots::{Entry, Reader, RuledEntry};
use store_versions::Attachment;

/// A reader and the sessions that it serves.
#[derive(Drop)]
pub struct Worker<E: Entry + Drop> {
    /// The reader.
    pub reader: Reader<E>,
    /// Its sessions, in the order in which they are run.
    pub sessions: Vec<Session>,
    /// Whether memory ran out.
    pub is_lost: bool,
    /// The number of its first session.
    pub first: u32,
    /// How far the numbers of two sessions lie apart that follow one another.
    pub step: u32,
}

/// Runs a session to its end, and takes the published version anew for each statement. Before and
/// after each statement it passes the gate.
fn run_session<E: Entry + Drop, G: Gate, R: Threads + Sync>(
    rt: &R,
    gate: &G,
    who: u32,
    reader: &mut Reader<E>,
    session: &mut Session,
) -> Result<(), AllocError>
    requires seen { IsOf (E.opening reader.old.entry) reader.old.seen }
    requires list { AllBegin (E.fits reader.old.entry) reader.old.seen.list }
    requires unasked { IsUnasked session.old }
    ensures opening { E.opening reader.new.entry ≡ E.opening reader.old.entry }
    ensures seen { IsOf (E.opening reader.new.entry) reader.new.seen }
    ensures list { AllBegin (E.fits reader.new.entry) reader.new.seen.list }
    ensures more { Narrower (E.fits reader.old.entry) (E.fits reader.new.entry) }
    ensures later { version_of reader.old.seen ≤ version_of reader.new.seen }
    ensures same { OnOk result (job_session session.new ≡ job_session session.old) }
    ensures over { OnOk result (IsOverOf (E.opening reader.old.entry) (E.fits reader.new.entry)
        (version_of reader.old.seen) session.new) }
{
    let mut turn = 2u64;
    'asking: while !session.is_ended() {
        gate.pass(who, turn);
        let snapshot = reader.begin()?;
        match session.run_next(rt, &snapshot)? {
            Turn::Answered => {}
            Turn::AskedRefresh(_, _) | Turn::Ended => unreachable!(),
        }
        gate.pass(who, turn.saturating_add(1));
        turn = turn.saturating_add(2);
    }
    Ok(())
}

/// Runs the sessions of a worker, one after another. Where memory runs out it stops and says so.
pub fn run_worker<E: Entry + Drop, G: Gate, R: Threads + Sync>(
    rt: &R,
    gate: &G,
    worker: &mut Worker<E>,
)
    requires { IsReady E.opening E.fits worker.old }
    ensures { HasRun E.opening E.fits worker.old worker.new }
{
    let mut who = worker.first;
    'serving: for j in 0..worker.sessions.len() {
        if run_session(rt, gate, who, &mut worker.reader, &mut worker.sessions[j]).is_err() {
            worker.is_lost = true;
            return;
        }
        who = who.saturating_add(worker.step);
    }
}

/// Runs each worker in a thread of its own, and waits for all of them.
pub fn run_workers<A: Attachment + Send + Sync, G: Gate + Sync, R: Threads + Sync>(
    rt: &R,
    gate: &G,
    workers: &mut [Worker<RuledEntry<A>>],
)
    requires { AllReady opening_of list_fits workers.old }
    ensures { AllHaveRun opening_of list_fits workers.old workers.new }
{
    let count = workers.len().max(1);
    for_each_mut(
        rt,
        workers,
        count,
        &|_: usize, worker: &mut Worker<RuledEntry<A>>|
            requires { IsSync R.row × IsReady opening_of list_fits worker.old }
            ensures { HasRun opening_of list_fits worker.old worker.new }
        { run_worker(rt, gate, worker) },
    );
}
