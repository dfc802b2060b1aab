//! A job of which two senders send the refreshes beside the sessions, each in a thread of its own.
ghost use Rattle.std.specs.Prelude.{◌≡◌, ◌+◌, ◌<◌, ◌^◌, [], ◌∷◌, ◌++◌, IfOk, OnOk, length, vec_len};
ghost use Rattle.std.specs.Prelude.{ℕ, List, None, Option};
ghost use Rattle.std.specs.List.{zip};
ghost use denote.Param.Send.{IsSync};
ghost use Rattle.store_gateway.specs.Roles.{sent_by};
ghost use Rattle.store_gateway.specs.declared.message.SenderId.TheVariants.{First, Second};
ghost use Rattle.store_snapshots.specs.Ruled.{opening_of};
ghost use Rattle.app_sessions.specs.Asked.{AllUnasked, job_sessions};
ghost use Rattle.app_sessions.specs.Workers.{AreOfOpening};
ghost use Rattle.app_jobs.specs.JobTexts.{IsTextInOrder};
ghost use Rattle.app_jobs.specs.Sources.{IsKeepable, IsRunnable, work_view};
ghost use Rattle.app_jobs.specs.Receivers.{AreOfOneGateway, BothEnd, CanReceive, HasReceived};
ghost use Rattle.app_jobs.specs.Receivers.{MaySendBoth};
ghost use Rattle.app_jobs.specs.Senders.{EndsAfter, IsSentText, IsTakenText, MaySend, MayTake};
ghost use Rattle.app_jobs.specs.Senders.{TakesAll};

use crate::sources::JobSources;
use app_sessions::{JobError, JobSetup, JobText, Session, run_job};
use base_io::Gate;
use std::alloc::{AllocError, Global};
use std::marker::PhantomData;
use std::sync::Wait;
use std::thread::{Threads, join};
use store_gateway::{Ended, GatewayFeed, Sender, SenderId, open_gateway, send_all};
use store_snapshots::{Publisher, RuledEntry, open};
use store_state::{Refresh, State};
use store_versions::Attachment;

/// How many messages the queue of the senders holds at most: as many as a job has refreshes, and
/// the ends of both senders. So it is never full.
pub(crate) const MOST_MESSAGES: usize = 1026;

/// Gives a refresh to its sender.
fn give(
    sender: SenderId,
    refresh: Refresh,
    first: &mut Vec<Refresh>,
    second: &mut Vec<Refresh>,
) -> Result<(), AllocError>
    ensures first { OnOk result (first.new.items
        ≡ first.old.items ++ sent_by First ((sender, refresh) ∷ [])) }
    ensures second { OnOk result (second.new.items
        ≡ second.old.items ++ sent_by Second ((sender, refresh) ∷ [])) }
{
    match sender {
        SenderId::First => first.push(refresh)?,
        SenderId::Second => second.push(refresh)?,
    }
    Ok(())
}

/// Gives refreshes to their senders. Each sender's keep their order.
pub(crate) fn divide(
    alloc: Global,
    senders: &[SenderId],
    sent: Vec<Refresh>,
) -> Result<(Vec<Refresh>, Vec<Refresh>), AllocError>
    requires { length sent.items ≡ length senders.now }
    ensures first { IfOk result (λ r. r.0.items ≡ sent_by First (zip senders.now sent.items)) }
    ensures second { IfOk result (λ r. r.1.items ≡ sent_by Second (zip senders.now sent.items)) }
{
    let mut first = Vec::new(alloc);
    let mut second = Vec::new(alloc);
    let mut left = sent.into_iter();
    'dividing: for sender in senders {
        match left.next() {
            Some(refresh) => give(*sender, refresh, &mut first, &mut second)?,
            None => unreachable!(),
        }
    }
    Ok((first, second))
}

/// The senders of a job, and what each of them sends.
#[derive(Drop)]
pub struct Senders {
    pub(crate) first: Sender,
    pub(crate) second: Sender,
    pub(crate) firsts: Vec<Refresh>,
    pub(crate) seconds: Vec<Refresh>,
}

/// Sends the refreshes of two senders, each sender's in a thread of its own.
pub(crate) fn send_both<R: Threads + Wait + Sync>(rt: &R, senders: Senders) -> (Ended, Ended)
    requires { MaySendBoth senders }
    ensures { BothEnd senders result }
{
    let Senders {
        first,
        second,
        firsts,
        seconds,
    } = senders;
    join(
        rt,
        move ||
            requires { IsSync R.row × MaySend first firsts.items }
            ensures { EndsAfter first firsts.items result }
        { send_all(rt, first, firsts) },
        move ||
            requires { IsSync R.row × MaySend second seconds.items }
            ensures { EndsAfter second seconds.items result }
        { send_all(rt, second, seconds) },
    )
}

/// What runs beside the senders.
#[derive(Drop)]
pub struct Receiver<A: Attachment = ()> {
    /// The sessions, at their beginning.
    sessions: Vec<Session>,
    /// The tables.
    base: State,
    /// What is attached to them.
    attachment: A,
    /// The refreshes that are tried before the sessions.
    list: Vec<Refresh>,
    /// How many refreshes there are in all.
    most: usize,
    /// What is sent.
    feed: GatewayFeed<A>,
}

/// Runs the sessions beside a publisher of its list and of what is sent. There is no text where too
/// few refreshes came.
fn run_open<A: Attachment + Send + Sync, R: Threads + Wait + Sync, G: Gate + Sync>(
    rt: &R,
    alloc: Global,
    gate: &G,
    setup: JobSetup<RuledEntry<A>>,
    mut feed: GatewayFeed<A>,
    publisher: &mut Publisher<A>,
) -> Result<(Option<JobText>, GatewayFeed<A>), AllocError>
    requires sessions { (0 < vec_len setup.sessions) × (vec_len setup.sessions < 2 ^ 32) }
    requires unasked { AllUnasked setup.sessions.items }
    requires readers { 0 < vec_len setup.readers }
    requires opened { AreOfOpening opening_of publisher.old.version setup.readers.items }
    requires shown { publisher.old.shown ≡ publisher.old.version }
    requires fresh { publisher.old.version.done ≡ 0 }
    requires before { setup.before ≡ length publisher.old.version.list }
    requires most { setup.most ≡ publisher.old.version.most }
    requires taker { MayTake feed.taker publisher.old.version.list publisher.old.version.most }
    ensures text { IfOk result (λ received. IsTakenText publisher.old.version.base
        publisher.old.version.list publisher.old.version.most
        (job_sessions setup.sessions.items) received.1.taker received.0) }
    ensures taken { IfOk result (λ received. TakesAll feed.taker received.1.taker) }
{
    match run_job(rt, alloc, gate, setup, publisher, &mut feed) {
        Ok(text) => Ok((Some(text), feed)),
        Err(JobError::TooFewRefreshes) => Ok((None, feed)),
        Err(JobError::Failed) => unreachable!(),
        Err(JobError::OutOfMemory) => Err(AllocError),
    }
}

/// `run_open` with a publisher that is opened for it, and closed.
fn run_receiver<A: Attachment + Send + Sync, R: Threads + Wait + Sync, G: Gate + Sync>(
    rt: &R,
    alloc: Global,
    gate: &G,
    receiver: Receiver<A>,
) -> Result<(Option<JobText>, GatewayFeed<A>), AllocError>
    requires { CanReceive A.is_right receiver }
    ensures { IfOk result (λ received. HasReceived receiver received.0 received.1) }
{
    let Receiver {
        sessions,
        base,
        attachment,
        list,
        most,
        feed,
    } = receiver;
    let before = list.len();
    let count = sessions.len() as u32;
    let (mut publisher, readers) = open(rt, alloc, base, attachment, list, count, most)?;
    let setup = JobSetup {
        sessions,
        readers,
        before,
        most,
    };
    let received = run_open(rt, alloc, gate, setup, feed, &mut publisher);
    publisher.close(rt);
    received
}

/// Runs the senders in threads of their own, and the sessions beside a publisher of what they send.
fn run_joined<A: Attachment + Send + Sync, R: Threads + Wait + Sync, G: Gate + Sync>(
    rt: &R,
    alloc: Global,
    gate: &G,
    senders: Senders,
    receiver: Receiver<A>,
) -> Result<JobText, AllocError>
    requires senders { MaySendBoth senders }
    requires receiver { CanReceive A.is_right receiver }
    requires both { AreOfOneGateway senders receiver }
    ensures { IfOk result (IsSentText receiver.base receiver.list.items
        senders.firsts.items senders.seconds.items (job_sessions receiver.sessions.items)) }
{
    let ((first, second), received) = join(
        rt,
        move ||
            requires { IsSync R.row × MaySendBoth senders }
            ensures { BothEnd senders result }
        { send_both(rt, senders) },
        move ||
            requires { IsSync R.row × IsSync G.row × IsSync A.row
                × CanReceive A.is_right receiver }
            ensures { IfOk result (λ received. HasReceived receiver received.0 received.1) }
        { run_receiver(rt, alloc, gate, receiver) },
    );
    let (text, feed) = received?;
    let _order = feed.close(first, second);
    match text {
        Some(text) => Ok(text),
        None => unreachable!(),
    }
}

/// Runs the sessions beside a publisher of the refreshes, of which two senders send those that are
/// not tried before the sessions.
pub fn run_with_senders<A: Attachment + Send + Sync, R: Threads + Wait + Sync, G: Gate + Sync>(
    rt: &R,
    alloc: Global,
    gate: &G,
    attachment: A,
    sources: JobSources,
) -> Result<JobText, AllocError>
    requires right { A.is_right attachment sources.base }
    requires runnable { IsRunnable sources }
    requires sent { 0 < length sources.senders.items }
    requires keepable { IsKeepable sources }
    requires plain { sources.journal ≡ None }
    ensures { (reads : Option (List ℕ)) → IfOk result (IsTextInOrder (work_view sources) reads
        (job_sessions sources.sessions.items)) }
{
    let JobSources {
        keeps: _keeps,
        sessions,
        base,
        mut list,
        before,
        senders,
        journal: _journal,
    } = sources;
    let most = list.len();
    let sent = list.split_off(before)?;
    let (firsts, seconds) = divide(alloc, senders.as_slice(), sent)?;
    let (first, second, taker) = open_gateway(
        alloc,
        MOST_MESSAGES,
        firsts.len() as u64,
        seconds.len() as u64,
    )?;
    let senders = Senders {
        first,
        second,
        firsts,
        seconds,
    };
    let receiver = Receiver {
        sessions,
        base,
        attachment,
        list,
        most,
        feed: GatewayFeed {
            taker,
            of: PhantomData,
        },
    };
    run_joined(rt, alloc, gate, senders, receiver)
}
