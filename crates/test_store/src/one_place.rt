//! Two threads that send through a queue of one place, and one that takes.
ghost use Rattle.std.specs.Prelude.{◌≡◌, ◌≤◌, ◌+◌, ◌++◌, true, [], length};
ghost use Rattle.std.specs.List.{AllByRecursion};
ghost use denote.Param.Send.{IsSync};
ghost use Rattle.store_refresh_entries.specs.Change.{MayBeStored};
ghost use Rattle.store_gateway.specs.Queue.{pick};
ghost use Rattle.store_gateway.specs.Roles.{new_sender, sent_by};
ghost use Rattle.store_gateway.specs.declared.message.SenderId.TheVariants.{First, Second};
ghost use Rattle.test_store.specs.Sendings.{Fits, HasSent};

use base_refusals::{LineFault, LineRefusal, RefreshFile};
use std::sync::Wait;
use std::thread;
use std::thread::{Threads, join};
use store_gateway::{Ended, Order, Sender, Taker, open_gateway, send_all};
use store_state::Refresh;

/// Takes until the ends of both senders were taken.
fn take_all<R: Wait>(rt: &R, mut taker: Taker) -> Taker
    ensures gateway { result.gateway ≡ taker.gateway }
    ensures ended { result.ended ≡ (true, true) }
{
    for _ in rt.forever() {
        if taker.is_ended() {
            return taker;
        }
        if taker.take(rt).is_err() {
            thread::yield_now();
        }
    }
    unreachable!()
}

/// Sends all that two senders send, each in a thread of its own.
fn send_both<R: Threads + Wait + Sync>(
    rt: &R,
    first: Sender,
    second: Sender,
    ones: Vec<Refresh>,
    twos: Vec<Refresh>,
) -> (Ended, Ended)
    requires first { Fits first ones.items }
    requires second { Fits second twos.items }
    ensures first { HasSent first ones.items result.0 }
    ensures second { HasSent second twos.items result.1 }
{
    join(
        rt,
        move ||
            requires { IsSync R.row × Fits first ones.items }
            ensures { HasSent first ones.items result }
        { send_all(rt, first, ones) },
        move ||
            requires { IsSync R.row × Fits second twos.items }
            ensures { HasSent second twos.items result }
        { send_all(rt, second, twos) },
    )
}

/// The order in which a third thread took what both senders sent.
fn order_of<R: Threads + Wait + Sync>(
    rt: &R,
    first: Sender,
    second: Sender,
    taker: Taker,
    ones: Vec<Refresh>,
    twos: Vec<Refresh>,
) -> Order
    requires senders { (first ≡ new_sender First taker) × (second ≡ new_sender Second taker) }
    requires ones { length ones.items ≤ taker.quotas.0 }
    requires twos { length twos.items ≤ taker.quotas.1 }
    requires storable { AllByRecursion MayBeStored ones.items
        × AllByRecursion MayBeStored twos.items }
    ensures first { sent_by First result ≡ ones.items }
    ensures second { sent_by Second result ≡ twos.items }
{
    let ((first, second), taker) = join(
        rt,
        move ||
            requires { IsSync R.row × Fits first ones.items × Fits second twos.items }
            ensures { HasSent first ones.items result.0 × HasSent second twos.items result.1 }
        { send_both(rt, first, second, ones, twos) },
        move ||
            requires { IsSync R.row }
            ensures { (result.gateway ≡ taker.gateway) × (result.ended ≡ (true, true)) }
        { take_all(rt, taker) },
    );
    taker.close(first, second)
}

/// A refresh with this number, which does nothing.
#[tactic(auto, using(crate::proofs::Storable::malformed_stored))]
fn numbered(set: u32) -> Refresh
    ensures { MayBeStored result }
{
    let refusal = LineRefusal {
        line: 1,
        fault: LineFault::FieldCount,
    };
    Refresh::malformed(RefreshFile::Delete, set, refusal)
}

#[test]
fn two_senders_through_one_place(rt: HostRuntime) {
    let alloc = rt.alloc();
    let ones = vec![in alloc; numbered(1), numbered(2), numbered(3)].expect(&rt, "memory");
    let twos = vec![in alloc; numbered(4), numbered(5)].expect(&rt, "memory");
    let (first, second, taker) = open_gateway(alloc, 1, 3, 2).expect(&rt, "memory");
    let order = order_of(&rt, first, second, taker, ones, twos);
    assert!(rt; order.senders().len() == 5);
}
