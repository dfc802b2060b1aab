//! All that a sender sends.
ghost use Rattle.std.specs.Prelude.{◌≡◌, ◌<◌, ◌≤◌, ◌+◌, ◌++◌, length};
ghost use Rattle.std.specs.List.{AllByRecursion};
ghost use Rattle.store_refresh_entries.specs.Change.{MayBeStored};
ghost use Rattle.store_gateway.specs.Queue.{pick};
ghost use Rattle.store_gateway.specs.Roles.{sent_more};

use crate::ended::Ended;
use crate::sender::{End, Sender, Sent};
use std::sync::Wait;
use std::thread;
use store_state::Refresh;

/// Sends this refresh, and tries again while the queue is full.
fn send_one<R: Wait>(rt: &R, mut refresh: Refresh, sender: &mut Sender)
    requires quota { length sender.old.sent < pick sender.old.id sender.old.quotas }
    requires storable { MayBeStored refresh }
    ensures { sender.new ≡ sent_more refresh sender.old }
{
    for _ in rt.forever() {
        match sender.send(rt, refresh) {
            Sent::Sent => return,
            Sent::Full(back) => refresh = back,
        }
        thread::yield_now();
    }
    unreachable!()
}

/// Sends the end, and tries again while the queue is full.
fn send_end<R: Wait>(rt: &R, mut sender: Sender) -> Ended
    ensures { result ≡ sender }
{
    for _ in rt.forever() {
        match sender.end(rt) {
            End::Ended(ended) => return ended,
            End::Full(back) => sender = back,
        }
        thread::yield_now();
    }
    unreachable!()
}

/// Sends these refreshes in their order, and then the end. It yields after each of them, so that
/// other senders come in between, and while the queue is full.
pub fn send_all<R: Wait>(rt: &R, mut sender: Sender, refreshes: Vec<Refresh>) -> Ended
    requires quota { length sender.sent + length refreshes.items ≤ pick sender.id sender.quotas }
    requires storable { AllByRecursion MayBeStored refreshes.items }
    ensures sender { (result.gateway ≡ sender.gateway) × (result.id ≡ sender.id) }
    ensures sent { result.sent ≡ sender.sent ++ refreshes.items }
{
    for refresh in refreshes {
        send_one(rt, refresh, &mut sender);
        thread::yield_now();
    }
    send_end(rt, sender)
}
