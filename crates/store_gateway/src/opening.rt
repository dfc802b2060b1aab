//! Two senders and a taker of one queue.
ghost use Rattle.std.specs.Prelude.{◌≡◌, ◌≤◌, false, [], IfOk};
ghost use Rattle.store_gateway.specs.Roles.{new_sender};
ghost use Rattle.store_gateway.specs.declared.message.SenderId.TheVariants.{First, Second};

use crate::message::{Message, SenderId};
use crate::queue::{FirstApart, MessageQueue, Opening, Pushing, SecondApart};
use crate::sender::Sender;
use crate::taker::Taker;
use std::alloc::{AllocError, Global};
use std::sync::Arc;

/// Opens a gateway that holds at most `cap` messages, and whose senders may send so many refreshes.
pub fn open_gateway(
    alloc: Global,
    cap: usize,
    first_quota: u64,
    second_quota: u64,
) -> Result<(Sender, Sender, Taker), AllocError>
    requires cap { (1 ≤ cap) × (cap ≤ 1026) }
    ensures first { IfOk result (λ g. g.0 ≡ new_sender First g.2) }
    ensures second { IfOk result (λ g. g.1 ≡ new_sender Second g.2) }
    ensures taker { IfOk result (λ g. g.2 ≡ record {
      gateway = g.2.gateway;
      taken = [];
      ended = (false, false);
      quotas = (first_quota, second_quota);
      cap = cap;
    }) }
{
    let (line, mut pass) = MessageQueue::ruled(alloc, cap)?;
    // The quotas come into the rule through the queue, since no other value reaches it.
    let quotas = Message::Quotas(first_quota, second_quota);
    let Ok(()) = line.try_push_as::<Pushing>(&mut pass, quotas) else {
        return Err(AllocError);
    };
    let Some(_quotas) = line.try_pop_as::<Opening>(&mut pass) else {
        return Err(AllocError);
    };
    let first_pass = line.another::<FirstApart>(&mut pass);
    let second_pass = line.another::<SecondApart>(&mut pass);
    let queue = Arc::new(alloc, line)?;
    let first_queue = Arc::try_clone(&queue)?;
    let second_queue = Arc::try_clone(&queue)?;
    let first = Sender {
        queue: first_queue,
        pass: first_pass,
        id: SenderId::First,
    };
    let second = Sender {
        queue: second_queue,
        pass: second_pass,
        id: SenderId::Second,
    };
    let taker = Taker {
        queue,
        pass,
        senders: Vec::new(alloc),
        first_ended: false,
        second_ended: false,
    };
    Ok((first, second, taker))
}
