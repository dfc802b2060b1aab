//! One of the two senders.
ghost use Rattle.std.specs.Prelude.{◌≡◌, ◌<◌, ◌≤◌, ◌+◌, length};
ghost use Rattle.store_refresh_entries.specs.Change.{MayBeStored};
ghost use Rattle.store_gateway.specs.Queue.{pick};
ghost use Rattle.store_gateway.specs.Answers.{HasEnded, SendsEnd, SendsRefresh};

use crate::ended::Ended;
use crate::message::{Message, SenderId};
use crate::queue::{MessageQueue, Pushing, QueuePass};
use std::marker::Model;
use std::sync::{Arc, Wait};
use store_state::Refresh;

/// Sends refreshes, and then its end.
#[derive(Drop)]
pub struct Sender {
    pub(crate) queue: Arc<MessageQueue>,
    pub(crate) pass: QueuePass,
    pub(crate) id: SenderId,
}

impl Model for Sender {
    ghost use Rattle.store_gateway.specs.Insides.{IsSender, sending};
    ghost use Rattle.store_gateway.specs.Roles.{Sending};

    ghost Value = { Sending };

    ghost view = { sending };

    ghost invariant = { IsSender };
}

/// What comes of a refresh that is to be sent.
#[derive(Drop)]
pub enum Sent {
    Sent,
    /// The queue was full at a moment of the call, and the refresh comes back.
    Full(Refresh),
}

/// What comes of an end that is to be sent.
#[derive(Drop)]
pub enum End {
    Ended(Ended),
    /// The queue was full at a moment of the call, and the sender comes back.
    Full(Sender),
}

impl Sender {
    /// Sends a refresh. A queue that has room for both quotas and both ends is never full.
    pub fn send<R: Wait>(&mut self, rt: &R, refresh: Refresh) -> Sent
        requires quota { length self.old.sent < pick self.old.id self.old.quotas }
        requires storable { MayBeStored refresh }
        ensures sends { SendsRefresh self.old self.new refresh result }
        ensures room { self.old.quotas.0 + self.old.quotas.1 + 2 ≤ self.old.cap
            → result ≡ Sent.Sent }
    {
        let message = Message::Refresh(self.id, refresh);
        match self
            .queue
            .push_as::<Pushing, R>(rt, &mut self.pass, message)
        {
            Ok(()) => Sent::Sent,
            Err(Message::Refresh(_, refresh)) => Sent::Full(refresh),
            Err(_) => unreachable!(),
        }
    }

    /// Sends the end. A queue that has room for both quotas and both ends is never full.
    pub fn end<R: Wait>(self, rt: &R) -> End
        ensures ends { SendsEnd self result }
        ensures room { self.quotas.0 + self.quotas.1 + 2 ≤ self.cap → HasEnded result }
    {
        let Sender {
            queue,
            mut pass,
            id,
        } = self;
        match queue.push_as::<Pushing, R>(rt, &mut pass, Message::End(id)) {
            Ok(()) => End::Ended(Ended { queue, pass, id }),
            Err(_) => End::Full(Sender { queue, pass, id }),
        }
    }
}
