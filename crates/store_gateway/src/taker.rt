//! The one that takes what the senders send.
ghost use Rattle.std.specs.Prelude.{◌≡◌, ◌<◌, ◌≤◌, ◌+◌, ◌∷◌, ◌++◌, ◌||◌, ◌↔◌, true, [], List};
ghost use Rattle.std.specs.Prelude.{length, vec_len, IfOk, IsTrue, OnErr};
ghost use Rattle.store_gateway.specs.Queue.{is_same_sender};
ghost use Rattle.store_gateway.specs.Roles.{sent_by};
ghost use Rattle.store_gateway.specs.Answers.{TakesMessage, TookStorable};
ghost use Rattle.store_gateway.specs.declared.message.SenderId.{SenderId as SenderName};
ghost use Rattle.store_gateway.specs.declared.message.SenderId.TheVariants.{First, Second};

use crate::ended::Ended;
use crate::message::{Message, SenderId};
use crate::order::Order;
use crate::queue::{FirstApart, Gathering, MessageQueue, Popping, QueuePass, SecondApart};
use std::alloc::AllocError;
use std::marker::Model;
use std::sync::{Arc, Wait};
use store_state::Refresh;

/// Takes refreshes and ends, one by one.
pub struct Taker {
    pub(crate) queue: Arc<MessageQueue>,
    pub(crate) pass: QueuePass,
    pub(crate) senders: Vec<SenderId>,
    pub(crate) first_ended: bool,
    pub(crate) second_ended: bool,
}

impl Drop for Taker {
    #[inline]
    fn drop(self) {
        let Taker {
            queue,
            pass,
            senders,
            first_ended: _,
            second_ended: _,
        } = self;
        drop(queue);
        drop(pass);
        drop(senders);
    }
}

impl Model for Taker {
    ghost use Rattle.store_gateway.specs.Insides.{IsTaker, taking};
    ghost use Rattle.store_gateway.specs.Roles.{Taking};

    ghost Value = { Taking };

    ghost view = { taking };

    ghost invariant = { IsTaker };
}

/// What was taken.
#[derive(Drop)]
pub enum Took {
    Took(SenderId, Refresh),
    /// The end of this sender.
    EndOf(SenderId),
    /// Nothing: the queue was empty at a moment of the call.
    Empty,
}

/// Puts this sender in the place of the last one.
fn replace_last(id: SenderId, senders: &mut Vec<SenderId>)
    requires { 0 < vec_len senders.old }
    ensures { (rest : List SenderName) (x : SenderName) → senders.old.items ≡ rest ++ x ∷ []
        → senders.new.items ≡ rest ++ id ∷ [] }
{
    let last = senders.len() - 1;
    senders[last] = id;
}

/// Takes the last sender off.
fn drop_last(senders: &mut Vec<SenderId>)
    ensures { (rest : List SenderName) (x : SenderName) → senders.old.items ≡ rest ++ x ∷ []
        → senders.new.items ≡ rest }
{
    senders.pop();
}

/// Whether a sender has ended, if this one does now.
fn has_ended(before: bool, sender: SenderId, now: SenderId) -> bool
    ensures { result ≡ (before || is_same_sender sender now) }
{
    match (sender, now) {
        (SenderId::First, SenderId::First) | (SenderId::Second, SenderId::Second) => true,
        _ => before,
    }
}

impl Taker {
    /// Takes the oldest message. Where memory runs out nothing is taken.
    pub fn take<R: Wait>(&mut self, rt: &R) -> Result<Took, AllocError>
        ensures ok { IfOk result (TakesMessage self.old self.new) }
        ensures storable { IfOk result TookStorable }
        ensures err { OnErr result (self.new ≡ self.old) }
        ensures few { length self.new.taken ≤ self.new.quotas.0 + self.new.quotas.1 }
    {
        // The room for an entry comes first, so that a message that is popped is always noted.
        self.senders.push(SenderId::First)?;
        match self.queue.pop_as::<Popping, R>(rt, &mut self.pass) {
            Some(Message::Refresh(id, refresh)) => {
                replace_last(id, &mut self.senders);
                Ok(Took::Took(id, refresh))
            }
            Some(Message::End(id)) => {
                drop_last(&mut self.senders);
                self.first_ended = has_ended(self.first_ended, SenderId::First, id);
                self.second_ended = has_ended(self.second_ended, SenderId::Second, id);
                Ok(Took::EndOf(id))
            }
            Some(Message::Quotas(_, _)) => unreachable!(),
            None => {
                drop_last(&mut self.senders);
                Ok(Took::Empty)
            }
        }
    }

    /// Whether the ends of both senders were taken.
    pub fn is_ended(&self) -> bool
        ensures { IsTrue result ↔ (self.now.ended ≡ (true, true)) }
    {
        self.first_ended && self.second_ended
    }

    /// The order in which all was taken: each sender's refreshes are what it sent, in its order. No
    /// memory is taken.
    pub fn close(self, first: Ended, second: Ended) -> Order
        requires gateway { (first.gateway ≡ self.gateway) × (second.gateway ≡ self.gateway) }
        requires ids { (first.id ≡ First) × (second.id ≡ Second) }
        requires ended { self.ended ≡ (true, true) }
        ensures taken { result ≡ self.taken }
        ensures first { sent_by First result ≡ first.sent }
        ensures second { sent_by Second result ≡ second.sent }
    {
        let Taker {
            queue,
            mut pass,
            senders,
            first_ended: _first_ended,
            second_ended: _second_ended,
        } = self;
        let Ended {
            queue: _first_queue,
            pass: first_pass,
            id: _first_id,
        } = first;
        let Ended {
            queue: _second_queue,
            pass: second_pass,
            id: _second_id,
        } = second;
        queue.absorb::<FirstApart>(&mut pass, first_pass);
        queue.absorb::<SecondApart>(&mut pass, second_pass);
        queue.learn_as::<Gathering>(&mut pass);
        Order { pass, senders }
    }
}
