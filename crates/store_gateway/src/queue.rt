//! The rule over the queue, and the steps that keep it.
ghost use Rattle.std.specs.Prelude.{◌≡◌};
ghost use Rattle.store_gateway.specs.Queue.{AtMoment, IsAllSent, IsInOrder, IsSent, IsWithinQuotas};
ghost use Rattle.store_gateway.specs.Queue.{after_pop, after_push, first_view, open_view};
ghost use Rattle.store_gateway.specs.Queue.{sender_alone, spent_view, with_sender, without_sender};
ghost use Rattle.store_gateway.specs.declared.message.SenderId.TheVariants.{First, Second};

use crate::message::Message;
use crossbeam_queue::protocol::{Join, Lesson, Outcome, Protocol, Split};
use crossbeam_queue::{Pass, RuledArrayQueue};
use std::collections::LinkedList;

/// What a pass knows: the quotas, and of its own role what was sent or taken. No value of it is
/// made.
pub struct QueueView {
    pub opening: bool,
    pub quotas: Option<(u64, u64)>,
    pub sent: (Option<LinkedList<Message>>, Option<LinkedList<Message>>),
    pub taken: Option<LinkedList<Message>>,
}

/// The rule: of each sender's messages, those taken and then those in the queue are what it sent.
pub struct InOrder;

impl Protocol<Message, QueueView> for InOrder {
    ghost holds = { IsInOrder };

    ghost first = { first_view };
}

/// A sender adds a message at the queue's end; the first pass adds the quotas.
pub struct Pushing;

impl Outcome<Message, QueueView> for Pushing {
    ghost then = { λ v x w. w ≡ after_push x v };
}

impl Lesson<Message, QueueView> for Pushing {
    ghost fact = { AtMoment };
}

/// The taker takes the oldest message.
pub struct Popping;

impl Outcome<Message, QueueView> for Popping {
    ghost then = { λ v x w. IsSent x × (w ≡ after_pop x v) × IsWithinQuotas w };
}

impl Lesson<Message, QueueView> for Popping {
    ghost fact = { AtMoment };
}

/// The first pass takes the quotas back, and from then on senders may send.
pub struct Opening;

impl Outcome<Message, QueueView> for Opening {
    ghost then = { λ v x w. w ≡ open_view v };
}

/// The first sender's part is given to a pass of its own, or taken back.
pub struct FirstApart;

impl Split<QueueView> for FirstApart {
    ghost left = { without_sender First };

    ghost right = { sender_alone First };
}

impl Join<QueueView> for FirstApart {
    ghost both = { with_sender First };

    ghost spent = { spent_view };
}

/// The second sender's part is given to a pass of its own, or taken back.
pub struct SecondApart;

impl Split<QueueView> for SecondApart {
    ghost left = { without_sender Second };

    ghost right = { sender_alone Second };
}

impl Join<QueueView> for SecondApart {
    ghost both = { with_sender Second };

    ghost spent = { spent_view };
}

/// One pass knows what was sent and what was taken.
pub struct Gathering;

impl Lesson<Message, QueueView> for Gathering {
    ghost fact = { IsAllSent };
}

/// The queue of the senders' messages, whose rule is `InOrder`.
pub type MessageQueue = RuledArrayQueue<Message, QueueView, InOrder>;

/// A pass to that queue, which keeps what its role knows.
pub type QueuePass = Pass<Message, QueueView>;
