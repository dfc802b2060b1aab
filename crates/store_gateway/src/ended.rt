//! A sender that has ended.

use crate::message::SenderId;
use crate::queue::{MessageQueue, QueuePass};
use std::marker::Model;
use std::sync::Arc;

/// A sender after its end, which knows what it sent.
#[derive(Drop)]
pub struct Ended {
    pub(crate) queue: Arc<MessageQueue>,
    pub(crate) pass: QueuePass,
    pub(crate) id: SenderId,
}

impl Model for Ended {
    ghost use Rattle.store_gateway.specs.Insides.{IsFinished, ended_sending};
    ghost use Rattle.store_gateway.specs.Roles.{Sending};

    ghost Value = { Sending };

    ghost view = { ended_sending };

    ghost invariant = { IsFinished };
}
