//! The order in which all was taken.
ghost use Rattle.std.specs.Prelude.{◌≡◌, map};

use crate::message::SenderId;
use crate::queue::QueuePass;
use std::marker::Model;

/// The senders of the refreshes, in the order in which these were taken. Contracts see it as the
/// list of the refreshes themselves, each with its sender.
#[derive(Drop)]
pub struct Order {
    pub(crate) pass: QueuePass,
    pub(crate) senders: Vec<SenderId>,
}

impl Model for Order {
    ghost use Rattle.std.specs.Prelude.{List};
    ghost use Rattle.store_state.specs.Refresh.{Change};
    ghost use Rattle.store_gateway.specs.Insides.{IsOrder, ordered};
    ghost use Rattle.store_gateway.specs.declared.message.SenderId.{SenderId};

    ghost Value = { List (SenderId × Change) };

    ghost view = { ordered };

    ghost invariant = { IsOrder };
}

impl Order {
    /// The sender of each refresh, in the order in which they were taken.
    pub fn senders(&self) -> &[SenderId]
        ensures { result.now ≡ map (λ e. e.0) self.now }
    {
        self.senders.as_slice()
    }
}
