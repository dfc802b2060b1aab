//! What the queue holds.
ghost use Rattle.std.specs.Prelude.{◌≡◌};
ghost use Rattle.store_gateway.specs.Feeds.{sender_number};

use store_state::Refresh;

/// One of the two senders.
#[derive(Clone, Copy, Debug, PartialEq, Eq)]
pub enum SenderId {
    First,
    Second,
}

impl SenderId {
    /// The number of the sender.
    pub fn number(self) -> u64
        ensures { result ≡ sender_number self }
    {
        match self {
            SenderId::First => 1,
            SenderId::Second => 2,
        }
    }
}

/// A message of a sender or, before any of them, the quotas of both.
#[derive(Drop)]
pub enum Message {
    /// How many refreshes each of the two may send.
    Quotas(u64, u64),
    Refresh(SenderId, Refresh),
    /// This sender sends nothing more.
    End(SenderId),
}
