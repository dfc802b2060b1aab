//! What hands a publisher its refreshes.
ghost use Rattle.std.specs.Prelude.{◌≡◌, ℕ, List, Option, IfOk, IsErrOf, OnErr, OnOk};
ghost use Rattle.base_io.specs.Outside.{Counts};
ghost use Rattle.store_state.specs.Refresh.{Change};
ghost use Rattle.store_versions.specs.Trials.{Trials};
ghost use Rattle.store_snapshots.specs.Turns.{TakesTurn};

use crate::note::Note;
use crate::publisher::Publisher;
use base_refusals::Cause;
use std::alloc::AllocError;
use std::sync::Wait;
use store_versions::Attachment;

/// What comes of a turn of a feed. A refresh is told of with the number of its sender, if it has
/// one.
#[derive(Drop)]
pub enum FeedTurn<A: Attachment = ()> {
    /// A refresh was accepted, and readers are shown the version after it. The note tells of it.
    Published(Option<u64>, Note<A>),
    /// A refresh was refused.
    Refused(Option<u64>, Cause),
    /// Nothing: no refresh was there at a moment of the turn, and another may come.
    Idle,
    /// Nothing: no refresh comes any more.
    Ended,
}

/// Why a turn of a feed had nothing tried.
#[derive(Clone, Copy, Debug, PartialEq, Eq)]
pub enum FeedError {
    /// What keeps the accepted refreshes failed.
    Failed,
    /// Memory ran out.
    OutOfMemory,
}

impl From<AllocError> for FeedError {
    ghost use Rattle.store_snapshots.specs.declared.feed.FeedError.TheVariants.{OutOfMemory};

    ghost from_gives = { λ _ e. e ≡ OutOfMemory };

    fn from(_: AllocError) -> FeedError {
        FeedError::OutOfMemory
    }
}

/// A source of refreshes for a publisher.
pub trait Feed {
    /// What is attached to the publisher's versions.
    type Attached: Attachment;

    /// The refreshes that it tried, in this order, each with the number of its sender, if it has
    /// one.
    ghost tried: { Self → List (Option ℕ × Change) };

    /// What names its source. No turn changes it.
    ghost source: { Self → List ℕ };

    /// A publisher of this version fits it.
    ghost fits: { Self → Trials → Type 0 };

    /// Its source stands at its end, beside a publisher of this version.
    ghost is_over: { Self → Trials → Type 0 };

    /// How often what keeps the accepted refreshes failed; 0 where nothing keeps them.
    ghost faults: { Self → ℕ };

    /// Has the publisher try one refresh, if there is one. It doesn't wait for one to come: whoever
    /// calls it again after `Idle` yields before. After an error no turn is to be asked for: a
    /// refresh of the source may be lost.
    fn turn<R: Wait>(
        &mut self,
        rt: &R,
        publisher: &mut Publisher<Self::Attached>,
    ) -> Result<FeedTurn<Self::Attached>, FeedError>
        requires { fits self.old publisher.old.version }
        ensures turn { IfOk result (TakesTurn (tried self.old) (tried self.new) (is_over self.new)
            publisher.old publisher.new) }
        ensures fits { OnOk result (fits self.new publisher.new.version) }
        ensures source { source self.new ≡ source self.old }
        ensures refused { publisher.new.refused ≡ publisher.old.refused }
        ensures err { OnErr result (publisher.new ≡ publisher.old) }
        ensures failed { Counts (IsErrOf result FeedError.Failed)
            (faults self.old) (faults self.new) };
}
