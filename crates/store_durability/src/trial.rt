//! A publisher tries a refresh, whether its list has it or not.
ghost use Rattle.std.specs.Prelude.{◌≡◌, ◌<◌, ◌≤◌, ◌++◌, [], ◌∷◌, false, true, length, Err, IfOk, OnErr};
ghost use Rattle.std.specs.Prelude.{OnOk};
ghost use Rattle.store_refresh_entries.specs.Change.{spelling_of};
ghost use Rattle.store_snapshots.specs.Given.{TriesNext};
ghost use Rattle.store_snapshots.specs.Publishers.{AcceptsNext, RefusesNext};
ghost use Rattle.store_state.specs.Refresh.{after};
ghost use Rattle.store_state.specs.Versions.{is_accepted};
ghost use Rattle.store_versions.specs.Trials.{tables_of};
ghost use Rattle.store_durability.specs.Stored.{HasRoomForOne, IsNext, payloads_of, trials_with};

use base_refusals::Cause;
use std::alloc::AllocError;
use std::sync::Wait;
use store_snapshots::{Given, Note, Published, Publisher};
use store_state::Refresh;
use store_versions::Attachment;

/// Tries the list's next refresh, where one is left.
#[tactic(auto, using(crate::proofs::Outcomes::listed_trials))]
fn try_listed<A: Attachment, R: Wait>(rt: &R, publisher: &mut Publisher<A>) -> Given<A>
    requires { publisher.old.version.done < length publisher.old.version.list }
    ensures tries { TriesNext publisher.old.version publisher.old publisher.new result }
    ensures refused { publisher.new.refused ≡ publisher.old.refused }
{
    match publisher.publish_next(rt) {
        Published::Published(note) => Given::Published(note),
        Published::Refused(cause) => Given::Refused(cause),
        Published::NoMore => unreachable!(),
        Published::OutOfMemory => Given::OutOfMemory,
    }
}

/// Tries a refresh: the list's next one or, where none is left, one that comes to the list's end.
#[tactic(auto, using(crate::proofs::Outcomes::either_trial))]
fn try_refresh<A: Attachment, R: Wait>(
    rt: &R,
    publisher: &mut Publisher<A>,
    refresh: Refresh,
) -> Given<A>
    requires next { IsNext refresh publisher.old.version }
    requires room { HasRoomForOne publisher.old.version }
    ensures tries { TriesNext (trials_with refresh publisher.old.version)
        publisher.old publisher.new result }
    ensures within { publisher.old.version.done ≤ length publisher.old.version.list }
    ensures refused { publisher.new.refused ≡ publisher.old.refused }
{
    if publisher.left() {
        return try_listed(rt, publisher);
    }
    publisher.publish_given(rt, refresh)
}

/// Tries a refresh that the last version accepts.
#[tactic(auto, using(crate::proofs::Outcomes::accepted_trial))]
pub(crate) fn accept<A: Attachment, R: Wait>(
    rt: &R,
    publisher: &mut Publisher<A>,
    refresh: Refresh,
) -> Result<Note<A>, AllocError>
    requires next { IsNext refresh publisher.old.version }
    requires room { HasRoomForOne publisher.old.version }
    requires accepted { is_accepted (tables_of publisher.old.version) refresh ≡ true }
    ensures accepts { IfOk result
        (AcceptsNext (trials_with refresh publisher.old.version) publisher.new) }
    ensures payloads { OnOk result (payloads_of publisher.new.version
        ≡ payloads_of publisher.old.version ++ spelling_of refresh ∷ []) }
    ensures refused { publisher.new.refused ≡ publisher.old.refused }
    ensures err { OnErr result (publisher.new ≡ publisher.old) }
{
    match try_refresh(rt, publisher, refresh) {
        Given::Published(note) => Ok(note),
        Given::Refused(_) => unreachable!(),
        Given::OutOfMemory => Err(AllocError),
    }
}

/// Tries a refresh that the last version refuses, and gives its first cause.
#[tactic(auto, using(crate::proofs::Outcomes::refused_trial))]
pub(crate) fn refuse<A: Attachment, R: Wait>(
    rt: &R,
    publisher: &mut Publisher<A>,
    refresh: Refresh,
) -> Result<Cause, AllocError>
    requires next { IsNext refresh publisher.old.version }
    requires room { HasRoomForOne publisher.old.version }
    requires refused { is_accepted (tables_of publisher.old.version) refresh ≡ false }
    ensures cause { IfOk result
        (λ cause. after (tables_of publisher.old.version) refresh ≡ Err cause) }
    ensures refuses { IfOk result (λ cause.
        RefusesNext (trials_with refresh publisher.old.version) cause publisher.old.shown
        publisher.new) }
    ensures payloads { OnOk result
        (payloads_of publisher.new.version ≡ payloads_of publisher.old.version) }
    ensures entries { publisher.new.refused ≡ publisher.old.refused }
    ensures err { OnErr result (publisher.new ≡ publisher.old) }
{
    match try_refresh(rt, publisher, refresh) {
        Given::Published(_) => unreachable!(),
        Given::Refused(cause) => Ok(cause),
        Given::OutOfMemory => Err(AllocError),
    }
}
