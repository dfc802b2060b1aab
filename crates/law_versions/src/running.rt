//! What running sessions and a publisher do, in the machine's steps. Each law is the contract of a
//! function that does nothing.
ghost use Rattle.law_versions.specs.RunningSteps.{BackLaw, BeginLaw, CompactLaw, LearnLaw};
ghost use Rattle.law_versions.specs.RunningSteps.{GiveLaw, OfferLaw, PublishLaw};

use store_versions::Attachment;

/// What `store_snapshots` promises of `Reader::begin` is the machine's Begin or, where the entry
/// was refused, its Again; of `Snapshot::at` its Back; of `Reader::learn` its Learn; of
/// `Publisher::publish_next` its Publish; of `Publisher::publish_given` its Offer and then its
/// Publish; and of `Publisher::compact` its Compact. So what is proved of every list of the
/// machine's steps speaks of running sessions, whatever is attached to their versions.
pub fn running_steps_are_the_machines<A: Attachment>()
    ensures begin { BeginLaw }
    ensures back { BackLaw }
    ensures learn { LearnLaw }
    ensures offer { OfferLaw }
    ensures publish { PublishLaw A.Attachment }
    ensures give { GiveLaw A.Attachment }
    ensures compact { CompactLaw }
{}
