//! What holds after any list of steps: the contract of a function that does nothing.
ghost use Rattle.store_machine.specs.Laws.{AgainPinsLaw, BackPinsLaw, BeginPinsLaw, ListLaw};
ghost use Rattle.store_machine.specs.Laws.{NotesLaw, PublishedLaw, ScanLaw, SeenRisesLaw};

/// The list is that of the start and then the offered refreshes. Whatever is offered, published or
/// compacted meanwhile, a finished scan has the rows of the pinned version. What a session has seen
/// never falls, and is at least each note that it had learnt. A session that begins, or begins
/// again, pins what it has then seen; one that goes back pins the version that it names.
pub fn snapshots_stand()
    ensures list { ListLaw }
    ensures scans { ScanLaw }
    ensures seen { SeenRisesLaw }
    ensures notes { NotesLaw }
    ensures begin { BeginPinsLaw }
    ensures again { AgainPinsLaw }
    ensures back { BackPinsLaw }
    ensures published { PublishedLaw }
{}
