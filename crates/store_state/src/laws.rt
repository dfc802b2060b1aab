//! Laws of the definitions that a state's contracts speak of: each is the contract of a function
//! that does nothing.
ghost use Rattle.store_state.specs.Cases.{RefreshCases, VersionCases};
ghost use Rattle.store_state.specs.Laws.{ListsLaw, PlaceLaw};
ghost use Rattle.store_state.specs.Prefixes.{AcceptedLongerLaw, AcceptedPrefixLaw, StatePrefixLaw};
ghost use Rattle.store_state.specs.VersionLaws.{AcceptedMoreLaw, AcceptedMostLaw, AcceptedRisesLaw};
ghost use Rattle.store_state.specs.VersionLaws.{FirstVersionLaw, StateAcceptedLaw, StateMoreLaw};
ghost use Rattle.store_state.specs.VersionLaws.{TakenAppendLaw};

/// A table's place is where it stands in the schema's list of tables, and eight lists are, in that
/// order, the rows of the tables of their state.
pub fn lists_stand_in_the_schemas_order()
    ensures place { PlaceLaw }
    ensures lists { ListsLaw }
{}

/// Of two lists of refreshes the second is tried on what the first leaves; the version of the first
/// refreshes of a list is the base after those of them that are accepted, and one more refresh
/// leaves what trying it there gives.
pub fn versions_are_replays()
    ensures append { TakenAppendLaw }
    ensures first { FirstVersionLaw }
    ensures state { StateAcceptedLaw }
    ensures more { StateMoreLaw }
{}

/// One more refresh counts where it is accepted in the state before it; the count never falls, and
/// is at most that of the whole list.
pub fn accepted_refreshes_are_counted()
    ensures more { AcceptedMoreLaw }
    ensures rises { AcceptedRisesLaw }
    ensures most { AcceptedMostLaw }
{}

/// Each list that begins with a list accepts as many of that one's refreshes, and has its versions.
pub fn longer_lists_keep_their_versions()
    ensures accepted { AcceptedPrefixLaw }
    ensures longer { AcceptedLongerLaw }
    ensures state { StatePrefixLaw }
{}

/// Refreshes with each cause, causes that stand together, and the versions of a list with a refused
/// refresh, worked out by hand.
pub fn cases_hold()
    ensures refreshes { RefreshCases }
    ensures versions { VersionCases }
{}
