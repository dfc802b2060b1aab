//! When the segments of a version are put together.
ghost use Rattle.std.specs.Prelude.{◌≡◌};
ghost use Rattle.app_sessions.specs.Compaction.{is_compaction_due};

/// The segments are put together at each version that this number divides.
const COMPACTED_AFTER: u64 = 16;

/// Whether the segments are put together at a version that a refresh makes.
pub fn is_compaction_due(version: u64) -> bool
    ensures { result ≡ is_compaction_due version }
{
    version % COMPACTED_AFTER == 0
}
