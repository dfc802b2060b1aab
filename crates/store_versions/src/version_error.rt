//! Why an earlier version isn't given.
use std::alloc::AllocError;

/// Why a version isn't given.
#[derive(Clone, Copy, Debug, PartialEq, Eq)]
pub enum VersionError {
    /// There is no version of this number yet.
    Unknown,
    /// It is 64 or more versions ago.
    Gone,
    /// Memory ran out.
    OutOfMemory,
}

impl From<AllocError> for VersionError {
    ghost use Rattle.std.specs.Prelude.{◌≡◌};
    ghost use Rattle.store_versions.specs.declared.version_error.VersionError.TheVariants.{OutOfMemory};

    ghost from_gives = { λ a r. r ≡ OutOfMemory };

    fn from(_: AllocError) -> VersionError {
        VersionError::OutOfMemory
    }
}
