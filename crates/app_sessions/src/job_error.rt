//! Why a job has no text.
ghost use Rattle.app_sessions.specs.Ends.{error_by};

use std::alloc::AllocError;
use store_snapshots::FeedError;

/// Why a job has no text.
#[derive(Clone, Copy, Debug, PartialEq, Eq)]
pub enum JobError {
    /// The feed ended before the list had as many refreshes as it was to have.
    TooFewRefreshes,
    /// What keeps the accepted refreshes failed.
    Failed,
    /// Memory ran out.
    OutOfMemory,
}

impl From<AllocError> for JobError {
    ghost use Rattle.std.specs.Prelude.{◌≡◌};
    ghost use Rattle.app_sessions.specs.declared.job_error.JobError.TheVariants.{OutOfMemory};

    ghost from_gives = { λ a r. r ≡ OutOfMemory };

    fn from(_: AllocError) -> JobError {
        JobError::OutOfMemory
    }
}

impl From<FeedError> for JobError {
    ghost use Rattle.std.specs.Prelude.{◌≡◌};

    ghost from_gives = { λ e r. r ≡ error_by e };

    fn from(error: FeedError) -> JobError {
        match error {
            FeedError::Failed => JobError::Failed,
            FeedError::OutOfMemory => JobError::OutOfMemory,
        }
    }
}
