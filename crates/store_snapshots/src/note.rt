//! What tells of a version.
ghost use Rattle.std.specs.Prelude.{◌≡◌, IfOk};
ghost use Rattle.std.specs.Arc.{arc_value};
ghost use Rattle.store_versions.specs.Trials.{version_of};

use std::alloc::AllocError;
use std::sync::Arc;
use store_versions::{Attachment, Directory};

/// Two shares of a version: one for the reader that learns it, one that its entry keeps.
#[derive(Drop)]
pub struct Note<A: Attachment = ()> {
    pub(crate) share: Arc<Directory<A>>,
    pub(crate) kept: Arc<Directory<A>>,
    ghost same: { arc_value kept ≡ arc_value share },
}

impl<A: Attachment> Note<A> {
    /// A note of this version.
    pub fn of(version: &Arc<Directory<A>>) -> Result<Note<A>, AllocError>
        ensures { IfOk result (λ note. arc_value note.share ≡ arc_value version.now) }
    {
        let share = Arc::try_clone(version)?;
        let kept = Arc::try_clone(version)?;
        Ok(Note { share, kept })
    }

    /// The number of its version.
    pub fn version(&self) -> u64
        ensures { result ≡ version_of (arc_value self.now.share) }
    {
        self.share.version()
    }
}
