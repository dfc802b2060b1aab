//! Earlier versions of a directory.
ghost use Rattle.std.specs.Prelude.{◌≡◌, ◌+◌, ◌<◌, ◌≤◌, length, IfOk};
ghost use Rattle.store_versions.specs.Older.{GivesOlder, IsOlder, IsVersionOf};
ghost use Rattle.store_versions.specs.Trials.{one_more, version_of};

use crate::attachment::Attachment;
use crate::directory::Directory;
use crate::kept::{KEPT_VERSIONS, KeptVersion, kept_at, kept_version};
use crate::version_error::VersionError;
use std::alloc::AllocError;
use store_state::RefreshError;

/// The trials with the next refresh tried too.
fn after_trial<A: Attachment>(mut directory: Directory<A>) -> Result<Directory<A>, AllocError>
    requires { directory.done < length directory.list }
    ensures same { IfOk result (λ d. d ≡ one_more directory) }
    ensures version { IfOk result (λ d. version_of d ≤ version_of directory + 1) }
{
    match directory.after_next() {
        Ok(next) => Ok(next),
        Err(RefreshError::Refused(_)) => Ok(directory),
        Err(RefreshError::OutOfMemory) => Err(AllocError),
    }
}

impl<A: Attachment> Directory<A> {
    /// The version of a number, which is the last one or one of the 63 before it. It keeps those
    /// versions before it that are kept here. No row is copied of a version that is kept; one that
    /// is not is made anew from the base and the list.
    pub fn older(&self, version: u64) -> Result<Directory<A>, VersionError>
        ensures { GivesOlder self.now version result }
    {
        let last = self.version();
        if version > last {
            return Err(VersionError::Unknown);
        }
        if last - version >= KEPT_VERSIONS {
            return Err(VersionError::Gone);
        }
        let older = self.recent(version)?;
        Ok(older)
    }

    /// The version of a number, which is not past the last one.
    fn recent(&self, version: u64) -> Result<Directory<A>, AllocError>
        requires { version ≤ version_of self.now }
        ensures { IfOk result (IsOlder self.now version) }
    {
        if version == self.version() {
            return self.another();
        }
        match kept_version(self.earlier(), version) {
            Some(kept) => self.kept(kept),
            None => self.remade(version),
        }
    }

    /// A version of this base and this list that is kept.
    fn kept(&self, kept: &KeptVersion<A>) -> Result<Directory<A>, AllocError>
        requires { IsVersionOf self.now kept.now }
        ensures { IfOk result (IsOlder self.now kept.now.number) }
    {
        let earlier = kept_at(self.alloc, self.earlier(), kept.number)?;
        let older = self.sharing(kept.another()?, earlier)?;
        Ok(older)
    }

    /// The version of a number, made anew from the base.
    fn remade(&self, version: u64) -> Result<Directory<A>, AllocError>
        requires { version ≤ version_of self.now }
        ensures { IfOk result (IsOlder self.now version) }
    {
        let mut directory = self.first()?;
        for _trial in 0..self.tried() {
            if directory.version() == version {
                return Ok(directory);
            }
            directory = after_trial(directory)?;
        }
        Ok(directory)
    }
}
