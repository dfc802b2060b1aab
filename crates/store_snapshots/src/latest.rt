//! The publisher's own version.
ghost use Rattle.std.specs.Prelude.{◌≡◌, ◌≤◌, ◌↔◌, IfOk, IsTrue, length};
ghost use Rattle.store_versions.specs.Trials.{version_of};
ghost use Rattle.store_snapshots.specs.Publishers.{version_in};

use std::alloc::AllocError;
use store_versions::{Attachment, Compacted, Directory};

/// A publisher's last version.
pub enum Latest<A: Attachment = ()> {
    /// As the refreshes left it.
    Tried(Directory<A>),
    /// In segments of which no row is deleted and no two neighbours fit in one.
    Joined(Compacted<A>),
}

impl<A: Attachment> Drop for Latest<A> {
    #[inline]
    fn drop(self) {
        match self {
            Latest::Tried(kept) => drop(kept),
            Latest::Joined(kept) => drop(kept),
        }
    }
}

impl<A: Attachment> Latest<A> {
    /// How many refreshes were accepted.
    pub(crate) fn version(&self) -> u64
        ensures { result ≡ version_of (version_in self.now) }
    {
        match self {
            Latest::Tried(directory) => directory.version(),
            Latest::Joined(compacted) => compacted.version(),
        }
    }

    /// How many refreshes the list has.
    pub(crate) fn listed(&self) -> usize
        ensures listed { result ≡ length (version_in self.now).list }
        ensures most { result ≤ (version_in self.now).most }
    {
        match self {
            Latest::Tried(directory) => directory.listed(),
            Latest::Joined(compacted) => compacted.listed(),
        }
    }

    /// Whether each refresh of the list was tried.
    pub(crate) fn is_done(&self) -> bool
        ensures done { IsTrue result
            ↔ ((version_in self.now).done ≡ length (version_in self.now).list) }
        ensures within { (version_in self.now).done ≤ length (version_in self.now).list }
    {
        match self {
            Latest::Tried(directory) => directory.is_done(),
            Latest::Joined(compacted) => compacted.is_done(),
        }
    }

    /// The version as a directory. It shares the rows and copies none.
    pub(crate) fn directory(&self) -> Result<Directory<A>, AllocError>
        ensures { IfOk result (λ directory. directory ≡ version_in self.now) }
    {
        match self {
            Latest::Tried(directory) => directory.another(),
            Latest::Joined(compacted) => compacted.directory(),
        }
    }
}
