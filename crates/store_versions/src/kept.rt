//! Versions that are kept beside the last one.
ghost use Rattle.std.specs.Prelude.{◌≡◌, IfOk, IfSome};
ghost use Rattle.std.specs.Arc.{arc_value};
ghost use Rattle.std.specs.List.{Contains, filter};
ghost use Rattle.store_versions.specs.Older.{is_kept_at};

use crate::attachment::Attachment;
use std::alloc::{AllocError, Global};
use std::marker::Model;
use std::sync::Arc;
use store_state::State;

/// How many versions may be asked for: the last one and those before it.
pub(crate) const KEPT_VERSIONS: u64 = 64;

/// A version by its number, with how many refreshes were tried by then, its tables and what is
/// attached to them.
#[derive(Drop)]
pub(crate) struct KeptVersion<A: Attachment> {
    pub(crate) number: u64,
    pub(crate) done: usize,
    pub(crate) state: Arc<State>,
    pub(crate) attachment: A,
}

impl<A: Attachment> Model for KeptVersion<A> {
    ghost use Rattle.std.specs.Arc.{arc_value};
    ghost use Rattle.store_versions.specs.Older.{KeptState};

    ghost Value = { KeptState };

    ghost view = { λ k. record { number = k.number; done = k.done; state = arc_value k.state } };

    ghost invariant = { λ k. A.is_right k.attachment (arc_value k.state) };
}

impl<A: Attachment> KeptVersion<A> {
    /// The version of a number, with how many refreshes were tried by then, its tables and what is
    /// attached to them.
    pub(crate) fn new(number: u64, done: usize, state: Arc<State>, attachment: A) -> KeptVersion<A>
        requires { A.is_right attachment (arc_value state) }
        ensures { result ≡ record { number = number; done = done; state = arc_value state } }
    {
        KeptVersion {
            number,
            done,
            state,
            attachment,
        }
    }

    /// This version once more, of which nothing is copied.
    pub(crate) fn another(&self) -> Result<KeptVersion<A>, AllocError>
        ensures { IfOk result (λ kept. kept ≡ self.now) }
    {
        let state = Arc::try_clone(&self.state)?;
        let attachment = self.attachment.share()?;
        Ok(KeptVersion {
            number: self.number,
            done: self.done,
            state,
            attachment,
        })
    }

    /// Whether it is one of the 63 versions before that of a number.
    fn is_kept_at(&self, number: u64) -> bool
        ensures { result ≡ is_kept_at number self.now }
    {
        self.number < number && number - self.number < KEPT_VERSIONS
    }
}

/// Those of some versions that are among the 63 before that of a number.
pub(crate) fn kept_at<A: Attachment>(
    alloc: Global,
    earlier: &[KeptVersion<A>],
    number: u64,
) -> Result<Vec<KeptVersion<A>>, AllocError>
    ensures { IfOk result (λ kept. kept.items ≡ filter (is_kept_at number) earlier.now) }
{
    let mut kept = Vec::new(alloc);
    for version in earlier {
        if version.is_kept_at(number) {
            kept.push(version.another()?)?;
        }
    }
    Ok(kept)
}

/// The version of a number, if it is one of these.
pub(crate) fn kept_version<A: Attachment>(
    versions: &[KeptVersion<A>],
    number: u64,
) -> Option<&KeptVersion<A>>
    ensures number { IfSome result (λ kept. kept.now.number ≡ number) }
    ensures among { IfSome result (λ kept. Contains versions.now kept.now) }
{
    for version in versions {
        if version.number == number {
            return Some(version);
        }
    }
    None
}
