//! A publisher's list as a feed.
ghost use Rattle.std.specs.Prelude.{◌≡◌, [], IfOk};
ghost use Rattle.store_snapshots.specs.Turns.{IsAllTried, ListFits, list_tried};

use crate::feed::{Feed, FeedError, FeedTurn};
use crate::publisher::{Published, Publisher};
use crate::snapshot::Snapshot;
use std::alloc::AllocError;
use std::sync::Wait;
use store_versions::Attachment;

/// The refreshes that a publisher's list has left, none of which has a sender. It keeps the version
/// at which it began, so begin it at the opening's version, which each later one keeps too.
#[derive(Drop)]
pub struct ListFeed<A: Attachment = ()> {
    start: Snapshot<A>,
    count: usize,
}

impl<A: Attachment> ListFeed<A> {
    /// Those that this publisher has left.
    pub fn new(publisher: &Publisher<A>) -> Result<ListFeed<A>, AllocError>
        ensures { IfOk result (λ feed. (feed.start ≡ publisher.now.version) × (feed.count ≡ 0)) }
    {
        let start = publisher.snapshot()?;
        Ok(ListFeed { start, count: 0 })
    }
}

impl<A: Attachment> Feed for ListFeed<A> {
    type Attached = A;

    ghost tried = { λ f. list_tried f.start f.count };

    ghost source = { λ f. [] };

    ghost fits = { λ f. ListFits f.start f.count };

    ghost is_over = { λ f. IsAllTried };

    ghost faults = { λ f. 0 };

    fn turn<R: Wait>(
        &mut self,
        rt: &R,
        publisher: &mut Publisher<A>,
    ) -> Result<FeedTurn<A>, FeedError> {
        let _listed = publisher.listed();
        match publisher.publish_next(rt) {
            Published::Published(note) => {
                self.count += 1;
                Ok(FeedTurn::Published(None, note))
            }
            Published::Refused(cause) => {
                self.count += 1;
                Ok(FeedTurn::Refused(None, cause))
            }
            Published::NoMore => Ok(FeedTurn::Ended),
            Published::OutOfMemory => Err(FeedError::OutOfMemory),
        }
    }
}
