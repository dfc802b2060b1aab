//! A gateway as a feed.
ghost use Rattle.std.specs.Prelude.{◌≡◌, true};
ghost use Rattle.std.specs.List.{All};
ghost use Rattle.store_gateway.specs.Feeds.{GatewayFits, GatewayIsOver, IsFromEither};
ghost use Rattle.store_gateway.specs.Feeds.{gateway_name, gateway_tried, numbered, sent_from};
ghost use Rattle.store_gateway.specs.declared.message.SenderId.TheVariants.{First, Second};

use crate::ended::Ended;
use crate::order::Order;
use crate::taker::{Taker, Took};
use std::marker::PhantomData;
use std::sync::Wait;
use store_snapshots::{Feed, FeedError, FeedTurn, Given, Publisher};
use store_versions::Attachment;

/// The refreshes of two senders, for a publisher with this attachment.
#[derive(Drop)]
pub struct GatewayFeed<A: Attachment = ()> {
    pub taker: Taker,
    /// What is attached to the publisher's versions.
    pub of: PhantomData<A>,
}

impl<A: Attachment> GatewayFeed<A> {
    /// The order in which all was tried: the refreshes from each sender are what it sent, in its
    /// order, and there are no others. No memory is taken.
    pub fn close(self, first: Ended, second: Ended) -> Order
        requires first { gateway_name first.gateway ≡ gateway_name self.taker.gateway }
        requires second { gateway_name second.gateway ≡ gateway_name self.taker.gateway }
        requires ids { (first.id ≡ First) × (second.id ≡ Second) }
        requires ended { self.taker.ended ≡ (true, true) }
        ensures tried { numbered result ≡ gateway_tried self.taker }
        ensures first { sent_from 1 (gateway_tried self.taker) ≡ first.sent }
        ensures second { sent_from 2 (gateway_tried self.taker) ≡ second.sent }
        ensures others { All IsFromEither (gateway_tried self.taker) }
    {
        let GatewayFeed { taker, of: _of } = self;
        taker.close(first, second)
    }
}

impl<A: Attachment> Feed for GatewayFeed<A> {
    type Attached = A;

    ghost tried = { λ f. gateway_tried f.taker };

    ghost source = { λ f. gateway_name f.taker.gateway };

    ghost fits = { λ f. GatewayFits f.taker };

    ghost is_over = { λ f. GatewayIsOver f.taker };

    ghost faults = { λ f. 0 };

    fn turn<R: Wait>(
        &mut self,
        rt: &R,
        publisher: &mut Publisher<A>,
    ) -> Result<FeedTurn<A>, FeedError> {
        // An end is no turn of its own. There are two at most.
        'taking: for _ in rt.forever() {
            if self.taker.is_ended() {
                return Ok(FeedTurn::Ended);
            }
            match self.taker.take(rt)? {
                Took::Took(id, refresh) => {
                    let from = Some(id.number());
                    return match publisher.publish_given(rt, refresh) {
                        Given::Published(note) => Ok(FeedTurn::Published(from, note)),
                        Given::Refused(cause) => Ok(FeedTurn::Refused(from, cause)),
                        Given::OutOfMemory => Err(FeedError::OutOfMemory),
                    };
                }
                Took::EndOf(_) => {}
                Took::Empty => return Ok(FeedTurn::Idle),
            }
        }
        unreachable!()
    }
}
