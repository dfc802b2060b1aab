//! A gateway: the queue from two senders of refreshes to one taker, which keeps what each sent and
//! the order in which all was taken, and which is a feed for a publisher.
#![tactic(auto)]

mod ended;
mod gateway_feed;
mod message;
mod opening;
mod order;
mod queue;
mod sender;
mod sending;
mod taker;

pub use ended::Ended;
pub use gateway_feed::GatewayFeed;
pub use message::SenderId;
pub use opening::open_gateway;
pub use order::Order;
pub use sender::{End, Sender, Sent};
pub use sending::send_all;
pub use taker::{Taker, Took};
