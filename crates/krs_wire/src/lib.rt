//! Frames on a connection: the cut of a stream of bytes into asks, and the encoding of asks and replies.
//! docs/FORMAT.md, "Frames"; profile, own frames. A contract sees a feed as the end of its stream so far.
#![tactic(auto)]

mod asks;
mod bodies;
mod encode;
mod fault;
mod feed;
mod fields;
mod forms;
mod framed;
mod laws;
mod lengths;
mod put;
mod replies;
mod reserve;
mod room;
mod warned;

pub use encode::{encode_ask, encode_ask2};
pub use fault::WireFault;
pub use feed::Feed;
pub use framed::Framed;
pub use laws::{one_cut, one_encoding};
pub use replies::{
    append_bytes, append_reply, decode_reply, decode_reply2, encode_reply, encode_reply2,
};
pub use reserve::RESERVE;
pub use warned::Warned;
