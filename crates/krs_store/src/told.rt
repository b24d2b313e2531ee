ghost use Rattle.std.specs.Prelude.{◌≡◌, Ok};

use krs_key_asks::Given;
use krs_types::{Body, Reply};
use std::snapshot::Snapshot;

/// A reply, or the bytes of one that a taker has.
#[derive(Drop)]
pub enum Told {
    Reply(Reply),
    Taken(Snapshot<Body>),
}

impl Told {
    ghost use Rattle.krs_key_asks.specs.Taking.{answer_of, taken_of};
    ghost use Rattle.krs_store.specs.Told.{bytes_of, reply_of};

    /// The reply to an ask that was accepted.
    #[inline(always)]
    pub(crate) fn accepted(given: Given) -> Told
        ensures reply { reply_of result ≡ Ok (answer_of given) }
        ensures bytes { bytes_of result ≡ taken_of (Ok given) }
    {
        match given {
            Given::Answer(answer) => Told::Reply(Ok(answer)),
            Given::Taken(bytes) => Told::Taken(bytes),
        }
    }
}
