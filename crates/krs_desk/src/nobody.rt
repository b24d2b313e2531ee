//! Nobody takes the bytes of a reply where they lie.
ghost use Rattle.std.specs.Prelude.{◌≡◌, None};
ghost use Rattle.krs_store.specs.Told.{bytes_of, reply_of};

use krs_store::{Taker, Told};
use krs_types::Reply;

/// A taker that leaves all bytes, so that each reply is whole.
#[derive(Drop)]
pub(crate) struct Nobody;

impl Taker for Nobody {
    ghost use Rattle.std.specs.Prelude.{◌≡◌, None, refl};

    ghost took = { λ a bytes b. bytes ≡ None };

    fn take(&mut self, bytes: &[u8]) -> bool {
        false
    }

    ghost starts = { λ t. refl };
}

/// The reply of which nobody has taken the bytes.
pub(crate) fn reply_in(told: Told) -> Reply
    requires { bytes_of told ≡ None }
    ensures { result ≡ reply_of told }
{
    match told {
        Told::Reply(reply) => reply,
        Told::Taken(_) => unreachable!(),
    }
}
