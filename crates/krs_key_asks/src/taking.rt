ghost use Rattle.std.specs.Prelude.{◌≡◌, ◌≤◌, length};
ghost use Rattle.krs_key_asks.specs.Taking.{taken};

use krs_types::{Answer, Body};
use std::snapshot::Snapshot;

/// Who may take the bytes of an answer where they lie, of which no copy is made then.
pub trait Taker {
    ghost use Rattle.std.specs.Prelude.{List, None, Option, ℕ};

    // From the first state to the second these bytes were taken, or none.
    ghost took: { Self → Option (List ℕ) → Self → Type 0 };

    /// Takes the bytes, or leaves them.
    fn take(&mut self, bytes: &[u8]) -> bool
        requires { length bytes.now ≤ 262140 }
        ensures { took self.old (taken result bytes.now) self.new };

    ghost starts: { (t : Self) → took t None t };
}

/// An answer, or the bytes of one that a taker has.
#[derive(Drop)]
pub enum Given {
    Answer(Answer),
    Taken(Snapshot<Body>),
}
