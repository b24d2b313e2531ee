// The replies that a session holds.
ghost use Rattle.std.specs.Prelude.{◌≡◌};

use crate::writing::has_room;
use krs_store::Taker;
use krs_wire::append_bytes;

/// The replies that a session holds, one frame behind the other, and the tag of the ask whose reply comes next.
#[derive(Drop)]
pub struct Replies {
    pub(crate) bytes: Vec<u8>,
    pub(crate) tag: Option<u64>,
}

// The payload of a key is held as a whole reply, where it can be with no write and no memory taken.
impl Taker for Replies {
    ghost use Rattle.std.specs.Prelude.{refl};
    ghost use Rattle.krs_session.specs.Replies.{HoldsFrame};

    ghost took = { HoldsFrame };

    fn take(&mut self, bytes: &[u8]) -> bool {
        has_room(&self.bytes, bytes.len()) && append_bytes(&mut self.bytes, self.tag, bytes).is_ok()
    }

    ghost starts = { λ r. refl };
}
