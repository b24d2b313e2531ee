//! The reading end of a connection, as far as a client has to know what came first. What reads here is proved for every
//! end, and gives what that end gives.
ghost use Rattle.std.specs.Prelude.{◌≡◌};

use std::io;
use std::io::Read;

/// The length and the status of a reply that says that there is no place: `EDQUOT`, which keyretain-guard answers to
/// the first ask.
const NO_PLACE: [u8; 8] = [12, 0, 0, 0, 122, 0, 0, 0];

/// What was read first, as far as it counts.
#[derive(Drop)]
pub(crate) struct Front {
    bytes: [u8; 8],
    count: usize,
}

impl Front {
    /// Before anything was read.
    pub fn start() -> Front {
        Front {
            bytes: [0; 8],
            count: 0,
        }
    }

    /// Keeps what was read first.
    fn note(&mut self, read: &[u8]) {
        for byte in read {
            if self.count >= 8 {
                return;
            }
            self.bytes[self.count] = *byte;
            self.count += 1;
        }
    }
}

/// The reading end, with what was read first.
#[derive(Drop)]
pub(crate) struct Watched<F> {
    pub end: F,
    pub front: Front,
}

impl<F> Watched<F> {
    pub fn into_end(self) -> F
        ensures { result ≡ self.end }
    {
        let Watched { end, front: _ } = self;
        end
    }

    /// Whether the first reply says that there is no place.
    pub fn is_turned_away(&self) -> bool {
        self.front.bytes == NO_PLACE
    }
}

impl<F: Read> Read for Watched<F> {
    ghost remaining = { λ watched. F.remaining watched.end };

    fn read(&mut self, room: &mut [u8]) -> io::Result<usize> {
        let count = self.end.read(room)?;
        self.front.note(&room[..count]);
        Ok(count)
    }
}
