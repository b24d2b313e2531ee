ghost use Rattle.std.specs.Prelude.{[], ◌≡◌};

use crate::Visits;
use std::alloc::{AllocError, Global};
use std::cell::Cell;

/// Walks over a key table. It keeps the lists of its walks, so that these take no memory: where a list has no room,
/// a walk does without it, and may then come to a keyring more than once.
#[derive(Drop)]
pub struct Walker {
    alloc: Global,
    /// The keyrings that a walk has come to.
    pub(crate) rings: Cell<Visits>,
    /// Those that the context of a search possesses; of a height, the next layer.
    pub(crate) held: Cell<Visits>,
    /// Those of a question of possession, which a search may ask on its way.
    pub(crate) followed: Cell<Visits>,
    /// For so many keyrings each list has room.
    room: Cell<usize>,
}

impl Walker {
    /// It takes no memory.
    pub fn new(alloc: Global) -> Walker {
        Walker {
            alloc,
            rings: Cell::new(Visits::new(alloc)),
            held: Cell::new(Visits::new(alloc)),
            followed: Cell::new(Visits::new(alloc)),
            room: Cell::new(0),
        }
    }

    /// Makes room for walks over that many keyrings: what a walk lists are keyrings, each once. No clause can say that
    /// there is room then: it lies in cells.
    pub fn room_for(&self, rings: usize) -> Result<(), AllocError> {
        if rings <= self.room.get() {
            return Ok(());
        }
        self.grow(&self.rings, rings)?;
        self.grow(&self.held, rings)?;
        self.grow(&self.followed, rings)?;
        self.room.set(rings);
        Ok(())
    }

    /// Makes room in one list.
    fn grow(&self, list: &Cell<Visits>, rings: usize) -> Result<(), AllocError> {
        let mut visits = self.take(list);
        let grown = visits.make_room(rings);
        list.set(visits);
        grown
    }

    /// Takes a list out, with nothing in it. Until it is put back there is one without room in its place.
    pub(crate) fn take(&self, list: &Cell<Visits>) -> Visits
        ensures { result ≡ [] }
    {
        let mut visits = list.replace(Visits::new(self.alloc));
        visits.clear();
        visits
    }
}
