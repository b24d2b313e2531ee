ghost use Rattle.std.specs.Prelude.{[], ◌++◌, ◌<◌, ◌==◌, ◌^◌, ◌∷◌, ◌≡◌, false, length, OnOk, option_to_list};
ghost use Rattle.std.specs.{Prelude.slice_index, List.IsDistinct};
ghost use Rattle.krs_model.specs.Levels.{is_in};
ghost use Rattle.krs_walk.specs.Lists.{join};

use indexmap::IndexSet;
use krs_types::Serial;
use std::alloc::{AllocError, Global};
use std::marker::Model;

/// There is no room for one key more in the list of a walk.
#[derive(Clone, Copy)]
pub(crate) struct NoRoom;

/// The keys that a walk has come to, in the order in which it came to them, each once. It takes memory in `make_room`
/// alone, and keeps it.
#[derive(Drop)]
pub(crate) struct Visits {
    keys: IndexSet<u32>,
}

impl Model for Visits {
    ghost use Rattle.std.specs.Prelude.{List, ℕ};

    ghost Value = { List ℕ };

    ghost view = { λ v. v.keys.keys };
}

impl Visits {
    /// None yet. It takes no memory.
    pub(crate) fn new(alloc: Global) -> Self
        ensures { result ≡ [] }
    {
        Visits {
            keys: IndexSet::new(alloc),
        }
    }

    /// Makes room for as many keys as that, where it has none yet.
    pub(crate) fn make_room(&mut self, keys: usize) -> Result<(), AllocError>
        ensures { self.new ≡ self.old }
    {
        self.keys.reserve(keys)
    }

    /// Takes all out, in the time that it takes for those that are there. The room stays.
    pub(crate) fn clear(&mut self)
        ensures { self.new ≡ [] }
    {
        self.keys.truncate(0);
    }

    pub(crate) fn len(&self) -> usize
        ensures is { result ≡ length self.now }
        ensures small { result < 2 ^ 63 }
        ensures once { IsDistinct (λ a b. a == b) self.now }
    {
        self.keys.len()
    }

    pub(crate) fn is_empty(&self) -> bool
        ensures { result ≡ (length self.now == 0) }
    {
        self.keys.as_slice().is_empty()
    }

    pub(crate) fn at(&self, place: usize) -> Serial
        requires { place < length self.now }
        ensures { result ≡ slice_index self.now place }
    {
        let keys = self.keys.as_slice();
        Serial::new(keys[place])
    }

    pub(crate) fn as_slice(&self) -> &[u32]
        ensures { result.now ≡ self.now }
    {
        self.keys.as_slice()
    }

    pub(crate) fn has(&self, key: Serial) -> bool
        ensures { result ≡ is_in key self.now }
    {
        self.keys.contains(&key.number())
    }

    /// One key more, where it isn't there.
    fn push(&mut self, key: Serial) -> Result<(), NoRoom>
        requires { is_in key self.old ≡ false }
        ensures { OnOk result (self.new ≡ self.old ++ key ∷ []) }
    {
        if self.keys.len() == self.keys.capacity() {
            return Err(NoRoom);
        }
        let Ok(_) = self.keys.insert(key.number()) else {
            return Err(NoRoom);
        };
        Ok(())
    }

    /// Those of these keys that aren't there yet, in their order.
    pub(crate) fn join(&mut self, keys: &[Serial]) -> Result<(), NoRoom>
        ensures { OnOk result (self.new ≡ join self.old keys.now) }
    {
        for key in keys {
            if !self.has(*key) {
                self.push(*key)?;
            }
        }
        Ok(())
    }

    /// This one, where there is one and it isn't there yet.
    pub(crate) fn join_one(&mut self, key: Option<Serial>) -> Result<(), NoRoom>
        ensures { OnOk result (self.new ≡ join self.old (option_to_list key)) }
    {
        match key {
            Some(key) => self.join(&[key]),
            None => Ok(()),
        }
    }
}
