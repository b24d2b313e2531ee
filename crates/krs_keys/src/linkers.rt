//! Which keyrings link a key, found without looking at the others.
use krs_types::Serial;
use std::alloc::{AllocError, Global};
use std::cell::Cell;
use std::collections::BTreeSet;
use std::collections::btree_set::Range;

/// A keyring that links a key, or did, and a place of its link order where it may do so. Whoever follows such a hint
/// checks it.
#[derive(Clone, Copy)]
pub struct LinkHint {
    /// 0 is none.
    ring: u32,
    place: u32,
}

impl LinkHint {
    pub(crate) const NONE: LinkHint = LinkHint { ring: 0, place: 0 };

    /// A keyring that links the key at a place which isn't known yet.
    fn of(ring: u32) -> LinkHint {
        LinkHint { ring, place: 0 }
    }

    /// The keyring, if there is one.
    #[inline(always)]
    pub fn ring(self) -> Option<Serial> {
        if self.ring == 0 {
            return None;
        }
        Some(Serial::new(self.ring))
    }

    /// The place.
    #[inline(always)]
    pub fn place(self) -> usize {
        self.place as usize
    }
}

/// Up to two keyrings that link the key at a place, or did.
#[derive(Clone, Copy)]
struct Near {
    first: LinkHint,
    second: LinkHint,
}

impl Near {
    const NONE: Near = Near {
        first: LinkHint::NONE,
        second: LinkHint::NONE,
    };

    /// Takes in a keyring, where there is room, and answers whether it stands here.
    fn take_in(&mut self, ring: u32) -> bool {
        if self.first.ring == 0 || self.first.ring == ring {
            self.first = LinkHint::of(ring);
            return true;
        }
        if self.second.ring == 0 || self.second.ring == ring {
            self.second = LinkHint::of(ring);
            return true;
        }
        false
    }

    /// Leaves out a keyring, and answers whether it stood here.
    fn leave_out(&mut self, ring: u32) -> bool {
        if self.first.ring == ring {
            self.first = LinkHint::NONE;
            return true;
        }
        if self.second.ring == ring {
            self.second = LinkHint::NONE;
            return true;
        }
        false
    }

    /// Takes down where a keyring links the key, if it stands here.
    fn note(&mut self, ring: u32, place: u32) {
        if self.first.ring == ring {
            self.first.place = place;
        } else if self.second.ring == ring {
            self.second.place = place;
        }
    }
}

/// The keyrings that link each key: two stand at the key's place, and further ones in a set. They are hints, and no
/// contract speaks of them: whoever follows one checks that the link is there, and counts the holders of the key to
/// know whether there are others. Most keys have one link, so that the set is mostly empty. Memory that it lacks costs
/// a look at all keyrings later, and refuses nothing.
#[derive(Drop)]
pub(crate) struct Linkers {
    near: Vec<Cell<Near>>,
    /// The key, and the keyring.
    far: BTreeSet<(u32, u32)>,
}

impl Linkers {
    /// None. It takes no memory.
    pub(crate) fn new(alloc: Global) -> Self {
        Linkers {
            near: Vec::new(alloc),
            far: BTreeSet::new(alloc),
        }
    }

    /// Makes room for the keys at so many places.
    pub(crate) fn reserve(&mut self, places: usize) -> Result<(), AllocError> {
        if self.near.len() < places {
            self.near.resize(places, Cell::new(Near::NONE))?;
        }
        Ok(())
    }

    /// Gives back what memory it can where there are only so many places. It takes none that could be refused.
    pub(crate) fn cut(&mut self, places: usize) {
        if places < self.near.len() {
            self.near.truncate(places);
            self.near.shrink_to_fit();
        }
    }

    /// Another key stands at a place, which one keyring links, or none: 0.
    pub(crate) fn begin(&mut self, place: usize, ring: u32) {
        if let Some(near) = self.near.get(place) {
            near.set(Near {
                first: LinkHint::of(ring),
                second: LinkHint::NONE,
            });
        }
    }

    /// A keyring links the key of a serial, at a place.
    #[inline(always)]
    pub(crate) fn add(&mut self, place: usize, serial: u32, ring: u32) {
        let is_near = match self.near.get_mut(place) {
            Some(near) => near.get_mut().take_in(ring),
            None => false,
        };
        if !is_near {
            self.add_far(serial, ring);
        }
    }

    /// The same of a further keyring, whose hint is left out where it finds no memory.
    #[inline(never)]
    fn add_far(&mut self, serial: u32, ring: u32) {
        let _ = self.far.insert((serial, ring));
    }

    /// A keyring links the key of a serial, at a place, no more.
    #[inline(always)]
    pub(crate) fn remove(&mut self, place: usize, serial: u32, ring: u32) {
        let was_near = match self.near.get_mut(place) {
            Some(near) => near.get_mut().leave_out(ring),
            None => false,
        };
        if !was_near && self.has_far() {
            self.remove_far(serial, ring);
        }
    }

    /// The same of a further keyring.
    #[inline(never)]
    fn remove_far(&mut self, serial: u32, ring: u32) {
        let _ = self.far.remove(&(serial, ring));
    }

    /// No keyring links the key of a serial, at a place, any more.
    pub(crate) fn remove_all(&mut self, place: usize, serial: u32) {
        self.begin(place, 0);
        for count in 0..self.far.len() {
            let _ = count;
            let Some(ring) = self.far(serial) else {
                return;
            };
            let _ = self.far.remove(&(serial, ring));
        }
    }

    /// Two keyrings that may link the key at a place.
    #[inline(always)]
    pub(crate) fn near(&self, place: usize) -> (LinkHint, LinkHint) {
        match self.near.get(place) {
            Some(near) => {
                let near = near.get();
                (near.first, near.second)
            }
            None => (LinkHint::NONE, LinkHint::NONE),
        }
    }

    /// Takes down where a keyring links the key at a place.
    pub(crate) fn note(&self, place: usize, ring: u32, link: usize) {
        let Some(near) = self.near.get(place) else {
            return;
        };
        if let Ok(link) = u32::try_from(link) {
            let mut noted = near.get();
            noted.note(ring, link);
            near.set(noted);
        }
    }

    /// Whether more than two keyrings link any key.
    pub(crate) fn has_far(&self) -> bool {
        self.far.len() > 0
    }

    /// A further keyring that may link the key of a serial.
    pub(crate) fn far(&self, serial: u32) -> Option<u32> {
        if !self.has_far() {
            return None;
        }
        let mut entries = self.entries(serial);
        match entries.next() {
            Some(entry) => Some(entry.1),
            None => None,
        }
    }

    /// The first keyring behind this one, by serial, that may link the key of a serial, at a place. 0 is none.
    pub(crate) fn behind(&self, place: usize, serial: u32, last: u32) -> u32 {
        let (first, second) = self.near(place);
        let near = sooner(last, sooner(last, 0, first.ring), second.ring);
        sooner(last, near, self.far_behind(serial, last))
    }

    /// The same of the further keyrings alone.
    fn far_behind(&self, serial: u32, last: u32) -> u32 {
        if !self.has_far() {
            return 0;
        }
        let (Some(from), Some(end)) = (last.checked_add(1), serial.checked_add(1)) else {
            return 0;
        };
        match self.far.range((serial, from)..(end, 0)).next() {
            Some(entry) => entry.1,
            None => 0,
        }
    }

    /// The entries of a serial in the set.
    fn entries(&self, serial: u32) -> Range<'_, (u32, u32)> {
        match serial.checked_add(1) {
            Some(next) => self.far.range((serial, 0)..(next, 0)),
            None => self.far.range((serial, 0)..),
        }
    }
}

/// This keyring, where it stands behind the last one and before the one that was found, if any was: 0 is none.
fn sooner(last: u32, found: u32, ring: u32) -> u32 {
    if ring > last && (found == 0 || ring < found) {
        return ring;
    }
    found
}
