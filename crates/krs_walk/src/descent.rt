ghost use Rattle.std.specs.Prelude.{[], ◌&&◌, ◌∷◌, ◌≡◌, Err, Some};
ghost use Rattle.krs_model.specs.{Search.{found_by, is_open}, Table.at};
ghost use Rattle.krs_keys.specs.{Changes.links_some, Keys.{AreFit, OnlyRingsLink, seen, shown}};
ghost use Rattle.krs_walk.specs.Searching.{entered_links, links_below, rings_by, searcher_for, sought_behind};
ghost use Rattle.krs_walk.specs.Searching.{sought_in};

use crate::keyrings::rings_in;
use crate::search::Search;
use krs_keys::Key;
use krs_types::{Errno, SEARCH_DEPTH, Serial};

/// A search level by level from the head down, with no list of what was seen, so that it may come to a keyring more
/// than once. It takes no memory.
impl Search<'_> {
    /// What a search from a head comes to that has this fault.
    pub(crate) fn find_by_levels(&self, head: Serial, fault: Errno) -> Result<Serial, Errno>
        requires fit { AreFit self.now.keys.now.keys }
        requires only { OnlyRingsLink (shown self.now.keys.now.keys) }
        requires head { sought_in self.now (head ∷ []) ≡ Err fault }
        ensures { result ≡ found_by (searcher_for self.now) head self.now.name.now }
    {
        let mut fault = fault;
        for level in 0..SEARCH_DEPTH {
            match self.find_at(head, level, fault) {
                Ok(serial) => return Ok(serial),
                Err(more) => fault = more,
            }
        }
        Err(fault)
    }

    /// What the links of the keyrings at a level below a keyring come to, behind this fault.
    fn find_at(&self, ring: Serial, depth: u8, fault: Errno) -> Result<Serial, Errno>
        requires fit { AreFit self.now.keys.now.keys }
        ensures { result ≡ sought_behind self.now fault (links_below self.now depth ring) }
    {
        if depth == 0 {
            return self.find_in_links(ring, fault);
        }
        let mut fault = fault;
        let rings = self.rings_entered(ring);
        for nested in rings {
            match self.find_at(*nested, depth - 1, fault) {
                Ok(serial) => return Ok(serial),
                Err(more) => fault = more,
            }
        }
        Err(fault)
    }

    /// What the links of a keyring come to, behind this fault.
    fn find_in_links(&self, ring: Serial, fault: Errno) -> Result<Serial, Errno>
        requires fit { AreFit self.now.keys.now.keys }
        ensures { result ≡ sought_behind self.now fault (entered_links self.now ring) }
    {
        match self.keys.get(ring) {
            Some(key) if self.is_entered(key, ring) => self.judge_behind(&key.content, fault),
            _ => Err(fault),
        }
    }

    /// The same at one look with the keyrings that it links, where it is entered.
    pub(crate) fn look_in(&self, ring: Serial, fault: Errno) -> (Result<Serial, Errno>, &[Serial])
        requires fit { AreFit self.now.keys.now.keys }
        ensures sought { result.0 ≡ sought_behind self.now fault (entered_links self.now ring) }
        ensures rings { result.1.now ≡ rings_by self.now ring }
    {
        match self.keys.get(ring) {
            Some(key) if self.is_entered(key, ring) => (
                self.judge_behind(&key.content, fault),
                rings_in(&key.content),
            ),
            _ => (Err(fault), &[]),
        }
    }

    /// The keyrings that a keyring links, where it is entered.
    fn rings_entered(&self, ring: Serial) -> &[Serial]
        requires fit { AreFit self.now.keys.now.keys }
        ensures { result.now ≡ rings_by self.now ring }
    {
        match self.keys.get(ring) {
            Some(key) if self.is_entered(key, ring) => rings_in(&key.content),
            _ => &[],
        }
    }

    /// Whether a keyring is entered, and links something.
    fn is_entered(&self, key: &Key, ring: Serial) -> bool
        requires fit { AreFit self.now.keys.now.keys }
        requires key { at self.now.keys.now.keys ring ≡ Some key.now }
        ensures { result
            ≡ (links_some key.now.content && is_open (searcher_for self.now) ring (seen key.now)) }
    {
        key.content.links_some() && key.is_alive(self.clock) && self.grants(key, ring)
    }
}
