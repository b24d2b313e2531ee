//! Where the levels of nested keyrings end below those that are attached, and whether they have many.
ghost use Rattle.std.specs.Prelude.{[], ◌≡◌, flat_map, option_to_list, true};
ghost use Rattle.krs_keys.specs.Keys.{AreFit};
ghost use Rattle.krs_walk.specs.Seeking.{heads, nested};

use crate::possession::{Sought, followed_rings};
use krs_types::Serial;

/// So many keyrings are few: a walk over them takes about as long as to tell from a key whether it hangs below them.
const FEW_RINGS: usize = 1024;

impl Sought<'_> {
    /// Whether no followed keyring is nested deeper than in the two nearest levels, so that these have answered.
    pub(crate) fn ends_near(&self) -> bool
        requires fit { AreFit self.now.keys.now.keys }
        ensures { result ≡ true → flat_map (nested self.now) (flat_map (nested self.now) (heads self.now)) ≡ [] }
    {
        self.one_ends_near(self.context.thread)
            && self.one_ends_near(self.process_ring)
            && self.one_ends_near(self.context.session)
    }

    /// The same of one keyring, where there is one.
    fn one_ends_near(&self, ring: Option<Serial>) -> bool
        requires fit { AreFit self.now.keys.now.keys }
        ensures { result ≡ true → flat_map (nested self.now) (flat_map (nested self.now) (option_to_list ring)) ≡ [] }
    {
        match ring {
            Some(ring) => self.nests_no_deeper(ring),
            None => true,
        }
    }

    /// Whether what a keyring nests nests no other.
    fn nests_no_deeper(&self, ring: Serial) -> bool
        requires fit { AreFit self.now.keys.now.keys }
        ensures { result ≡ true → flat_map (nested self.now) (nested self.now ring) ≡ [] }
    {
        let caller = &self.context.caller;
        let rings = followed_rings(self.keys, caller, self.clock, ring);
        for nested in rings {
            if !followed_rings(self.keys, caller, self.clock, *nested).is_empty() {
                return false;
            }
        }
        true
    }

    /// Whether many keyrings are nested in the attached ones and in so many levels below them. It only tells where to
    /// begin, so no clause speaks of it.
    pub(crate) fn nests_many(&self, levels: u8) -> bool
        requires fit { AreFit self.now.keys.now.keys }
    {
        self.few_left(levels).is_none()
    }

    /// How many more keyrings would be few.
    fn few_left(&self, levels: u8) -> Option<usize>
        requires fit { AreFit self.now.keys.now.keys }
    {
        let left = self.one_leaves(self.context.thread, levels, FEW_RINGS)?;
        let left = self.one_leaves(self.process_ring, levels, left)?;
        self.one_leaves(self.context.session, levels, left)
    }

    /// The same below one keyring, where there is one.
    fn one_leaves(&self, ring: Option<Serial>, levels: u8, left: usize) -> Option<usize>
        requires fit { AreFit self.now.keys.now.keys }
    {
        match ring {
            Some(ring) => self.leaves(ring, levels, left),
            None => Some(left),
        }
    }

    /// The same below a keyring.
    fn leaves(&self, ring: Serial, levels: u8, left: usize) -> Option<usize>
        requires fit { AreFit self.now.keys.now.keys }
    {
        let rings = followed_rings(self.keys, &self.context.caller, self.clock, ring);
        let mut left = left.checked_sub(rings.len())?;
        if levels > 0 {
            for nested in rings {
                left = self.leaves(*nested, levels - 1, left)?;
            }
        }
        Some(left)
    }
}
