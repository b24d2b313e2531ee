//! Which keyrings a key hangs below, by the hints of those that link it. A hint is followed only where the keys bear it
//! out.
ghost use Rattle.std.specs.Prelude.{◌+◌, ◌≡◌, IfSome, option_to_list, true};
ghost use Rattle.krs_model.specs.Levels.{is_in};
ghost use Rattle.krs_links.specs.Links.{serials};
ghost use Rattle.krs_keys.specs.Keys.{AreFit, named_links_of_content};
ghost use Rattle.krs_walk.specs.Seeking.{Hangs, heads, is_linked_anywhere, links_it, nested, one_links};

use crate::possession::{NEAR_LEVELS, Sought, followed_rings, is_followed};
use krs_keys::{Key, LinkHint};
use krs_types::{SEARCH_DEPTH, Serial};

impl Sought<'_> {
    /// Whether a hint of it leads to a link of it in a keyring of the two nearest levels.
    pub(crate) fn is_hinted(&self) -> bool
        requires fit { AreFit self.now.keys.now.keys }
        ensures { result ≡ true → one_links self.now 2 (heads self.now) ≡ true }
    {
        let (first, second) = self.keys.link_hints(self.serial);
        self.leads_near(first) || self.leads_near(second)
    }

    /// Whether this hint does.
    #[inline(always)]
    fn leads_near(&self, hint: LinkHint) -> bool
        requires fit { AreFit self.now.keys.now.keys }
        ensures { result ≡ true → one_links self.now 2 (heads self.now) ≡ true }
    {
        match hint.ring() {
            Some(ring) => self.is_reached(ring) && self.links_at(ring, hint.place()),
            None => false,
        }
    }

    /// Whether a hint of it leads to a link of it in a keyring of the levels below, and further hints from there up to
    /// an attached keyring.
    pub(crate) fn is_hinted_far(&self) -> bool
        requires fit { AreFit self.now.keys.now.keys }
        ensures { result ≡ true → is_linked_anywhere self.now ≡ true }
    {
        let (first, second) = self.keys.link_hints(self.serial);
        self.leads_far(first) || self.leads_far(second)
    }

    /// Whether this hint does.
    fn leads_far(&self, hint: LinkHint) -> bool
        requires fit { AreFit self.now.keys.now.keys }
        ensures { result ≡ true → is_linked_anywhere self.now ≡ true }
    {
        let Some(ring) = hint.ring() else {
            return false;
        };
        match self.above(ring) {
            Some(above) => self.climbs(above, SEARCH_DEPTH - NEAR_LEVELS - 1)
                && self.links_at(ring, hint.place()),
            None => false,
        }
    }

    /// Whether hints lead up from a keyring, over so many others at most, to one that is attached or nested in such a
    /// one.
    fn climbs(&self, ring: Serial, others: u8) -> bool
        requires fit { AreFit self.now.keys.now.keys }
        ensures { result ≡ true → Hangs self.now ring (others + 1) (heads self.now) }
    {
        if self.is_reached(ring) {
            return true;
        }
        if others == 0 {
            return false;
        }
        match self.above(ring) {
            Some(above) => self.climbs(above, others - 1),
            None => false,
        }
    }

    /// A keyring that is followed, and nests this one, by a hint.
    fn above(&self, ring: Serial) -> Option<Serial>
        requires fit { AreFit self.now.keys.now.keys }
        ensures { IfSome result (λ above. is_in ring (nested self.now above) ≡ true) }
    {
        let (first, second) = self.keys.link_hints(ring);
        let above = first.ring().or(second.ring())?;
        if self.nests(above, ring) {
            Some(above)
        } else {
            None
        }
    }

    /// Whether a keyring is attached, or nested in an attached one that is followed.
    #[inline(always)]
    fn is_reached(&self, ring: Serial) -> bool
        requires fit { AreFit self.now.keys.now.keys }
        ensures { result ≡ true → Hangs self.now ring 1 (heads self.now) }
    {
        self.one_reaches(self.context.session, ring)
            || self.one_reaches(self.process_ring, ring)
            || self.one_reaches(self.context.thread, ring)
    }

    /// Whether it is this one, where there is one, or nested in it.
    #[inline(always)]
    fn one_reaches(&self, attached: Option<Serial>, ring: Serial) -> bool
        requires fit { AreFit self.now.keys.now.keys }
        ensures { result ≡ true → Hangs self.now ring 1 (option_to_list attached) }
    {
        match attached {
            Some(head) => head == ring || self.nests(head, ring),
            None => false,
        }
    }

    /// Whether a keyring is followed, and nests this one.
    #[inline(always)]
    fn nests(&self, above: Serial, ring: Serial) -> bool
        requires fit { AreFit self.now.keys.now.keys }
        ensures { result ≡ is_in ring (nested self.now above) }
    {
        has(
            followed_rings(self.keys, &self.context.caller, self.clock, above),
            ring,
        )
    }

    /// Whether a keyring links it, mostly at this place, and its possessor follows that. The place is taken down where
    /// it is another.
    #[inline(always)]
    fn links_at(&self, ring: Serial, place: usize) -> bool
        requires fit { AreFit self.now.keys.now.keys }
        ensures { result ≡ true → links_it self.now ring ≡ true }
    {
        match self.keys.get(ring) {
            Some(holder) if is_followed(holder, &self.context.caller, self.clock) => {
                holder.links_at(place, self.serial) || self.links_elsewhere(holder, ring)
            }
            _ => false,
        }
    }

    /// Whether a keyring links it at any place, which is taken down.
    #[inline(never)]
    fn links_elsewhere(&self, holder: &Key, ring: Serial) -> bool
        ensures { result ≡ true →
            is_in self.now.serial (serials (named_links_of_content holder.now.content)) ≡ true }
    {
        match holder.link_place(self.name, self.serial) {
            Some(place) => {
                self.keys.note_link(ring, self.serial, place);
                true
            }
            None => false,
        }
    }
}

/// Whether a serial is among these.
#[inline(always)]
fn has(rings: &[Serial], serial: Serial) -> bool
    ensures { result ≡ is_in serial rings.now }
{
    for ring in rings {
        if *ring == serial {
            return true;
        }
    }
    false
}
