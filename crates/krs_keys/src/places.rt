//! Where each key lies: an index from serials to places, with hints in front of it.
ghost use Rattle.std.specs.Prelude.{[], ◌+◌, ◌≡◌, ◌≤◌, cond, IfNone, IfSome, length, nat_eq, None, OnOk, Some, ℕ};
ghost use Rattle.std.specs.{List.IsDistinct, Map.keys_of};
ghost use Rattle.krs_keys.specs.{Hints.{AreHints, Forgets, IsHinted, Notes, spot}, Listed.place_of};

use indexmap::IndexMap;
use std::alloc::{AllocError, Global};
use std::marker::Model;

/// So many hints there are at first. Their number doubles as keys come, so it is a power of two.
const FIRST_HINTS: usize = 1024;

/// That a serial has a place. No key has the serial 0, whose hint is none.
#[derive(Clone, Copy)]
pub(crate) struct Hint {
    serial: u32,
    place: u32,
}

impl Hint {
    const NONE: Hint = Hint {
        serial: 0,
        place: 0,
    };
}

/// The place of each serial. Serials rise by one, so those in use seldom share the low bits by which a hint is found: a
/// look-up that finds its hint leaves the index alone. A hint is trusted only with the serial that it names.
#[derive(Drop)]
pub(crate) struct Places {
    index: IndexMap<u32, usize>,
    hints: Vec<Hint>,
    alloc: Global,
}

impl Model for Places {
    ghost use Rattle.indexmap.specs.IndexMap.{spare};
    ghost use Rattle.krs_keys.specs.{Hints.AreHints, Listed.Listed};

    ghost Value = { Listed };

    ghost view = { λ p. record { entries = p.index.entries; spare = spare p.index } };

    ghost invariant = { λ p. AreHints p.hints.items p.index.entries };
}

impl Places {
    /// No places. It takes no memory.
    pub(crate) fn new(alloc: Global) -> Self
        ensures { result.entries ≡ [] }
    {
        Places {
            index: IndexMap::new(alloc),
            hints: Vec::new(alloc),
            alloc,
        }
    }

    /// How many serials have a place.
    pub(crate) fn len(&self) -> usize
        ensures len { result ≡ length self.now.entries }
        ensures unique { IsDistinct nat_eq (keys_of self.now.entries) }
    {
        self.index.len()
    }

    /// The place of a serial.
    #[inline(always)]
    pub(crate) fn get(&self, serial: u32) -> Option<usize>
        ensures value { result ≡ place_of self.now.entries serial }
    {
        match hinted(self.hints.as_slice(), serial) {
            Some(place) => Some(place),
            None => self.find(serial),
        }
    }

    /// The same, by the index alone.
    #[inline(never)]
    fn find(&self, serial: u32) -> Option<usize>
        ensures { result ≡ place_of self.now.entries serial }
    {
        match self.index.get(&serial) {
            Some(place) => Some(*place),
            None => None,
        }
    }

    /// Makes room for that many more. Fewer than half of the hints are taken then.
    pub(crate) fn reserve(&mut self, more: usize) -> Result<(), AllocError>
        ensures entries { self.new.entries ≡ self.old.entries }
        ensures ok { OnOk result (more ≤ self.new.spare) }
    {
        let hints = self.hints.len();
        if hints / 2 <= self.index.len() {
            self.remake(hints.saturating_mul(2).max(FIRST_HINTS))?;
        }
        self.index.reserve(more)
    }

    /// So many hints, made anew. A refusal leaves those that there are.
    #[inline(never)]
    fn remake(&mut self, count: usize) -> Result<(), AllocError>
        ensures { self.new ≡ self.old }
    {
        let mut hints = Vec::new(self.alloc);
        hints.resize(count, Hint::NONE)?;
        fill(hints.as_mut_slice(), &self.index);
        self.hints = hints;
        Ok(())
    }

    /// Gives a serial that has none a place, where there is room.
    pub(crate) fn insert(&mut self, serial: u32, place: usize)
        requires absent { place_of self.old.entries serial ≡ None }
        requires room { 1 ≤ self.old.spare }
        ensures placed { (q : ℕ) → place_of self.new.entries q
            ≡ cond (nat_eq serial q) (Some place) (place_of self.old.entries q) }
        ensures room { self.old.spare ≤ self.new.spare + 1 }
    {
        let _ = self.index.insert(serial, place);
        note(self.hints.as_mut_slice(), serial, place);
    }

    /// Takes a serial's place away, and answers it.
    pub(crate) fn remove(&mut self, serial: u32) -> Option<usize>
        ensures value { result ≡ place_of self.old.entries serial }
        ensures gone { (q : ℕ) → place_of self.new.entries q
            ≡ cond (nat_eq serial q) None (place_of self.old.entries q) }
        ensures unchanged { IfNone result (self.new.entries ≡ self.old.entries) }
    {
        let place = self.index.swap_remove(&serial);
        forget(self.hints.as_mut_slice(), serial);
        place
    }

    /// Gives back what memory it can. It takes none that could be refused.
    pub(crate) fn shrink_to_fit(&mut self)
        ensures { self.new.entries ≡ self.old.entries }
    {
        self.index.shrink_to_fit();
        let keys = self.index.len();
        let mut count = self.hints.len();
        for halving in 0..usize::BITS {
            let _ = halving;
            if keys < count / 4 {
                count /= 2;
            }
        }
        let _ = self.remake(count);
    }
}

/// Where the hint of a serial stands among so many: at the serial's low bits.
#[tactic(auto, unfolding(crate::specs::Hints::spot))]
fn spot(count: usize, serial: u32) -> usize
    ensures { result ≡ spot count serial }
{
    serial as usize & count.saturating_sub(1)
}

/// The place of a serial, where a hint of it stands.
#[inline(always)]
fn hinted(hints: &[Hint], serial: u32) -> Option<usize>
    ensures { IfSome result (λ place. IsHinted hints.now serial place) }
{
    let at = spot(hints.len(), serial);
    if at < hints.len() {
        let hint = hints[at];
        if hint.serial == serial && serial > 0 {
            return Some(hint.place as usize);
        }
    }
    None
}

/// A hint at the place of a serial, unless one stands there: that of a key that is there still. Older keys keep theirs.
fn note(hints: &mut [Hint], serial: u32, place: usize)
    ensures { Notes hints.old hints.new serial place }
{
    let at = spot(hints.len(), serial);
    if at < hints.len() {
        if hints[at].serial == 0 {
            if let Ok(place) = u32::try_from(place) {
                hints[at] = Hint { serial, place };
            }
        }
    }
}

/// No hint at a serial's place.
fn forget(hints: &mut [Hint], serial: u32)
    ensures { Forgets hints.old hints.new serial }
{
    let at = spot(hints.len(), serial);
    if at < hints.len() {
        if hints[at].serial == serial {
            hints[at] = Hint::NONE;
        }
    }
}

/// Hints at the places of an index.
fn fill(hints: &mut [Hint], index: &IndexMap<u32, usize>)
    requires { AreHints hints.old index.now.entries }
    ensures { AreHints hints.new index.now.entries }
{
    for at in 0..index.len() {
        if let Some((serial, place)) = index.get_index(at) {
            note(hints, *serial, *place);
        }
    }
}
