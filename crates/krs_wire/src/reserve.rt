ghost use Rattle.std.specs.Prelude.{[], ◌+◌, ◌-◌, ◌<◌, ◌≡◌, ◌≤◌, ◌⊎◌, sum_by, vec_capacity};

use crate::warned::Warning;
use std::alloc::Global;
use std::marker::Model;

/// The bytes of a whole reserve. A read of 4096 bytes may bring 151 asks with three texts each. Where address space is
/// wanting, the C library may give each of these texts a page of its own, 4096 bytes.
pub const RESERVE: usize = 2_097_152;

/// The bytes of its quarters, of its parts where there is no room for a quarter in one, and of those that it takes
/// where there is none for such: a whole number of them is a quarter.
const QUARTER: usize = 524_288;

const LARGE: usize = 65_536;

const SMALL: usize = 4096;

/// Memory that a feed keeps for when there is no other. With it what was read can still be cut into asks, so that it is
/// the store that refuses what would take more, with ENOMEM; without it the stream would end there, and the keys of its
/// client with it. A contract sees how many bytes it holds. None sees how much memory there is.
#[derive(Drop)]
pub(crate) struct Reserve {
    alloc: Global,
    parts: Vec<Vec<u8>>,
    held: usize,
}

impl Model for Reserve {
    ghost use Rattle.std.specs.Prelude.{◌≡◌, ◌≤◌, sum_by, vec_capacity, ℕ};

    ghost Value = { ℕ };

    ghost view = { λ r. r.held };

    // What it holds is what its parts take, and no more than a whole reserve.
    ghost invariant = { λ r. (sum_by vec_capacity r.parts.items ≡ r.held) × (r.held ≤ 2097152) };
}

/// Lets go of parts until they took so many bytes, or of all. The answer is how many bytes they took.
fn drop_parts(parts: &mut Vec<Vec<u8>>, bytes: usize) -> usize
    requires { sum_by vec_capacity parts.old.items ≤ 2097152 }
    ensures gone { sum_by vec_capacity parts.new.items + result ≡ sum_by vec_capacity parts.old.items }
    ensures enough { (bytes ≤ result) ⊎ (parts.new.items ≡ []) }
{
    let mut gone = 0;
    'parts: while let Some(part) = parts.pop() {
        gone += part.capacity();
        if gone >= bytes {
            return gone;
        }
    }
    gone
}

/// Takes parts of a size, of so many bytes together at most, as far as there is memory for them and room in the list.
/// The answer is how many bytes they take.
fn take_parts(alloc: Global, parts: &mut Vec<Vec<u8>>, size: usize, bytes: usize) -> usize
    requires size { 0 < size }
    requires bytes { bytes ≤ 2097152 }
    ensures taken { sum_by vec_capacity parts.new.items ≡ sum_by vec_capacity parts.old.items + result }
    ensures most { result ≤ bytes }
{
    let mut taken = 0;
    'parts: for _ in 0..bytes / size {
        if bytes - taken < size || parts.len() == parts.capacity() {
            return taken;
        }
        let Ok(part) = Vec::with_capacity(alloc, size) else {
            return taken;
        };
        parts.push_reserved(part);
        taken += size;
    }
    taken
}

impl Reserve {
    /// It takes no memory, so all is lacking.
    pub(crate) fn new(alloc: Global) -> Reserve
        ensures { result ≡ 0 }
    {
        Reserve {
            alloc,
            parts: Vec::new(alloc),
            held: 0,
        }
    }

    /// How many bytes are lacking.
    pub(crate) fn lacking(&self) -> usize
        ensures { result ≡ 2097152 - self.now }
    {
        RESERVE.saturating_sub(self.held)
    }

    /// Lets go of a quarter of a whole reserve, or of what is left of it, which others were warned of.
    pub(crate) fn let_go(&mut self, _warning: Warning)
        ensures { (self.new + 524288 ≤ self.old) ⊎ (self.new ≡ 0) }
    {
        let gone = drop_parts(&mut self.parts, QUARTER);
        self.held -= gone;
    }

    /// Lets go of all that is left of it, which others were warned of.
    pub(crate) fn let_go_whole(&mut self, _warning: Warning)
        ensures { self.new ≡ 0 }
    {
        self.parts.clear();
        self.held = 0;
    }

    /// Takes what is lacking, as far as there is memory.
    pub(crate) fn take_back(&mut self)
        ensures { self.old ≤ self.new }
    {
        let most = RESERVE / SMALL;
        let _ = self.parts.reserve(most.saturating_sub(self.parts.len()));
        self.fill(QUARTER);
        self.fill(LARGE);
        self.fill(SMALL);
    }

    /// Takes parts of a size, as far as there is memory.
    fn fill(&mut self, size: usize)
        requires { 0 < size }
        ensures { self.old ≤ self.new }
    {
        let taken = take_parts(self.alloc, &mut self.parts, size, RESERVE - self.held);
        self.held += taken;
    }
}
