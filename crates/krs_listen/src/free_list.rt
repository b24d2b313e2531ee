//! What is free of so many seats, and what that tells of the others. It knows no lock, so its clauses are exact.
ghost use Rattle.std.specs.Prelude.{◌+◌, ◌<◌, ◌↔◌, ◌≡◌, IsTrue, vec_len};

/// A list of what is free, of so many in all.
#[derive(Drop)]
pub(crate) struct FreeList<T> {
    pub(crate) free: Vec<T>,
    /// How many there are, those in use among them.
    count: usize,
}

impl<T> FreeList<T> {
    /// All of these are free. The list keeps room for each of them.
    pub(crate) fn new(free: Vec<T>) -> FreeList<T>
        ensures free { result.free ≡ free }
        ensures count { result.count ≡ vec_len free }
    {
        FreeList {
            count: free.len(),
            free,
        }
    }

    pub(crate) fn len(&self) -> usize
        ensures { result ≡ vec_len self.now.free }
    {
        self.free.len()
    }

    pub(crate) fn is_none_free(&self) -> bool
        ensures { IsTrue result ↔ (vec_len self.now.free ≡ 0) }
    {
        self.free.is_empty()
    }

    /// Whether as many are free as were before.
    pub(crate) fn are_as_many(&self, before: usize) -> bool
        ensures { IsTrue result ↔ (vec_len self.now.free ≡ before) }
    {
        self.free.len() == before
    }

    /// Whether any is in use, beside the one that the caller holds.
    pub(crate) fn is_any_in_use(&self) -> bool
        ensures { IsTrue result ↔ (vec_len self.now.free + 1 < self.now.count) }
    {
        self.count.saturating_sub(self.free.len()) > 1
    }
}
