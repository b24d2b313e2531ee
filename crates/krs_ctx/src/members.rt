//! Which contexts a client, a process and a uid have.
ghost use Rattle.std.specs.Prelude.{◌<◌, ◌^◌, ◌≡◌, ◌≢◌, false, IfNone, IfSome, length, OnErr, OnOk, true, ℕ};
ghost use Rattle.std.specs.List.Sorted.{IsStrictlySortedBy};
ghost use Rattle.krs_model.specs.Queues.{place_cmp};
ghost use Rattle.krs_ctx.specs.Members.{Adds, lists, pairs_of, Removes};

use std::alloc::{AllocError, Global};
use std::collections::BTreeSet;
use std::collections::btree_set::Range;

/// Contexts by a group of theirs, as by their client: the group, and the number of the context. What is asked of one
/// group looks at no other. Groups are 64 bits wide, so that each has a next one.
#[derive(Drop)]
pub(crate) struct Members {
    pairs: BTreeSet<(u64, u32)>,
}

impl Members {
    /// None. It takes no memory.
    pub(crate) fn new(alloc: Global) -> Self
        ensures { (g n : ℕ) → lists result g n ≡ false }
    {
        Members {
            pairs: BTreeSet::new(alloc),
        }
    }

    /// Lists a context. A refusal leaves what is there.
    pub(crate) fn insert(&mut self, group: u32, number: u32) -> Result<(), AllocError>
        ensures ok { OnOk result (Adds self.old self.new group number) }
        ensures err { OnErr result (self.new ≡ self.old) }
    {
        self.pairs.insert((u64::from(group), number))?;
        Ok(())
    }

    /// Lists a context no more.
    pub(crate) fn remove(&mut self, group: u32, number: u32)
        ensures { Removes self.old self.new group number }
    {
        self.pairs.remove(&(u64::from(group), number));
    }

    /// Those of a group, numbers rising.
    pub(crate) fn of(&self, group: u32) -> Range<'_, (u64, u32)>
        ensures pairs { result ≡ pairs_of self.now group }
        ensures fits { length result < 2 ^ 63 }
        ensures rising { IsStrictlySortedBy place_cmp self.now.pairs.keys }
    {
        let first = u64::from(group);
        self.pairs.range((first, 0)..(first + 1, 0))
    }

    /// How many a group has.
    pub(crate) fn count(&self, group: u32) -> usize
        ensures count { result ≡ length (pairs_of self.now group) }
        ensures rising { IsStrictlySortedBy place_cmp self.now.pairs.keys }
    {
        self.of(group).count()
    }

    /// The first of a group.
    pub(crate) fn first(&self, group: u32) -> Option<u32>
        ensures listed { IfSome result (λ n. lists self.now group n ≡ true) }
        ensures none { IfNone result ((n : ℕ) → lists self.now group n ≡ false) }
    {
        match self.of(group).next() {
            Some((_, number)) => Some(*number),
            None => None,
        }
    }

    /// The first of a group that is not this one.
    pub(crate) fn other(&self, group: u32, number: u32) -> Option<u32>
        ensures listed { IfSome result (λ n. lists self.now group n ≡ true) }
        ensures other { IfSome result (λ n. n ≢ number) }
        ensures none { IfNone result ((n : ℕ) → n ≢ number → lists self.now group n ≡ false) }
    {
        for (_, member) in self.of(group) {
            if *member != number {
                return Some(*member);
            }
        }
        None
    }
}
