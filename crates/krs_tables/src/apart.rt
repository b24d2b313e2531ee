//! Whether a key is out of a context's reach, told from the key up. The keyrings that are noted to link it are looked
//! at. They are all that do where they and its attachments are as many as its holders, of which the number is exact.
ghost use Rattle.std.specs.Prelude.{◌-◌, ◌<◌, ◌≡◌, ◌≤◌, false, IfSome, IsSome, option_to_list, true};
ghost use Rattle.krs_model.specs.{Levels.{is_in, levels}, Possession.{attached, followed_in, possessed}};
ghost use Rattle.krs_model.specs.{Reach.links_of_key_at, Sweep.{context_roots, process_roots, roots, uid_roots}};
ghost use Rattle.krs_hold.specs.Tally.{all_links, times};

use crate::Tables;
use krs_types::{Context, SEARCH_DEPTH, Serial, UidRings};
use std::collections::BTreeMap;

/// So many attachments are looked at, at most.
const MOST_STEPS: usize = 65_536;

/// A keyring takes about as long as so many attachments.
const STEPS_OF_A_KEYRING: usize = 16;

impl Tables {
    /// Whether it is certain, after few steps, that a context doesn't possess a key.
    #[tactic(auto, unfolding(krs_model::specs::Possession::possessed))]
    pub(crate) fn is_apart(&self, context: &Context, serial: Serial) -> bool
        ensures { result ≡ true → possessed self.now context.now serial ≡ false }
    {
        self.climb(context, serial, SEARCH_DEPTH + 1, MOST_STEPS)
            .is_some()
    }

    /// Where a key is in none of the first so many levels of followed keyrings, how many steps are left.
    fn climb(&self, context: &Context, serial: Serial, depth: u8, steps: usize) -> Option<usize>
        ensures { IsSome result →
            is_in serial (levels (followed_in self.now context.now) (attached self.now context.now) depth) ≡ false }
    {
        if depth == 0 {
            return Some(steps);
        }
        if self.attaches(context, serial) {
            return None;
        }
        let mut left = steps.checked_sub(STEPS_OF_A_KEYRING)?;
        let mut found = 0u64;
        let mut last = 0u32;
        'linkers: while let Some(ring) = self.linker_behind(serial, last) {
            left = self.climb(context, ring, depth - 1, left)?;
            found = found.saturating_add(1);
            last = ring.number();
        }
        self.has_no_other(serial, found, left)
    }

    /// The next keyring behind a serial that links a key, of those that are noted.
    fn linker_behind(&self, serial: Serial, last: u32) -> Option<Serial>
        ensures behind { IfSome result (λ ring. last < ring) }
        ensures links { IfSome result (λ ring. is_in serial (links_of_key_at self.now.keys ring) ≡ true) }
    {
        let mut last = last;
        'noted: while let Some(ring) = self.keys.linker_behind(serial, last) {
            if ring.number() <= last {
                return None;
            }
            if self.keys.links_key(ring, serial) {
                return Some(ring);
            }
            last = ring.number();
        }
        None
    }

    /// Whether a key is the thread, process or session keyring of a context.
    fn attaches(&self, context: &Context, serial: Serial) -> bool
        ensures { result ≡ is_in serial (attached self.now context.now) }
    {
        is_of(context.thread, serial)
            || is_of(self.process_ring(context.process), serial)
            || is_of(context.session, serial)
    }

    /// Where no more than so many links hold a key, how many steps are left.
    fn has_no_other(&self, serial: Serial, found: u64, steps: usize) -> Option<usize>
        ensures { IsSome result → times serial (all_links self.now.keys) ≤ found }
    {
        let holders = self.holders.number(serial).saturating_sub(found);
        if holders == 0 {
            return Some(steps);
        }
        let left = steps
            .checked_sub(self.contexts.contexts().len())?
            .checked_sub(self.contexts.processes().len())?
            .checked_sub(self.contexts.uids().len())?;
        if self.less_attached(holders, serial) > 0 {
            return None;
        }
        Some(left)
    }

    /// So many holders of a key, but for its attachments.
    fn less_attached(&self, holders: u64, serial: Serial) -> u64
        ensures { result ≡ holders - times serial (roots self.now) }
    {
        let left = less_contexts(holders, self.contexts.contexts(), serial);
        let left = less_processes(left, self.contexts.processes(), serial);
        less_uids(left, self.contexts.uids(), serial)
    }
}

/// So many, but for what contexts attach.
fn less_contexts(holders: u64, contexts: &BTreeMap<u32, Context>, serial: Serial) -> u64
    ensures { result ≡ holders - times serial (context_roots contexts.now.entries) }
{
    let mut left = holders;
    for (number, context) in contexts {
        let _ = number;
        left = less_one(left, context.thread, serial);
        left = less_one(left, context.session, serial);
    }
    left
}

/// So many, but for what processes attach.
fn less_processes(holders: u64, processes: &BTreeMap<u32, Option<Serial>>, serial: Serial) -> u64
    ensures { result ≡ holders - times serial (process_roots processes.now.entries) }
{
    let mut left = holders;
    for (number, ring) in processes {
        let _ = number;
        left = less_one(left, *ring, serial);
    }
    left
}

/// So many, but for what uids attach.
fn less_uids(holders: u64, uids: &BTreeMap<u32, UidRings>, serial: Serial) -> u64
    ensures { result ≡ holders - times serial (uid_roots uids.now.entries) }
{
    let mut left = holders;
    for (uid, rings) in uids {
        let _ = uid;
        left = less_one(left, rings.user, serial);
        left = less_one(left, rings.session, serial);
    }
    left
}

/// One less, where an attachment is of a key.
fn less_one(holders: u64, attached: Option<Serial>, serial: Serial) -> u64
    ensures { result ≡ holders - times serial (option_to_list attached) }
{
    if is_of(attached, serial) {
        return holders.saturating_sub(1);
    }
    holders
}

/// Whether an attachment is of a key.
fn is_of(attached: Option<Serial>, serial: Serial) -> bool
    ensures { result ≡ is_in serial (option_to_list attached) }
{
    match attached {
        Some(held) => held == serial,
        None => false,
    }
}
