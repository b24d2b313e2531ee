//! The counts by serial, and the chain through those that wait for a look.
ghost use Rattle.std.specs.Prelude.{◌-◌, ◌<◌, ◌^◌, ◌≡◌, cond, replicate, Some};
ghost use Rattle.krs_model.specs.Table.{alter, at, without};
ghost use Rattle.krs_links.specs.Links.{serials};
ghost use Rattle.krs_keys.specs.{Hashed.by_serial, Keys.named_links_of_content};
ghost use Rattle.krs_hold.specs.Chain.{falls_at, gone, gone_all, holders_at, lowered, next_at, raised, rested, unheld};

use krs_keys::Content;
use krs_links::Links;
use std::collections::HashMap;

/// What holds a key.
#[derive(Clone, Copy)]
pub struct Count {
    /// Its links and attachments.
    pub(crate) holders: u64,
    /// Whether it is in the chain of those that are looked at in the next sweep.
    pub(crate) waiting: bool,
    /// The one after it in the chain.
    pub(crate) next: Option<u32>,
}

impl Count {
    ghost use Rattle.krs_hold.specs.Chain.{emptied, empties, falls, lowered};

    /// Whether it has its last holder, and does not wait.
    fn falls(&self) -> bool
        ensures { result ≡ falls self.now }
    {
        self.holders == 1 && !self.waiting
    }

    /// One holder less, where this is the count of that key. The first of the chain is answered.
    fn lower(&mut self, first: Option<u32>, serial: u32) -> Option<u32>
        ensures count { self.new ≡ lowered first self.old }
        ensures first { result ≡ cond (falls self.old) (Some serial) first }
    {
        if self.falls() {
            *self = waiting_before(first);
            return Some(serial);
        }
        self.holders = self.holders.saturating_sub(1);
        first
    }

    /// No holder any more, where this is the count of that key. The first of the chain is answered.
    fn empty(&mut self, first: Option<u32>, serial: u32) -> Option<u32>
        ensures count { self.new ≡ emptied first self.old }
        ensures first { result ≡ cond (empties self.old) (Some serial) first }
    {
        if self.holders > 0 && !self.waiting {
            *self = waiting_before(first);
            return Some(serial);
        }
        self.holders = 0;
        first
    }
}

/// A count of a key that nothing holds, before the first of the chain.
fn waiting_before(first: Option<u32>) -> Count
    ensures { result ≡ unheld first }
{
    Count {
        holders: 0,
        waiting: true,
        next: first,
    }
}

/// Takes out the count of a key.
pub(crate) fn forget(counts: &mut HashMap<u32, Count>, serial: u32)
    ensures counts { by_serial counts.new.entries ≡ without (by_serial counts.old.entries) serial }
    ensures gone { at (by_serial counts.new.entries) serial ≡ None }
{
    let _ = counts.remove(&serial);
}

/// How many hold a key.
pub(crate) fn holders(counts: &HashMap<u32, Count>, serial: u32) -> u64
    ensures { result ≡ holders_at (at (by_serial counts.now.entries) serial) }
{
    match counts.get(&serial) {
        Some(count) => count.holders,
        None => 0,
    }
}

/// One holder more.
pub(crate) fn raise(counts: &mut HashMap<u32, Count>, serial: u32)
    requires { holders_at (at (by_serial counts.old.entries) serial) < 2 ^ 64 - 1 }
    ensures { by_serial counts.new.entries ≡ alter (by_serial counts.old.entries) serial raised }
{
    match counts.get_mut(&serial) {
        Some(count) => count.holders += 1,
        None => {}
    }
}

/// One holder less. The first of the chain is answered.
pub(crate) fn let_go(
    counts: &mut HashMap<u32, Count>,
    first: Option<u32>,
    serial: u32,
) -> Option<u32>
    ensures counts { by_serial counts.new.entries ≡ alter (by_serial counts.old.entries) serial (lowered first) }
    ensures first { result ≡ cond (falls_at (at (by_serial counts.old.entries) serial)) (Some serial) first }
{
    match counts.get_mut(&serial) {
        Some(count) => count.lower(first, serial),
        None => first,
    }
}

/// One holder less for each of these links. The first of the chain is answered.
fn let_go_all(
    counts: &mut HashMap<u32, Count>,
    mut first: Option<u32>,
    links: &Links,
) -> Option<u32>
    ensures { gone_all (record { counts = by_serial counts.old.entries; first = first }) (serials links.now)
        ≡ record { counts = by_serial counts.new.entries; first = result } }
{
    for place in 0..links.len() {
        if let Some(serial) = links.serial_at(place) {
            first = let_go(counts, first, serial.number());
        }
    }
    first
}

/// Lets go of what a key links. The first of the chain is answered.
pub(crate) fn let_go_links(
    counts: &mut HashMap<u32, Count>,
    first: Option<u32>,
    content: &Content,
) -> Option<u32>
    ensures { gone_all (record { counts = by_serial counts.old.entries; first = first })
        (serials (named_links_of_content content.now))
        ≡ record { counts = by_serial counts.new.entries; first = result } }
{
    match content {
        Content::Payload(_) => first,
        Content::Links(links) => let_go_all(counts, first, links),
    }
}

/// Each holder of a key less. The first of the chain is answered.
pub(crate) fn let_go_whole(
    counts: &mut HashMap<u32, Count>,
    first: Option<u32>,
    serial: u32,
) -> Option<u32>
    ensures { gone_all (record { counts = by_serial counts.old.entries; first = first })
        (replicate (holders_at (at (by_serial counts.old.entries) serial)) serial)
        ≡ record { counts = by_serial counts.new.entries; first = result } }
{
    match counts.get_mut(&serial) {
        Some(count) => count.empty(first, serial),
        None => first,
    }
}

/// Takes the first out of the chain. The one after it is answered.
pub(crate) fn rest(counts: &mut HashMap<u32, Count>, serial: u32) -> Option<u32>
    ensures counts { by_serial counts.new.entries ≡ alter (by_serial counts.old.entries) serial rested }
    ensures next { result ≡ next_at (at (by_serial counts.old.entries) serial) }
{
    match counts.get_mut(&serial) {
        Some(count) => {
            count.waiting = false;
            count.next
        }
        None => None,
    }
}
