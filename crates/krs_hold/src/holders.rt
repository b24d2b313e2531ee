ghost use Rattle.std.specs.Prelude.{[], ◌&&◌, ◌+◌, ◌-◌, ◌<◌, ◌^◌, ◌≡◌, IfErr, IsOk, IsSome, List, nat_le, not, OnErr};
ghost use Rattle.std.specs.Prelude.{OnOk, option_to_list, replicate, ℕ};
ghost use Rattle.krs_types.specs.declared.errno.Errno.TheVariants.{ENOMEM};
ghost use Rattle.krs_model.specs.{Reach.{IsAcyclic, links_of_key_at}, Table.at};
ghost use Rattle.krs_links.specs.Links.{serials};
ghost use Rattle.krs_keys.specs.Hashed.{by_serial};
ghost use Rattle.krs_keys.specs.{Kept.{KeepsAll, KeepsAnchored, Sweeps}, Keys.{named_links_of_content, shown}};
ghost use Rattle.krs_hold.specs.Tally.{all_less, AreExact, number_at, one_less, one_more, with_number};
ghost use Rattle.krs_hold.specs.{Taken.taken_at, Told.tells};

use crate::cascade::sweep;
use crate::counts::{Count, holders, let_go, let_go_links, let_go_whole, raise};
use krs_keys::{Change, Content, KeySet, KeyTable};
use krs_types::{Errno, Serial};
use std::alloc::Global;
use std::collections::{BTreeSet, HashMap};
use std::marker::Model;

/// A table with room for so many counts is never too large.
const KEPT: usize = 1024;

/// The count of a new key, which its first holder holds.
const HELD_ONCE: Count = Count {
    holders: 1,
    waiting: false,
    next: None,
};

/// How many links and attachments hold each key. Through the counts runs a chain, which has each
/// key that nothing holds, and some that something holds again.
#[derive(Drop)]
pub struct Holders {
    counts: HashMap<u32, Count>,
    first: Option<u32>,
}

impl Model for Holders {
    ghost use Rattle.std.specs.Prelude.{ℕ};
    ghost use Rattle.krs_model.specs.Table.{Table};

    ghost Value = { Table ℕ };

    ghost use Rattle.krs_keys.specs.Hashed.{by_serial};
    ghost use Rattle.krs_hold.specs.Chain.{IsChained, numbers_of};

    ghost view = { λ h. numbers_of (by_serial h.counts.entries) };

    ghost invariant = { λ h. IsChained (by_serial h.counts.entries) h.first };
}

impl Holders {
    /// No keys. It takes no memory.
    pub fn new(alloc: Global) -> Self
        ensures { result ≡ [] }
    {
        Holders {
            counts: HashMap::new(alloc),
            first: None,
        }
    }

    /// Makes room for the count of a key that is made next: ENOMEM. Beside `made_held` no other call takes memory.
    /// Where that key is then not made, nothing has to be undone: the next sweep drops the count.
    pub fn made(&mut self, serial: Serial) -> Result<(), Errno>
        ensures ok { OnOk result (self.new ≡ with_number serial self.old) }
        ensures there { IsSome (at self.old serial) → IsOk result }
        ensures error { IfErr result (λ e. e ≡ ENOMEM) }
        ensures err { OnErr result (self.new ≡ self.old) }
    {
        let serial = serial.number();
        if self.counts.contains_key(&serial) {
            return Ok(());
        }
        let count = Count {
            holders: 0,
            waiting: true,
            next: self.first,
        };
        match self.counts.insert(serial, count) {
            Ok(_) => {
                self.first = Some(serial);
                Ok(())
            }
            Err(_) => Err(Errno::ENOMEM),
        }
    }

    /// Counts a key that is made next, with its first holder: ENOMEM. Where that key is then not made, the holder lets
    /// go of it again, and the next sweep drops the count.
    pub fn made_held(&mut self, serial: Serial) -> Result<(), Errno>
        ensures ok { OnOk result (self.new ≡ one_more serial (with_number serial self.old)) }
        ensures error { IfErr result (λ e. e ≡ ENOMEM) }
        ensures err { OnErr result (self.new ≡ self.old) }
    {
        let number = serial.number();
        if self.counts.contains_key(&number) {
            return self.hold_again(serial);
        }
        let Ok(_) = self.counts.insert(number, HELD_ONCE) else {
            return Err(Errno::ENOMEM);
        };
        Ok(())
    }

    /// One more link or attachment holds a key that has a count, where that has room.
    fn hold_again(&mut self, serial: Serial) -> Result<(), Errno>
        requires { IsSome (at self.old serial) }
        ensures ok { OnOk result (self.new ≡ one_more serial (with_number serial self.old)) }
        ensures error { IfErr result (λ e. e ≡ ENOMEM) }
        ensures err { OnErr result (self.new ≡ self.old) }
    {
        if !self.has_room(serial, 1) {
            return Err(Errno::ENOMEM);
        }
        self.hold(serial);
        Ok(())
    }

    /// How many links and attachments hold a key.
    pub fn number(&self, serial: Serial) -> u64
        ensures { result ≡ number_at self.now serial }
    {
        holders(&self.counts, serial.number())
    }

    /// Whether so many more may hold a key. It is for the caller to ask before it changes anything.
    pub fn has_room(&self, serial: Serial, more: u64) -> bool
        ensures { result ≡ nat_le (number_at self.now serial + more) (2 ^ 64 - 1) }
    {
        holders(&self.counts, serial.number()) <= u64::MAX - more
    }

    /// One more link or attachment holds a key.
    pub fn hold(&mut self, serial: Serial)
        requires { number_at self.old serial < 2 ^ 64 - 1 }
        ensures { self.new ≡ one_more serial self.old }
    {
        raise(&mut self.counts, serial.number());
    }

    /// One link or attachment less holds a key. Where it was the last, the key goes at the next
    /// sweep, unless something holds it again by then.
    pub fn let_go(&mut self, serial: Serial)
        ensures { self.new ≡ one_less serial self.old }
    {
        self.first = let_go(&mut self.counts, self.first, serial.number());
    }

    /// Lets go of what an attachment has, or of what a link displaced.
    pub fn let_go_of(&mut self, serial: Option<Serial>)
        ensures { self.new ≡ all_less (option_to_list serial) self.old }
    {
        if let Some(gone) = serial {
            self.let_go(gone);
        }
    }

    /// All that holds a key lets go of it.
    pub fn let_go_whole(&mut self, serial: Serial)
        ensures { self.new
            ≡ all_less (replicate (number_at self.old serial) serial) self.old }
    {
        self.first = let_go_whole(&mut self.counts, self.first, serial.number());
    }

    /// Lets go of all that a key links.
    fn let_go_links(&mut self, content: &Content)
        ensures { self.new ≡ all_less (serials (named_links_of_content content.now)) self.old }
    {
        self.first = let_go_links(&mut self.counts, self.first, content);
    }

    /// Lets go of what a change is about to take out of the key at a serial.
    pub fn let_go_taken(&mut self, keys: &KeyTable, serial: Serial, change: &Change)
        ensures { self.new ≡ all_less (taken_at change.now (at keys.now.keys serial)) self.old }
    {
        match (change, keys.get(serial)) {
            (Change::Revoked | Change::Cleared, Some(key)) => self.let_go_links(&key.content),
            _ => {}
        }
    }

    /// Drops each key that nothing holds any more, and then those that only dropped keys held:
    /// keyrings(7), "Anchoring keys"; profile, dropped at once. Answers which watched ones are among
    /// them: no watch of another has to be looked at. Without memory for their list it answers none, and any may be.
    pub fn sweep<W: KeySet>(
        &mut self,
        alloc: Global,
        keys: &mut KeyTable,
        watched: &W,
    ) -> Option<BTreeSet<u32>>
        ensures exact { (attached : List ℕ) → AreExact keys.old.keys self.old attached
            → AreExact keys.new.keys self.new attached }
        ensures anchored { (attached : List ℕ) → AreExact keys.old.keys self.old attached
            → KeepsAnchored attached keys.old.keys keys.new.keys }
        ensures swept { (attached : List ℕ) → AreExact keys.old.keys self.old attached
            → IsAcyclic (links_of_key_at (shown keys.old.keys))
            → Sweeps attached keys.old.keys keys.new.keys }
        ensures watched { KeepsAll (λ k. W.has watched.now k && not (tells result k)) keys.old.keys keys.new.keys }
        ensures next { keys.new.next ≡ keys.old.next }
    {
        let told = sweep(alloc, keys, &mut self.counts, self.first, watched);
        if self.first.is_some() {
            give_back(&mut self.counts);
        }
        self.first = None;
        told
    }
}

/// Counts of which three quarters have gone give back what memory they can. It takes none that could be refused.
fn give_back(counts: &mut HashMap<u32, Count>)
    ensures { by_serial counts.new.entries ≡ by_serial counts.old.entries }
{
    let room = counts.capacity();
    if KEPT < room && counts.len() < room / 4 {
        counts.shrink_to_fit();
    }
}
