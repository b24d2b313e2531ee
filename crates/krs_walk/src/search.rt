ghost use Rattle.std.specs.Prelude.{[], ◌&&◌, ◌∷◌, ◌≡◌, ◌≤◌, drop, Err, IfOk, length, OnOk, option_to_list, Some, true};
ghost use Rattle.krs_model.specs.{Outcome.Is, Possession.attached_with};
ghost use Rattle.krs_model.specs.{Search.{found_by, found_with, is_open, or_next, requested_with, weightier}, Table.at};
ghost use Rattle.krs_links.specs.Links.{nested, serials};
ghost use Rattle.krs_keys.specs.Changes.{links_some};
ghost use Rattle.krs_keys.specs.Keys.{AreFit, AreNamed, name_at, named_links_of_content, OnlyRingsLink, seen, shown};
ghost use Rattle.krs_walk.specs.Searching.{ArePossessed, entered_links, entered_links_of, Joins, rings_by, rings_from};
ghost use Rattle.krs_walk.specs.Searching.{searched_from, searcher_for, sought_behind, sought_in};
ghost use Rattle.krs_types.specs.declared.errno.Errno as errno;

use crate::judging::weightier;
use crate::keyrings::rings_in;
use crate::possessed::Possessed;
use crate::visits::NoRoom;
use crate::{Visits, Walker};
use krs_keys::{Content, Key, KeyTable};
use krs_links::HashedName;
use krs_types::{Context, Errno, SEARCH_DEPTH, Serial};

/// A search: among which keys, by which context, its process's keyring, when, and for what.
#[derive(Clone, Copy)]
pub(crate) struct Search<'a> {
    pub(crate) walker: &'a Walker,
    pub(crate) keys: &'a KeyTable,
    pub(crate) context: &'a Context,
    pub(crate) process_ring: Option<Serial>,
    pub(crate) clock: u64,
    pub(crate) name: &'a HashedName,
}

impl Walker {
    /// The key of a name that a context, whose process has this keyring, finds from a head:
    /// EKEYREVOKED, EKEYEXPIRED, EACCES, ENOKEY. keyctl(2), KEYCTL_SEARCH; profile, order of a search.
    /// Levels are examined one after the other, and those below are not walked where one has the answer.
    pub fn search(
        &self,
        keys: &KeyTable,
        context: &Context,
        process_ring: Option<Serial>,
        clock: u64,
        head: Serial,
        name: &HashedName,
    ) -> Result<Serial, Errno>
        requires { AreFit keys.now.keys }
        ensures { Is (λ k. k) result
            (found_with (shown keys.now.keys) clock context.now process_ring head name.now) }
    {
        keys.only_keyrings_link();
        let search = Search {
            walker: self,
            keys,
            context,
            process_ring,
            clock,
            name,
        };
        search.find(head)
    }

    /// The same from the thread, the process and the session keyring in turn: request_key(2); profile,
    /// three keyrings of a request.
    pub fn request(
        &self,
        keys: &KeyTable,
        context: &Context,
        process_ring: Option<Serial>,
        clock: u64,
        name: &HashedName,
    ) -> Result<Serial, Errno>
        requires { AreFit keys.now.keys }
        ensures { Is (λ k. k) result
            (requested_with (shown keys.now.keys) clock context.now process_ring name.now) }
    {
        keys.only_keyrings_link();
        let search = Search {
            walker: self,
            keys,
            context,
            process_ring,
            clock,
            name,
        };
        search.find_in_turn()
    }
}

impl Search<'_> {
    /// What searches from the attached keyrings come to, one after the other.
    fn find_in_turn(&self) -> Result<Serial, Errno>
        requires fit { AreFit self.now.keys.now.keys }
        requires only { OnlyRingsLink (shown self.now.keys.now.keys) }
        ensures { result ≡ sought_in self.now
            (searched_from self.now (attached_with self.now.context.now self.now.process_ring)) }
    {
        let thread = self.find_next(Err(Errno::ENOKEY), self.context.thread);
        let process = self.find_next(thread, self.process_ring);
        self.find_next(process, self.context.session)
    }

    /// What a search comes to, and behind it one from a head, where there is one.
    fn find_next(&self, found: Result<Serial, Errno>, head: Option<Serial>) -> Result<Serial, Errno>
        requires fit { AreFit self.now.keys.now.keys }
        requires only { OnlyRingsLink (shown self.now.keys.now.keys) }
        ensures { result ≡ or_next found (sought_in self.now (searched_from self.now (option_to_list head))) }
    {
        let (Err(fault), Some(head)) = (found, head) else {
            return found;
        };
        match self.find(head) {
            Ok(serial) => Ok(serial),
            Err(more) => Err(weightier(fault, more)),
        }
    }

    /// What a search from a head comes to.
    fn find(&self, head: Serial) -> Result<Serial, Errno>
        requires fit { AreFit self.now.keys.now.keys }
        requires only { OnlyRingsLink (shown self.now.keys.now.keys) }
        ensures { result ≡ found_by (searcher_for self.now) head self.now.name.now }
    {
        match self.judge(head) {
            Ok(serial) => Ok(serial),
            Err(fault) => self.find_under(head, fault),
        }
    }

    /// What it comes to where the head has this fault. Mostly the head links the key: so it is asked before lists are
    /// taken out for a walk.
    fn find_under(&self, head: Serial, fault: Errno) -> Result<Serial, Errno>
        requires fit { AreFit self.now.keys.now.keys }
        requires only { OnlyRingsLink (shown self.now.keys.now.keys) }
        requires head { sought_in self.now (head ∷ []) ≡ Err fault }
        ensures { result ≡ found_by (searcher_for self.now) head self.now.name.now }
    {
        let (linked, rings) = self.look_in(head, fault);
        match linked {
            Ok(serial) => Ok(serial),
            Err(more) => match self.find_below(head, rings, more) {
                Ok(found) => found,
                Err(NoRoom) => self.find_by_levels(head, fault),
            },
        }
    }

    /// The same, by a walk from the keyrings that the head links, where the head and its links have this fault.
    fn find_below(
        &self,
        head: Serial,
        rings: &[Serial],
        fault: Errno,
    ) -> Result<Result<Serial, Errno>, NoRoom>
        requires fit { AreFit self.now.keys.now.keys }
        requires only { OnlyRingsLink (shown self.now.keys.now.keys) }
        requires rings { rings.now ≡ rings_by self.now head }
        requires passed { (before : errno.Errno) × ((sought_in self.now (head ∷ []) ≡ Err before)
            × (Err fault ≡ sought_behind self.now before (entered_links self.now head))) }
        ensures { IfOk result (λ r. r ≡ found_by (searcher_for self.now) head self.now.name.now) }
    {
        let walker = self.walker;
        let mut seen = walker.take(&walker.rings);
        let mut held = Possessed::new(walker.take(&walker.held));
        let found = self.walk_below(&mut held, &mut seen, head, rings, fault);
        walker.rings.set(seen);
        let (rings, matches) = held.into_lists();
        walker.held.set(rings);
        if let Some(matches) = matches {
            walker.followed.set(matches);
        }
        found
    }

    /// The same, with an empty list for the keyrings that it enters.
    fn walk_below(
        &self,
        held: &mut Possessed,
        seen: &mut Visits,
        head: Serial,
        rings: &[Serial],
        fault: Errno,
    ) -> Result<Result<Serial, Errno>, NoRoom>
        requires fit { AreFit self.now.keys.now.keys }
        requires only { OnlyRingsLink (shown self.now.keys.now.keys) }
        requires held { ArePossessed self.now held.old }
        requires seen { seen.old ≡ [] }
        requires rings { rings.now ≡ rings_by self.now head }
        requires passed { (before : errno.Errno) × ((sought_in self.now (head ∷ []) ≡ Err before)
            × (Err fault ≡ sought_behind self.now before (entered_links self.now head))) }
        ensures { IfOk result (λ r. r ≡ found_by (searcher_for self.now) head self.now.name.now) }
    {
        let _ = head;
        seen.join(rings)?;
        let mut fault = fault;
        let mut start = 0usize;
        for level in 0..SEARCH_DEPTH - 1 {
            let _ = level;
            let end = seen.len();
            match self.visit_level(held, seen, start, fault)? {
                Ok(found) => return Ok(Ok(found)),
                Err(more) => fault = more,
            }
            start = end;
        }
        Ok(Err(fault))
    }

    /// What the links of the keyrings from a place on come to, behind this fault. The keyrings that
    /// they link join the list.
    fn visit_level(
        &self,
        held: &mut Possessed,
        seen: &mut Visits,
        start: usize,
        fault: Errno,
    ) -> Result<Result<Serial, Errno>, NoRoom>
        requires fit { AreFit self.now.keys.now.keys }
        requires only { OnlyRingsLink (shown self.now.keys.now.keys) }
        requires held { ArePossessed self.now held.old }
        requires start { start ≤ length seen.old }
        ensures held { OnOk result (ArePossessed self.now held.new) }
        ensures sought { IfOk result (λ r. r ≡
            sought_behind self.now fault (entered_links_of self.now (drop start seen.old))) }
        ensures joined { IfOk result (λ r.
            Joins r seen.old (rings_from self.now (drop start seen.old)) seen.new) }
    {
        let end = seen.len();
        let mut fault = fault;
        for place in start..end {
            let here = seen.at(place);
            match self.visit(held, seen, here, fault)? {
                Ok(serial) => return Ok(Ok(serial)),
                Err(more) => fault = more,
            }
        }
        Ok(Err(fault))
    }

    /// What the links of a keyring come to, behind this fault. The keyrings that it links join the
    /// list.
    fn visit(
        &self,
        held: &mut Possessed,
        seen: &mut Visits,
        ring: Serial,
        fault: Errno,
    ) -> Result<Result<Serial, Errno>, NoRoom>
        requires fit { AreFit self.now.keys.now.keys }
        requires only { OnlyRingsLink (shown self.now.keys.now.keys) }
        requires held { ArePossessed self.now held.old }
        ensures held { OnOk result (ArePossessed self.now held.new) }
        ensures sought { IfOk result (λ r. r ≡
            sought_behind self.now fault (entered_links self.now ring)) }
        ensures joined { IfOk result (λ r. Joins r seen.old (rings_by self.now ring) seen.new) }
    {
        let Some(key) = self.keys.get(ring) else {
            return Ok(Err(fault));
        };
        if !self.enters(held, key, ring)? {
            return Ok(Err(fault));
        }
        self.examine(held, seen, &key.content, fault)
    }

    /// Whether a keyring is entered, and links something.
    fn enters(&self, held: &mut Possessed, key: &Key, ring: Serial) -> Result<bool, NoRoom>
        requires fit { AreFit self.now.keys.now.keys }
        requires only { OnlyRingsLink (shown self.now.keys.now.keys) }
        requires held { ArePossessed self.now held.old }
        requires key { at self.now.keys.now.keys ring ≡ Some key.now }
        ensures held { OnOk result (ArePossessed self.now held.new) }
        ensures enters { IfOk result (λ b. b ≡
            (links_some key.now.content && is_open (searcher_for self.now) ring (seen key.now))) }
    {
        if !key.content.links_some() || !key.is_alive(self.clock) {
            return Ok(false);
        }
        let granted = self.is_granted(key, false);
        if granted == self.is_granted(key, true) {
            return Ok(granted);
        }
        let possessed = held.rings.has(self, ring)?;
        Ok(self.is_granted(key, possessed))
    }

    /// The same of a keyring that is entered.
    fn examine(
        &self,
        held: &mut Possessed,
        seen: &mut Visits,
        content: &Content,
        fault: Errno,
    ) -> Result<Result<Serial, Errno>, NoRoom>
        requires fit { AreFit self.now.keys.now.keys }
        requires only { OnlyRingsLink (shown self.now.keys.now.keys) }
        requires named { AreNamed (name_at self.now.keys.now.keys) (named_links_of_content content.now) }
        requires held { ArePossessed self.now held.old }
        ensures held { OnOk result (ArePossessed self.now held.new) }
        ensures sought { IfOk result (λ r. r ≡
            sought_behind self.now fault (serials (named_links_of_content content.now))) }
        ensures joined { IfOk result (λ r.
            Joins r seen.old (serials (nested (named_links_of_content content.now))) seen.new) }
    {
        match self.judge_link_by(held, content)? {
            Ok(serial) => Ok(Ok(serial)),
            Err(more) => {
                seen.join(rings_in(content))?;
                Ok(Err(weightier(fault, more)))
            }
        }
    }
}
