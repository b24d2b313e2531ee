ghost use Rattle.std.specs.Prelude.{[], ◌∷◌, ◌≡◌, Err, IfOk, OnOk, Some, true};
ghost use Rattle.krs_types.specs.{Name.same_name, Rights.{has_all, SEARCH}};
ghost use Rattle.krs_model.specs.{Access.rights_on, Search.{grants_search, weight, weightier}, Table.at};
ghost use Rattle.krs_links.specs.Links.{serials};
ghost use Rattle.krs_keys.specs.Keys.{AreFit, AreNamed, name_at, named_links_of_content, OnlyRingsLink, seen, shown};
ghost use Rattle.krs_walk.specs.Searching.{ArePossessed, is_held, match_by, searcher_for, sought_behind, sought_in};

use crate::Sought;
use crate::possessed::Possessed;
use crate::possession::{find_in, is_followed};
use crate::search::Search;
use crate::visits::NoRoom;
use bitflags::Flags;
use krs_keys::{Content, Key};
use krs_types::{Errno, Rights, Serial};

impl Search<'_> {
    /// What the links of a keyring come to, behind this fault.
    pub(crate) fn judge_behind(&self, content: &Content, fault: Errno) -> Result<Serial, Errno>
        requires fit { AreFit self.now.keys.now.keys }
        requires named { AreNamed (name_at self.now.keys.now.keys) (named_links_of_content content.now) }
        ensures { result ≡ sought_behind self.now fault (serials (named_links_of_content content.now)) }
    {
        match self.judge_link(content) {
            Ok(serial) => Ok(serial),
            Err(more) => Err(weightier(fault, more)),
        }
    }

    /// What the links of a keyring come to: no other than that of the name.
    fn judge_link(&self, content: &Content) -> Result<Serial, Errno>
        requires fit { AreFit self.now.keys.now.keys }
        requires named { AreNamed (name_at self.now.keys.now.keys) (named_links_of_content content.now) }
        ensures { result ≡ sought_in self.now (serials (named_links_of_content content.now)) }
    {
        match find_in(content, self.name) {
            Some(serial) => self.judge(serial),
            None => Err(Errno::ENOKEY),
        }
    }

    /// What a key comes to.
    pub(crate) fn judge(&self, serial: Serial) -> Result<Serial, Errno>
        requires { AreFit self.now.keys.now.keys }
        ensures { result ≡ sought_in self.now (serial ∷ []) }
    {
        match self.keys.get(serial) {
            Some(key) if *self.name == key.name => self.judge_match(key, serial),
            _ => Err(Errno::ENOKEY),
        }
    }

    /// What a key of the name comes to.
    fn judge_match(&self, key: &Key, serial: Serial) -> Result<Serial, Errno>
        requires fit { AreFit self.now.keys.now.keys }
        requires key { at self.now.keys.now.keys serial ≡ Some key.now }
        requires named { same_name self.now.name.now key.now.name ≡ true }
        ensures { result ≡ sought_in self.now (serial ∷ []) }
    {
        if key.revoked {
            return Err(Errno::EKEYREVOKED);
        }
        if key.is_over(self.clock) {
            return Err(Errno::EKEYEXPIRED);
        }
        if self.grants(key, serial) {
            Ok(serial)
        } else {
            Err(Errno::EACCES)
        }
    }

    /// Whether a key grants SEARCH. Possession is asked where it makes a difference.
    pub(crate) fn grants(&self, key: &Key, serial: Serial) -> bool
        requires fit { AreFit self.now.keys.now.keys }
        requires key { at self.now.keys.now.keys serial ≡ Some key.now }
        ensures { result ≡ grants_search (searcher_for self.now) serial (seen key.now) }
    {
        let granted = self.is_granted(key, false);
        if granted == self.is_granted(key, true) {
            return granted;
        }
        let possessed = self.possesses(key, serial);
        self.is_granted(key, possessed)
    }

    fn possesses(&self, key: &Key, serial: Serial) -> bool
        requires fit { AreFit self.now.keys.now.keys }
        requires key { at self.now.keys.now.keys serial ≡ Some key.now }
        ensures { result ≡ is_held self.now serial }
    {
        self.walker.possesses_named(&Sought {
            keys: self.keys,
            context: self.context,
            process_ring: self.process_ring,
            clock: self.clock,
            name: &key.name,
            serial,
        })
    }

    /// Whether hints lead to that it is possessed at once.
    fn is_hinted(&self, key: &Key, serial: Serial) -> bool
        requires fit { AreFit self.now.keys.now.keys }
        requires key { at self.now.keys.now.keys serial ≡ Some key.now }
        ensures { result ≡ true → is_held self.now serial ≡ true }
    {
        self.walker.possesses_hinted(&Sought {
            keys: self.keys,
            context: self.context,
            process_ring: self.process_ring,
            clock: self.clock,
            name: &key.name,
            serial,
        })
    }

    /// What the links of a keyring come to, where lists of what is possessed are at hand.
    pub(crate) fn judge_link_by(
        &self,
        held: &mut Possessed,
        content: &Content,
    ) -> Result<Result<Serial, Errno>, NoRoom>
        requires fit { AreFit self.now.keys.now.keys }
        requires only { OnlyRingsLink (shown self.now.keys.now.keys) }
        requires named { AreNamed (name_at self.now.keys.now.keys) (named_links_of_content content.now) }
        requires held { ArePossessed self.now held.old }
        ensures held { OnOk result (ArePossessed self.now held.new) }
        ensures sought { IfOk result (λ r. r ≡ sought_in self.now (serials (named_links_of_content content.now))) }
    {
        match find_in(content, self.name) {
            Some(serial) => self.judge_by(held, serial),
            None => Ok(Err(Errno::ENOKEY)),
        }
    }

    /// What a key comes to, with the same.
    fn judge_by(
        &self,
        held: &mut Possessed,
        serial: Serial,
    ) -> Result<Result<Serial, Errno>, NoRoom>
        requires fit { AreFit self.now.keys.now.keys }
        requires only { OnlyRingsLink (shown self.now.keys.now.keys) }
        requires held { ArePossessed self.now held.old }
        ensures held { OnOk result (ArePossessed self.now held.new) }
        ensures sought { IfOk result (λ r. r ≡ sought_in self.now (serial ∷ [])) }
    {
        match self.keys.get(serial) {
            Some(key) if *self.name == key.name => self.judge_match_by(held, key, serial),
            _ => Ok(Err(Errno::ENOKEY)),
        }
    }

    /// What a key of the name comes to, with the same.
    fn judge_match_by(
        &self,
        held: &mut Possessed,
        key: &Key,
        serial: Serial,
    ) -> Result<Result<Serial, Errno>, NoRoom>
        requires fit { AreFit self.now.keys.now.keys }
        requires only { OnlyRingsLink (shown self.now.keys.now.keys) }
        requires held { ArePossessed self.now held.old }
        requires key { at self.now.keys.now.keys serial ≡ Some key.now }
        requires named { same_name self.now.name.now key.now.name ≡ true }
        ensures held { OnOk result (ArePossessed self.now held.new) }
        ensures sought { IfOk result (λ r. r ≡ sought_in self.now (serial ∷ [])) }
    {
        if key.revoked {
            return Ok(Err(Errno::EKEYREVOKED));
        }
        if key.is_over(self.clock) {
            return Ok(Err(Errno::EKEYEXPIRED));
        }
        if self.grants_by(held, key, serial)? {
            Ok(Ok(serial))
        } else {
            Ok(Err(Errno::EACCES))
        }
    }

    /// Whether a key of the name grants SEARCH, with the same.
    fn grants_by(&self, held: &mut Possessed, key: &Key, serial: Serial) -> Result<bool, NoRoom>
        requires fit { AreFit self.now.keys.now.keys }
        requires only { OnlyRingsLink (shown self.now.keys.now.keys) }
        requires held { ArePossessed self.now held.old }
        requires key { at self.now.keys.now.keys serial ≡ Some key.now }
        requires named { same_name self.now.name.now key.now.name ≡ true }
        ensures held { OnOk result (ArePossessed self.now held.new) }
        ensures grants { IfOk result (λ b. b ≡ grants_search (searcher_for self.now) serial (seen key.now)) }
    {
        let granted = self.is_granted(key, false);
        if granted == self.is_granted(key, true) {
            return Ok(granted);
        }
        if self.is_hinted(key, serial) {
            return Ok(self.is_granted(key, true));
        }
        let possessed = held.has(self, serial)?;
        Ok(self.is_granted(key, possessed))
    }

    /// The key of the name that a keyring links, where its possessor follows that.
    pub(crate) fn match_in(&self, ring: Serial) -> Option<Serial>
        ensures { result ≡ match_by self.now ring }
    {
        match self.keys.get(ring) {
            Some(key) if is_followed(key, &self.context.caller, self.clock) => {
                find_in(&key.content, self.name)
            }
            _ => None,
        }
    }

    /// Whether a key grants SEARCH, as one that is possessed or not.
    pub(crate) fn is_granted(&self, key: &Key, possessed: bool) -> bool
        ensures { result ≡
            has_all (rights_on (seen key.now) self.now.context.now.caller possessed) SEARCH }
    {
        key.grants(&self.context.caller, possessed)
            .contains(Rights::SEARCH)
    }
}

/// Of two faults of a search the one that weighs more: profile, fault of a search.
pub(crate) fn weightier(first: Errno, second: Errno) -> Errno
    ensures { result ≡ weightier first second }
{
    if weight(first) < weight(second) {
        second
    } else {
        first
    }
}

fn weight(error: Errno) -> u8
    ensures { result ≡ weight error }
{
    match error {
        Errno::EKEYREVOKED => 3,
        Errno::EKEYEXPIRED => 2,
        Errno::EACCES => 1,
        _ => 0,
    }
}
