ghost use Rattle.std.specs.Prelude.{◌≡◌, ◌≢◌, false, IfErr, IfNone, IfOk, IfSome, IsOk, IsSome, OnErr, OnOk, slice_get};
ghost use Rattle.std.specs.Prelude.{Some, true};
ghost use Rattle.krs_model.specs.{Access.{is_alive, is_over, rights_on}, Asks.{Changing.or_left, Joining.is_joinable}};
ghost use Rattle.krs_links.specs.Links.{is_refused, link_error, serial_named, serials};
ghost use Rattle.krs_keys.specs.{Changes.changed, Keys.{named_links_of_content, seen, with_entry, without_link_at}};

use bitflags::Flags;
use krs_links::{HashedName, Links};
use krs_types::{Body, Caller, Errno, Kind, Perm, Rights, Serial, UNCHANGED};

/// What a key holds.
#[derive(Drop)]
pub enum Content {
    Payload(Body),
    Links(Links),
}

/// A key as it is kept: its links have their names beside them. keyrings(7), "Keys".
#[derive(Drop)]
pub struct Key {
    pub name: HashedName,
    pub uid: u32,
    pub gid: u32,
    pub perm: Perm,
    /// In seconds since the epoch; none: never.
    pub expiry: Option<u64>,
    pub revoked: bool,
    /// JOIN made it: profile, joining by name.
    pub joined: bool,
    /// It takes no further link: profile, closed keyrings.
    pub closed: bool,
    pub content: Content,
}

/// A change of one key: keyctl(2).
#[derive(Drop)]
pub enum Change {
    /// Another payload, and no expiry any more. A keyring keeps its links.
    Payload(Body),
    /// Another permission mask.
    Mask(Perm),
    /// Another owner and group; `UNCHANGED` leaves what is there.
    Owner { uid: u32, gid: u32 },
    /// When its time is over, if ever.
    Expiry(Option<u64>),
    /// The end: neither payload nor links are left.
    Revoked,
    /// No links, where it is a keyring.
    Cleared,
    /// It takes no further link.
    Closed,
}

impl Change {
    ghost use Rattle.krs_keys.specs.Changes.{revokes};

    /// Whether it is the end of the key.
    pub(crate) fn revokes(&self) -> bool
        ensures { result ≡ revokes self.now }
    {
        matches!(self, Change::Revoked)
    }
}

impl Key {
    /// Whether its time is over.
    pub fn is_over(&self, clock: u64) -> bool
        ensures { result ≡ is_over clock self.now.expiry }
    {
        match self.expiry {
            Some(end) => end <= clock,
            None => false,
        }
    }

    /// Neither revoked nor expired.
    pub fn is_alive(&self, clock: u64) -> bool
        ensures { result ≡ is_alive clock (seen self.now) }
    {
        !self.revoked && !self.is_over(clock)
    }

    /// What a caller may do with it.
    pub fn grants(&self, caller: &Caller, possessed: bool) -> Rights
        ensures { result.0 ≡ rights_on (seen self.now) caller.now possessed }
    {
        self.perm.grants(caller, self.uid, self.gid, possessed)
    }

    /// Whether a caller may join it by this name: a keyring of that description which JOIN made, which is alive, and
    /// which grants SEARCH without possession. keyctl(2), KEYCTL_JOIN_SESSION_KEYRING; profile, joining by name.
    pub fn is_joinable(&self, desc: &[u8], caller: &Caller, clock: u64) -> bool
        ensures { result ≡ is_joinable clock caller.now desc.now (seen self.now) }
    {
        self.name.kind().is(Kind::Keyring)
            && self.joined
            && self.name.desc() == desc
            && self.is_alive(clock)
            && self.grants(caller, false).contains(Rights::SEARCH)
    }

    /// Where it links the key of this name and this serial. No names are compared.
    pub fn link_place(&self, name: &HashedName, serial: Serial) -> Option<usize>
        ensures there { IfSome result
            (λ place. slice_get (serials (named_links_of_content self.now.content)) place ≡ Some serial) }
        ensures none { IfNone result (serial_named (named_links_of_content self.now.content) name.now ≢ Some serial) }
    {
        match &self.content {
            Content::Payload(_) => None,
            Content::Links(links) => links.place_linked(name, serial),
        }
    }

    /// Whether it links the key of this serial at a place.
    #[inline(always)]
    pub fn links_at(&self, place: usize, serial: Serial) -> bool
        ensures { result ≡ true → slice_get (serials (named_links_of_content self.now.content)) place ≡ Some serial }
    {
        match &self.content {
            Content::Payload(_) => false,
            Content::Links(links) => match links.serial_at(place) {
                Some(linked) => linked == serial,
                None => false,
            },
        }
    }

    /// Whether it would refuse a link under this name: it is a full keyring, and no link is displaced.
    pub fn would_refuse(&self, name: &HashedName) -> bool
        ensures { result ≡ is_refused (named_links_of_content self.now.content) name.now }
    {
        match &self.content {
            Content::Payload(_) => false,
            Content::Links(links) => links.would_refuse_hashed(name),
        }
    }

    /// Without the link at a place, where it is a keyring.
    pub fn unlink_at(&mut self, place: usize)
        ensures { self.new ≡ without_link_at place self.old }
    {
        self.content.unlink_at(place);
    }

    /// Changes it.
    pub fn change(&mut self, change: Change)
        ensures { self.new ≡ changed change self.old }
    {
        match change {
            Change::Payload(payload) => {
                self.content.pay(payload);
                self.expiry = None;
            }
            Change::Mask(perm) => self.perm = perm,
            Change::Owner { uid, gid } => {
                self.uid = or_left(uid, self.uid);
                self.gid = or_left(gid, self.gid);
            }
            Change::Expiry(expiry) => self.expiry = expiry,
            Change::Revoked => {
                self.revoked = true;
                self.content.empty();
            }
            Change::Cleared => self.content.clear(),
            Change::Closed => self.closed = true,
        }
    }

    /// One more link, where it is a keyring, and the serial that it displaces: ENFILE, ENOMEM.
    pub fn link(&mut self, name: HashedName, serial: Serial) -> Result<Option<Serial>, Errno>
        ensures ok { OnOk result (self.new ≡ with_entry name serial self.old) }
        ensures displaced { IfOk result (λ old. old ≡ serial_named (named_links_of_content self.old.content) name) }
        ensures room { OnOk result (is_refused (named_links_of_content self.old.content) name ≡ false) }
        ensures in_place { IsSome (serial_named (named_links_of_content self.old.content) name) → IsOk result }
        ensures error { IfErr result (λ e. e ≡ link_error (named_links_of_content self.old.content) name) }
        ensures err { OnErr result (self.new ≡ self.old) }
    {
        match &mut self.content {
            Content::Payload(_) => Ok(None),
            Content::Links(links) => links.put_hashed(name, serial),
        }
    }
}

impl Content {
    ghost use Rattle.krs_keys.specs.Changes.{cleared_content, emptied, links_some, paid_with};
    ghost use Rattle.krs_keys.specs.Keys.{content_without_at};

    /// Another payload in the place of the one that is there.
    fn pay(&mut self, payload: Body)
        ensures { self.new ≡ paid_with payload self.old }
    {
        match self {
            Content::Payload(bytes) => *bytes = payload,
            Content::Links(_) => {}
        }
    }

    /// Neither payload nor links.
    fn empty(&mut self)
        ensures { self.new ≡ emptied self.old }
    {
        match self {
            Content::Payload(bytes) => bytes.clear(),
            Content::Links(links) => links.clear(),
        }
    }

    /// Without the link at a place, where it is a keyring.
    fn unlink_at(&mut self, place: usize)
        ensures { self.new ≡ content_without_at place self.old }
    {
        match self {
            Content::Payload(_) => {}
            Content::Links(links) => {
                links.remove_at(place);
            }
        }
    }

    /// No links, where it is a keyring.
    fn clear(&mut self)
        ensures { self.new ≡ cleared_content self.old }
    {
        match self {
            Content::Payload(_) => {}
            Content::Links(links) => links.clear(),
        }
    }

    /// Whether there is a link.
    pub fn links_some(&self) -> bool
        ensures { result ≡ links_some self.now }
    {
        match self {
            Content::Payload(_) => false,
            Content::Links(links) => links.len() > 0,
        }
    }
}

/// What is asked for, or what is there where that is left.
fn or_left(asked: u32, there: u32) -> u32
    ensures { result ≡ or_left asked there }
{
    if asked == UNCHANGED { there } else { asked }
}
