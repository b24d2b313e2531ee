ghost use Rattle.std.specs.Prelude.{◌≡◌};
ghost use Rattle.krs_tables.specs.Making.{first_content, maker_key};

use crate::Tables;
use krs_keys::{Content, Key};
use krs_links::HashedName;
use krs_types::{Body, Kind};

impl Tables {
    /// A new key of its maker: add_key(2).
    pub fn new_key(&self, name: HashedName, payload: Body, uid: u32, gid: u32) -> Key
        ensures { result ≡ maker_key name payload uid gid }
    {
        let kind = name.kind();
        Key {
            name,
            uid,
            gid,
            perm: kind.first_perm(),
            expiry: None,
            revoked: false,
            joined: false,
            closed: false,
            content: self.first_content(kind, payload),
        }
    }

    /// What a new key holds: a keyring is made empty.
    fn first_content(&self, kind: Kind, payload: Body) -> Content
        ensures { result ≡ first_content kind payload }
    {
        if kind.is(Kind::Keyring) {
            return Content::Links(self.no_links());
        }
        Content::Payload(payload)
    }
}
