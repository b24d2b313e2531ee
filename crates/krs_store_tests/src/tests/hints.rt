//! Which keyrings a table of keys names as those that link a key. They are hints: no clause speaks of them, and a wrong
//! one costs INVALIDATE a look at every keyring.
use krs_keys::{Change, Content, Key, KeyTable};
use krs_links::{HashedName, Links, Seed};
use krs_types::{Blob, Desc, Fault, Kind, Name, Perm, Serial};
use std::alloc::{AllocError, Global};
use std::process::Abort;

/// What is done to the table: a keyring comes, linked or not; links a key under the name of the key at a serial, which
/// may be another; loses its links; is revoked; or goes.
#[derive(Clone, Copy)]
enum Step {
    Insert(u32),
    InsertLinked { ring: u32, named: u32 },
    Link { ring: u32, named: u32, key: u32 },
    Clear(u32),
    Revoke(u32),
    Remove(u32),
}

/// A table of keys, behind calls that promise nothing.
#[derive(Drop)]
struct Hinted {
    alloc: Global,
    keys: KeyTable,
}

/// The name of the keyring at a serial.
fn name_of(alloc: Global, serial: u32) -> Result<Name, AllocError> {
    let bytes = serial.to_le_bytes();
    let desc = Blob::from_slice(alloc, &bytes)?;
    if desc.as_slice().len() > 4095 {
        return Err(AllocError);
    }
    Ok(Name {
        kind: Kind::Keyring,
        desc: Desc::new(desc),
    })
}

impl Hinted {
    /// An empty keyring under the next serial, which a keyring links under this name, unless that is 0.
    fn insert(&mut self, ring: u32, named: u32) -> Result<(), Fault> {
        let alloc = self.alloc;
        let mut name = name_of(alloc, named)?;
        name.kind = Kind::Keyring;
        let key = Key {
            name: HashedName::new(name, Seed::FIXED),
            uid: 0,
            gid: 0,
            perm: Perm::OF_KEY,
            expiry: None,
            revoked: false,
            joined: false,
            closed: false,
            content: Content::Links(Links::new(alloc, Seed::FIXED)),
        };
        if ring == 0 {
            self.keys.insert(key)?;
            return Ok(());
        }
        let link = HashedName::new(name_of(alloc, named)?, Seed::FIXED);
        self.keys.insert_linked(Serial::new(ring), link, key)?;
        Ok(())
    }

    fn link(&mut self, ring: u32, named: u32, key: u32) -> Result<(), Fault> {
        let name = HashedName::new(name_of(self.alloc, named)?, Seed::FIXED);
        self.keys.link(Serial::new(ring), name, Serial::new(key))?;
        Ok(())
    }

    fn change(&mut self, ring: u32, change: Change) {
        self.keys.set(Serial::new(ring), change);
    }

    fn remove(&mut self, serial: u32) {
        let _ = self.keys.remove(Serial::new(serial));
    }

    fn step(&mut self, step: Step) -> Result<(), Fault> {
        match step {
            Step::Insert(named) => self.insert(0, named),
            Step::InsertLinked { ring, named } => self.insert(ring, named),
            Step::Link { ring, named, key } => self.link(ring, named, key),
            Step::Clear(ring) => {
                self.change(ring, Change::Cleared);
                Ok(())
            }
            Step::Revoke(ring) => {
                self.change(ring, Change::Revoked);
                Ok(())
            }
            Step::Remove(serial) => {
                self.remove(serial);
                Ok(())
            }
        }
    }

    /// Whether just these are named one behind the other.
    fn names_all(&self, key: u32, all: &[u32]) -> bool {
        let mut last = 0;
        for ring in all {
            let next = number_of(self.keys.linker_behind(Serial::new(key), last));
            if next != *ring {
                return false;
            }
            last = next;
        }
        self.keys.linker_behind(Serial::new(key), last).is_none()
    }

    /// The keyrings that are named for a key: the two that stand with it, and a further one; 0 is none.
    fn hints(&self, key: u32) -> [u32; 3] {
        let (first, second) = self.keys.near_linkers(Serial::new(key));
        let far = self.keys.far_linker(Serial::new(key));
        [number_of(first), number_of(second), number_of(far)]
    }
}

/// The number of a keyring, and 0 for none.
fn number_of(ring: Option<Serial>) -> u32 {
    match ring {
        Some(serial) => serial.number(),
        None => 0,
    }
}

/// A step, a key, which keyrings are named for it then, all of them by their serials, and what it is. The keyrings have
/// the serials 1 to 5, and link that of 6.
#[rattlefmt::skip]
const ROWS: [(Step, u32, [u32; 3], &[u32], &str); 23] = [
    (Step::Insert(1), 1, [0, 0, 0], &[], "a keyring that nothing links"),
    (Step::Insert(2), 2, [0, 0, 0], &[], "a second"),
    (Step::Insert(3), 3, [0, 0, 0], &[], "a third"),
    (Step::Insert(4), 4, [0, 0, 0], &[], "a fourth"),
    (Step::Insert(5), 5, [0, 0, 0], &[], "a fifth"),
    (Step::InsertLinked { ring: 1, named: 6 }, 6, [1, 0, 0], &[1], "one that comes with a link"),
    (Step::Link { ring: 2, named: 6, key: 6 }, 6, [1, 2, 0], &[1, 2], "a second link"),
    (Step::Link { ring: 2, named: 6, key: 6 }, 6, [1, 2, 0], &[1, 2], "the same link again"),
    (Step::Link { ring: 3, named: 6, key: 6 }, 6, [1, 2, 3], &[1, 2, 3], "a third link"),
    (Step::Link { ring: 4, named: 6, key: 6 }, 6, [1, 2, 3], &[1, 2, 3, 4], "a fourth link"),
    (Step::Link { ring: 1, named: 6, key: 5 }, 6, [0, 2, 3], &[2, 3, 4], "a link in the place of the first"),
    (Step::Link { ring: 3, named: 6, key: 5 }, 6, [0, 2, 4], &[2, 4], "a link in the place of the third"),
    (Step::Link { ring: 3, named: 7, key: 6 }, 6, [3, 2, 4], &[2, 3, 4], "a link in the room of the first"),
    (Step::Clear(2), 6, [3, 0, 4], &[3, 4], "a keyring that is cleared"),
    (Step::Revoke(3), 6, [0, 0, 4], &[4], "a keyring that is revoked"),
    (Step::Link { ring: 2, named: 6, key: 6 }, 6, [2, 0, 4], &[2, 4], "a link after it"),
    (Step::Link { ring: 5, named: 6, key: 6 }, 6, [2, 5, 4], &[2, 4, 5], "a link beside it"),
    (Step::Remove(2), 6, [0, 5, 4], &[4, 5], "a keyring that goes"),
    (Step::Clear(4), 6, [0, 5, 0], &[5], "the last of those beyond two"),
    (Step::Remove(6), 6, [0, 0, 0], &[], "the key itself"),
    (Step::Insert(7), 7, [0, 0, 0], &[], "another key in its place"),
    (Step::InsertLinked { ring: 5, named: 6 }, 8, [5, 0, 0], &[5], "one that displaces it"),
    (Step::Link { ring: 5, named: 6, key: 7 }, 8, [0, 0, 0], &[], "one that displaces that"),
];

fn check_rows(rt: &impl Abort, table: &mut Hinted) {
    for (step, key, hints, all, row) in &ROWS {
        assert!(rt; table.step(*step).is_ok(), "{row}");
        let named = table.hints(*key);
        assert!(rt; named == *hints, "{row}: {named:?}");
        assert!(rt; table.names_all(*key, all), "{row}");
    }
}

#[test]
fn hints_name_the_keyrings_that_link_a_key(rt: HostRuntime) {
    let mut table = Hinted {
        alloc: rt.alloc(),
        keys: KeyTable::starting_at(rt.alloc(), Seed::FIXED, 1),
    };
    check_rows(&rt, &mut table);
}
