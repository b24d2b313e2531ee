ghost use Rattle.std.specs.Prelude.{[], ◌↔◌, ◌≡◌, IfOk, IsSome, IsTrue, true};
ghost use Rattle.krs_model.specs.{Laws.ClosesCycle, Reach.{closes, is_ring, links_of_key_at}, Table.at};
ghost use Rattle.krs_keys.specs.Keys.{AreFit, OnlyRingsLink, shown};
ghost use Rattle.krs_walk.specs.Walks.{is_nested_within};

use crate::keyrings::rings_of;
use crate::visits::NoRoom;
use crate::{Visits, Walker};
use krs_keys::KeyTable;
use krs_types::Serial;

impl Walker {
    /// Whether a link from the keyring to the key would close a cycle. keyctl(2), KEYCTL_LINK, "EDEADLK".
    pub fn would_cycle(&self, keys: &KeyTable, key: Serial, ring: Serial) -> bool
        requires fit { AreFit keys.now.keys }
        requires key { IsSome (at (shown keys.now.keys) key) }
        requires ring { is_ring (at (shown keys.now.keys) ring) ≡ true }
        ensures closes { result ≡ closes (shown keys.now.keys) key ring }
        ensures reached { IsTrue result ↔ ClosesCycle (links_of_key_at (shown keys.now.keys)) key ring }
    {
        keys.only_keyrings_link();
        if key == ring {
            return true;
        }
        if rings_of(keys, key).is_empty() {
            return false;
        }
        match self.walk_to(keys, key, ring) {
            Ok(closes) => closes,
            Err(NoRoom) => descend_to(keys, key, ring),
        }
    }

    /// The same, by a walk from the key.
    fn walk_to(&self, keys: &KeyTable, key: Serial, ring: Serial) -> Result<bool, NoRoom>
        requires fit { AreFit keys.now.keys }
        requires only { OnlyRingsLink (shown keys.now.keys) }
        requires key { IsSome (at (shown keys.now.keys) key) }
        requires ring { is_ring (at (shown keys.now.keys) ring) ≡ true }
        ensures closes { IfOk result (λ b. b ≡ closes (shown keys.now.keys) key ring) }
        ensures reached { IfOk result (λ b. IsTrue b ↔ ClosesCycle (links_of_key_at (shown keys.now.keys)) key ring) }
    {
        let mut seen = self.take(&self.rings);
        let found = walk_to(keys, key, ring, &mut seen);
        self.rings.set(seen);
        found
    }
}

/// A walk from the key, with an empty list for what it has seen.
fn walk_to(keys: &KeyTable, key: Serial, ring: Serial, seen: &mut Visits) -> Result<bool, NoRoom>
    requires fit { AreFit keys.now.keys }
    requires only { OnlyRingsLink (shown keys.now.keys) }
    requires key { IsSome (at (shown keys.now.keys) key) }
    requires ring { is_ring (at (shown keys.now.keys) ring) ≡ true }
    requires seen { seen.old ≡ [] }
    ensures closes { IfOk result (λ b. b ≡ closes (shown keys.now.keys) key ring) }
    ensures reached { IfOk result (λ b. IsTrue b ↔ ClosesCycle (links_of_key_at (shown keys.now.keys)) key ring) }
{
    seen.join(&[key])?;
    let mut place = 0usize;
    'walk: while place < seen.len() {
        let here = seen.at(place);
        if here == ring {
            return Ok(true);
        }
        seen.join(rings_of(keys, here))?;
        place += 1;
    }
    Ok(false)
}

/// The same from the key down, with no list of what was seen, so that it may come to a keyring more than once. It
/// takes no memory.
fn descend_to(keys: &KeyTable, key: Serial, ring: Serial) -> bool
    requires fit { AreFit keys.now.keys }
    requires only { OnlyRingsLink (shown keys.now.keys) }
    requires key { IsSome (at (shown keys.now.keys) key) }
    requires ring { is_ring (at (shown keys.now.keys) ring) ≡ true }
    ensures closes { result ≡ closes (shown keys.now.keys) key ring }
    ensures reached { IsTrue result ↔ ClosesCycle (links_of_key_at (shown keys.now.keys)) key ring }
{
    is_nested_within(keys, key, ring, keys.len())
}

/// Whether a keyring is in the first levels of nested keyrings from a key, of which the key is the first.
fn is_nested_within(keys: &KeyTable, key: Serial, ring: Serial, depth: usize) -> bool
    requires { AreFit keys.now.keys }
    ensures { result ≡ is_nested_within (shown keys.now.keys) ring depth key }
{
    if depth == 0 {
        return false;
    }
    if key == ring {
        return true;
    }
    let rings = rings_of(keys, key);
    for nested in rings {
        if is_nested_within(keys, *nested, ring, depth - 1) {
            return true;
        }
    }
    false
}
