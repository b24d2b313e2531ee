ghost use Rattle.std.specs.Prelude.{[], ◌<◌, ◌≡◌, false, flat_map, IfErr, IfOk, OnOk};
ghost use Rattle.krs_model.specs.Reach.{has_chain, nested_in, nesting_depth};
ghost use Rattle.krs_keys.specs.Keys.{AreFit, shown};
ghost use Rattle.krs_walk.specs.{Lists.join, Walks.{IsHeight, IsTooDeep}};

use crate::keyrings::rings_of;
use crate::visits::NoRoom;
use crate::{Visits, Walker};
use krs_keys::KeyTable;
use krs_types::{Errno, NESTING_DEPTH, Serial};
use std::mem;

impl Walker {
    /// The most links in a chain of nested keyrings from this key; ELOOP where that is `NESTING_DEPTH` or more.
    /// keyctl(2), KEYCTL_LINK, "ELOOP"; profile, nesting depth.
    pub fn height_of(&self, keys: &KeyTable, key: Serial) -> Result<u32, Errno>
        requires fit { AreFit keys.now.keys }
        ensures height { IfOk result (λ n. IsHeight (shown keys.now.keys) key n) }
        ensures bound { IfOk result (λ n. n < nesting_depth) }
        ensures shallow { OnOk result (has_chain (shown keys.now.keys) key nesting_depth ≡ false) }
        ensures error { IfErr result (λ errno. IsTooDeep (shown keys.now.keys) key errno) }
    {
        if rings_of(keys, key).is_empty() {
            return Ok(0);
        }
        match self.height_by_layers(keys, key) {
            Ok(height) => height,
            Err(NoRoom) => height_by_chains(keys, key),
        }
    }

    /// The same, layer by layer.
    fn height_by_layers(&self, keys: &KeyTable, key: Serial) -> Result<Result<u32, Errno>, NoRoom>
        requires fit { AreFit keys.now.keys }
        ensures height { IfOk result (λ r. IfOk r (λ n. IsHeight (shown keys.now.keys) key n)) }
        ensures bound { IfOk result (λ r. IfOk r (λ n. n < nesting_depth)) }
        ensures shallow { IfOk result (λ r. OnOk r (has_chain (shown keys.now.keys) key nesting_depth ≡ false)) }
        ensures error { IfOk result (λ r. IfErr r (λ errno. IsTooDeep (shown keys.now.keys) key errno)) }
    {
        let mut layer = self.take(&self.rings);
        let mut next = self.take(&self.held);
        let height = height_by_layers(keys, key, &mut layer, &mut next);
        self.rings.set(layer);
        self.held.set(next);
        height
    }
}

/// The height by layers, with an empty list for a layer and another one for the next.
fn height_by_layers(
    keys: &KeyTable,
    key: Serial,
    layer: &mut Visits,
    next: &mut Visits,
) -> Result<Result<u32, Errno>, NoRoom>
    requires fit { AreFit keys.now.keys }
    requires layer { layer.old ≡ [] }
    ensures height { IfOk result (λ r. IfOk r (λ n. IsHeight (shown keys.now.keys) key n)) }
    ensures bound { IfOk result (λ r. IfOk r (λ n. n < nesting_depth)) }
    ensures shallow { IfOk result (λ r. OnOk r (has_chain (shown keys.now.keys) key nesting_depth ≡ false)) }
    ensures error { IfOk result (λ r. IfErr r (λ errno. IsTooDeep (shown keys.now.keys) key errno)) }
{
    layer.join(&[key])?;
    for height in 0..NESTING_DEPTH {
        next_layer(keys, layer, next)?;
        if next.is_empty() {
            return Ok(Ok(height));
        }
        mem::swap(layer, next);
    }
    Ok(Err(Errno::ELOOP))
}

/// The keyrings that those of a layer link, each once.
fn next_layer(keys: &KeyTable, layer: &Visits, next: &mut Visits) -> Result<(), NoRoom>
    requires { AreFit keys.now.keys }
    ensures { OnOk result (next.new ≡ join [] (flat_map (nested_in (shown keys.now.keys)) layer.now)) }
{
    next.clear();
    let rings = layer.as_slice();
    for ring in rings {
        next.join(rings_of(keys, Serial::new(*ring)))?;
    }
    Ok(())
}

/// The same from the key down, with no list of what was seen, so that it may come to a keyring more than once. It
/// takes no memory.
fn height_by_chains(keys: &KeyTable, key: Serial) -> Result<u32, Errno>
    requires fit { AreFit keys.now.keys }
    ensures height { IfOk result (λ n. IsHeight (shown keys.now.keys) key n) }
    ensures bound { IfOk result (λ n. n < nesting_depth) }
    ensures shallow { OnOk result (has_chain (shown keys.now.keys) key nesting_depth ≡ false) }
    ensures error { IfErr result (λ errno. IsTooDeep (shown keys.now.keys) key errno) }
{
    for height in 0..NESTING_DEPTH {
        if !has_chain(keys, key, height + 1) {
            return Ok(height);
        }
    }
    Err(Errno::ELOOP)
}

/// Whether a chain of that many links of nested keyrings hangs down from a key.
fn has_chain(keys: &KeyTable, key: Serial, count: u32) -> bool
    requires { AreFit keys.now.keys }
    ensures { result ≡ has_chain (shown keys.now.keys) key count }
{
    if count == 0 {
        return true;
    }
    let rings = rings_of(keys, key);
    for nested in rings {
        if has_chain(keys, *nested, count - 1) {
            return true;
        }
    }
    false
}
