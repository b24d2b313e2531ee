//! Which watched keys a sweep drops.
ghost use Rattle.std.specs.Prelude.{◌≡◌, ◌≤◌, false, IfNone, IfSome, true, ℕ};
ghost use Rattle.krs_hold.specs.Told.{lists};

use std::collections::BTreeSet;

/// A watched key is among those that go. Where there is no memory to list it, any key may be from now on.
pub(crate) fn tell(told: &mut Option<BTreeSet<u32>>, serial: u32)
    ensures itself { lists told.new serial ≡ true }
    ensures more { (k : ℕ) → lists told.old k ≡ true → lists told.new k ≡ true }
{
    let is_listed = match told {
        Some(serials) => serials.insert(serial).is_ok(),
        None => true,
    };
    if !is_listed {
        *told = None;
    }
}

/// The first key from a serial on that may be among those that went.
pub fn first_told(told: &Option<BTreeSet<u32>>, from: u32) -> Option<u32>
    ensures rises { IfSome result (λ key. from ≤ key) }
    ensures first { IfSome result (λ key. (k : ℕ) → from ≤ k → lists told.now k ≡ true → key ≤ k) }
    ensures none { IfNone result ((k : ℕ) → from ≤ k → lists told.now k ≡ false) }
{
    match told {
        Some(serials) => match serials.range(from..).next() {
            Some(key) => Some(*key),
            None => None,
        },
        None => Some(from),
    }
}
