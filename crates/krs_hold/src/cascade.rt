//! What goes once nothing holds it, key after key: without a list, without recursion.
ghost use Rattle.std.specs.Prelude.{◌&&◌, ◌<◌, ◌≡◌, List, None, not, Some, true, ℕ};
ghost use Rattle.krs_model.specs.{Sweep.links_of_key, Table.{at, without}};
ghost use Rattle.krs_keys.specs.{Hashed.by_serial, Kept.{KeepsAll, KeepsAnchored}, Keys.shown};
ghost use Rattle.krs_hold.specs.{Chain.{gone_all, IsChained, numbers_of, Spares, total_weight}, Tally.AreExact};
ghost use Rattle.krs_hold.specs.Told.{lists, tells};

use crate::counts::{Count, forget, holders, let_go_links, rest};
use crate::told::tell;
use krs_keys::{KeySet, KeyTable};
use krs_types::Serial;
use std::alloc::Global;
use std::collections::{BTreeSet, HashMap};

/// Drops a key and its count, and lets go of what it linked. The first of the chain is answered.
#[tactic(auto, using(krs_model::proofs::Tables::Changes::at_map))]
fn drop_key(
    keys: &mut KeyTable,
    counts: &mut HashMap<u32, Count>,
    first: Option<u32>,
    serial: u32,
) -> Option<u32>
    ensures keys { keys.new ≡ record keys.old { keys = without keys.old.keys serial } }
    ensures gone { at keys.new.keys serial ≡ None }
    ensures no_count { at (without (by_serial counts.old.entries) serial) serial ≡ None }
    ensures counts { gone_all (record { counts = without (by_serial counts.old.entries) serial; first = first })
        (links_of_key (at (shown keys.old.keys) serial))
        ≡ record { counts = by_serial counts.new.entries; first = result } }
{
    forget(counts, serial);
    match keys.remove(Serial::new(serial)) {
        Some(key) => let_go_links(counts, first, &key.content),
        None => first,
    }
}

/// Takes the first out of the chain, and drops its key where nothing holds it. The first of the
/// chain is answered. It tells of a watched key.
fn look<W: KeySet>(
    keys: &mut KeyTable,
    counts: &mut HashMap<u32, Count>,
    serial: u32,
    watched: &W,
    told: &mut Option<BTreeSet<u32>>,
) -> Option<u32>
    requires { IsChained (by_serial counts.old.entries) (Some serial) }
    ensures chained { IsChained (by_serial counts.new.entries) result }
    ensures less { total_weight (by_serial counts.new.entries) < total_weight (by_serial counts.old.entries) }
    ensures exact { (attached : List ℕ)
        → AreExact keys.old.keys (numbers_of (by_serial counts.old.entries)) attached
        → AreExact keys.new.keys (numbers_of (by_serial counts.new.entries)) attached }
    ensures spared { (attached : List ℕ)
        → AreExact keys.old.keys (numbers_of (by_serial counts.old.entries)) attached
        → Spares attached keys.old.keys keys.new.keys }
    ensures watched { KeepsAll (λ k. W.has watched.now k && not (tells told.new k)) keys.old.keys keys.new.keys }
    ensures more { (k : ℕ) → lists told.old k ≡ true → lists told.new k ≡ true }
    ensures next { keys.new.next ≡ keys.old.next }
{
    let next = rest(counts, serial);
    if holders(counts, serial) > 0 {
        return next;
    }
    if watched.has(Serial::new(serial)) {
        tell(told, serial);
    }
    drop_key(keys, counts, next, serial)
}

/// Drops each key that nothing holds, and then those that only dropped keys held. Answers which watched ones are
/// among them.
pub(crate) fn sweep<W: KeySet>(
    alloc: Global,
    keys: &mut KeyTable,
    counts: &mut HashMap<u32, Count>,
    mut first: Option<u32>,
    watched: &W,
) -> Option<BTreeSet<u32>>
    requires { IsChained (by_serial counts.old.entries) first }
    ensures chained { IsChained (by_serial counts.new.entries) None }
    ensures exact { (attached : List ℕ)
        → AreExact keys.old.keys (numbers_of (by_serial counts.old.entries)) attached
        → AreExact keys.new.keys (numbers_of (by_serial counts.new.entries)) attached }
    ensures anchored { (attached : List ℕ)
        → AreExact keys.old.keys (numbers_of (by_serial counts.old.entries)) attached
        → KeepsAnchored attached keys.old.keys keys.new.keys }
    ensures watched { KeepsAll (λ k. W.has watched.now k && not (tells result k)) keys.old.keys keys.new.keys }
    ensures next { keys.new.next ≡ keys.old.next }
{
    let mut told = Some(BTreeSet::new(alloc));
    'dropping: while let Some(serial) = first {
        first = look(keys, counts, serial, watched, &mut told);
    }
    let _ = keys.len();
    told
}
