//! What is watched, by key and by queue.
ghost use Rattle.std.specs.Prelude.{[], ◌<◌, ◌==◌, ◌≡◌, filter, IfNone, IfSome, IsSome, length, None, not, OnErr, OnOk};
ghost use Rattle.std.specs.{Prelude.{slice_get, Some, ℕ}, List.Sorted.IsStrictlySortedBy, Map.keys_of};
ghost use Rattle.krs_model.specs.Queues.{place_cmp, watch_at, with_watch, without_watch};
ghost use Rattle.krs_hold.specs.Told.{tells};
ghost use Rattle.krs_watch.specs.Watched.{AreDue, gone_watches};

use crate::memory::Minded;
use crate::posting::Place;
use krs_hold::first_told;
use krs_keys::KeySet;
use krs_types::Serial;
use std::alloc::{AllocError, Global};
use std::collections::{BTreeMap, BTreeSet};
use std::marker::Model;

/// The watches by key, then queue; and where they are once more, by queue, then key. So what is asked of one queue
/// looks at no other's watches.
#[derive(Drop)]
pub(crate) struct Watches {
    by_key: BTreeMap<Place, u8>,
    by_queue: BTreeSet<(u32, u32)>,
}

impl Model for Watches {
    ghost use Rattle.std.specs.Prelude.{List};
    ghost use Rattle.krs_model.specs.Queues.{Watch};

    ghost Value = { List Watch };

    ghost use Rattle.krs_watch.specs.Watched.{AreListedInside};

    ghost view = { λ w. w.by_key.entries };

    ghost invariant = { AreListedInside };
}

impl Watches {
    /// None. It takes no memory.
    pub(crate) fn new(alloc: Global) -> Self
        ensures { result ≡ [] }
    {
        Watches {
            by_key: BTreeMap::new(alloc),
            by_queue: BTreeSet::new(alloc),
        }
    }

    /// The watches by key, then queue.
    pub(crate) fn all(&self) -> &BTreeMap<Place, u8>
        ensures { result.now.entries ≡ self.now }
    {
        &self.by_key
    }

    /// A new watch. A refusal leaves it nowhere.
    pub(crate) fn insert(
        &mut self,
        key: u32,
        number: u32,
        id: u8,
        _minded: Minded,
    ) -> Result<(), AllocError>
        requires { watch_at self.old key number ≡ None }
        ensures ok { OnOk result (self.new ≡ with_watch self.old key number id) }
        ensures err { OnErr result (self.new ≡ self.old) }
    {
        self.by_queue.insert((number, key))?;
        if self.by_key.insert((key, number), id).is_err() {
            self.by_queue.remove(&(number, key));
            return Err(AllocError);
        }
        Ok(())
    }

    /// The end of a watch, whose id is answered.
    pub(crate) fn remove(&mut self, key: u32, number: u32) -> Option<u8>
        ensures id { result ≡ watch_at self.old key number }
        ensures watches { self.new ≡ without_watch self.old key number }
        ensures unchanged { IfNone result (self.new ≡ self.old) }
        ensures fewer { IfSome result (λ id. length self.new < length self.old) }
    {
        self.by_queue.remove(&(number, key));
        self.by_key.remove(&(key, number))
    }

    /// The first key that a queue watches.
    fn first_of(&self, number: u32) -> Option<u32>
        ensures there { IfSome result (λ key. IsSome (watch_at self.now key number)) }
        ensures none { IfNone result (filter (λ w. not (w.0.1 == number)) self.now ≡ self.now) }
    {
        let Some((queue, key)) = self.by_queue.range((number, 0)..).next() else {
            return None;
        };
        if *queue != number {
            return None;
        }
        Some(*key)
    }

    /// The end of all watches of a queue.
    pub(crate) fn end_all_of(&mut self, number: u32)
        ensures { self.new ≡ filter (λ w. not (w.0.1 == number)) self.old }
    {
        'ending: while let Some(key) = self.first_of(number) {
            let _ = self.remove(key, number);
        }
    }
}

/// The first watch of a key that is not there, with its id. Keys before one, and those that are not told, are known to
/// be there.
pub(crate) fn first_gone<K: KeySet>(
    watches: &BTreeMap<Place, u8>,
    told: &Option<BTreeSet<u32>>,
    mut from: u32,
    keys: &K,
) -> Option<(Place, u8)>
    requires { AreDue (K.has keys.now) (tells told.now) from watches.now.entries }
    ensures first { IfSome result
        (λ w. slice_get (gone_watches (K.has keys.now) watches.now.entries) 0 ≡ Some w) }
    ensures none { IfNone result (gone_watches (K.has keys.now) watches.now.entries ≡ []) }
    ensures rises { IsStrictlySortedBy place_cmp (keys_of watches.now.entries) }
{
    'looking: while let Some(key) = first_told(told, from) {
        let Some((place, id)) = watches.range((key, 0)..).next() else {
            return None;
        };
        if !keys.has(Serial::new(place.0)) {
            return Some((*place, *id));
        }
        let Some(next) = place.0.checked_add(1) else {
            return None;
        };
        from = next;
    }
    let _ = watches.len();
    None
}
