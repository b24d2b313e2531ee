ghost use Rattle.std.specs.{Prelude.{[], ◌==◌, ◌↔◌, ◌≡◌, false, filter, map, not}, List.list_any};
ghost use Rattle.krs_model.specs.Asks.Watching.{closed, filtered, opened, read_out, watched, with_filter};
ghost use Rattle.krs_model.specs.Asks.Watching.{without_client};
ghost use Rattle.krs_model.specs.Notes.Posting.{post_all, posted, posts_of, removal_for};
ghost use Rattle.krs_model.specs.{Queues.{no_queues, queues_without}, Table.{alter, Rises}};
ghost use Rattle.krs_hold.specs.Told.{tells};
ghost use Rattle.krs_watch.specs.Changes.{LeadsAlways, LeadsQueues, OwnsQueue, swept, watch_ended};
ghost use Rattle.krs_watch.specs.{Reads.ReadsAt, Watched.{AreDue, gone_watches, owns}};

use crate::memory::Memory;
use crate::posting::{Place, around, post, post_note};
use crate::queue::NoteQueue;
use crate::watches::{Watches, first_gone};
use krs_keys::KeySet;
use krs_notes::Filter;
use krs_ring::NoteRing;
use krs_types::{Body, Errno, Fault, FilterEntry, KeyEvent, Record, Serial};
use std::alloc::Global;
use std::collections::{BTreeMap, BTreeSet};
use std::marker::Model;

/// How many queues are open at most: profile, queue numbers.
const MAX_QUEUES: usize = 256;

/// The greatest number of a queue: profile, queue numbers.
const MAX_NUMBER: u64 = 4_294_967_295;

/// The queues of a store, and what they watch.
#[derive(Drop)]
pub struct WatchQueues {
    queues: BTreeMap<u32, NoteQueue>,
    watches: Watches,
    next_queue: u64,
    alloc: Global,
}

impl Model for WatchQueues {
    ghost use Rattle.krs_model.specs.Queues.{Queues};

    ghost Value = { Queues };

    ghost use Rattle.krs_watch.specs.View.{AreQueuedInside, queues_of};

    ghost view = { queues_of };

    ghost invariant = { AreQueuedInside };
}

impl WatchQueues {
    pub fn new(alloc: Global) -> Self
        ensures { result ≡ no_queues }
    {
        WatchQueues {
            queues: BTreeMap::new(alloc),
            watches: Watches::new(alloc),
            next_queue: 1,
            alloc,
        }
    }

    /// A new queue of 1 to 4096 records, by its number: EINVAL, ENFILE, ENOSPC, ENOMEM.
    #[tactic(auto, unfolding(krs_model::specs::Asks::Watching::opened))]
    pub fn open_queue(&mut self, memory: &Memory, client: u32, capacity: u32) -> Result<u32, Fault>
        ensures { LeadsQueues self.old result self.new (opened self.old client capacity) }
    {
        if !NoteRing::is_capacity(capacity) {
            return Err(Fault::Refused(Errno::EINVAL));
        }
        if self.queues.len() >= MAX_QUEUES {
            return Err(Fault::Refused(Errno::ENFILE));
        }
        if self.next_queue > MAX_NUMBER {
            return Err(Fault::Refused(Errno::ENOSPC));
        }
        let minded = memory.mind()?;
        let number = self.next_queue as u32;
        let queue = NoteQueue::new(self.alloc, client, capacity, minded)?;
        self.queues.insert(number, queue)?;
        self.next_queue += 1;
        Ok(number)
    }

    /// Another filter for a queue: EBADF, EINVAL.
    #[tactic(auto, unfolding(krs_model::specs::Asks::Watching::filtered))]
    pub fn set_filter(
        &mut self,
        client: u32,
        number: u32,
        entries: Vec<FilterEntry>,
    ) -> Result<(), Errno>
        ensures { LeadsAlways self.old result self.new
            (filtered self.old client number entries.items) }
    {
        check_own(&self.queues, client, number)?;
        let filter = Filter::new(entries)?;
        set_filter_at(&mut self.queues, number, filter);
        Ok(())
    }

    /// A watch of a key, whose records go to a queue: EBADF, EBUSY, ENOMEM.
    #[tactic(auto, unfolding(krs_model::specs::Asks::Watching::watched))]
    pub fn watch(
        &mut self,
        memory: &Memory,
        client: u32,
        number: u32,
        key: Serial,
        id: u8,
    ) -> Result<(), Fault>
        ensures { LeadsQueues self.old result self.new (watched self.old client number key id) }
    {
        check_own(&self.queues, client, number)?;
        let place = (key.number(), number);
        if self.watches.all().contains_key(&place) {
            return Err(Fault::Refused(Errno::EBUSY));
        }
        let minded = memory.mind()?;
        self.watches.insert(key.number(), number, id, minded)?;
        Ok(())
    }

    /// The end of a watch, of which a record goes to its queue: EBADF, EBADSLT.
    #[tactic(auto, unfolding(krs_model::specs::Asks::Watching::unwatched))]
    pub fn unwatch(&mut self, client: u32, number: u32, key: Serial) -> Result<(), Errno>
        ensures { LeadsAlways self.old result self.new (watch_ended self.old client number key) }
    {
        check_own(&self.queues, client, number)?;
        let Some(watch) = self.watches.remove(key.number(), number) else {
            return Err(Errno::EBADSLT);
        };
        let id = u64::from(key.number());
        post(&mut self.queues, number, Record::Removal { watch, id });
        Ok(())
    }

    /// Takes the longest front of records that fits the room, and answers its bytes: EBADF, EAGAIN, ENOBUFS, ENOMEM.
    #[tactic(auto, unfolding(krs_model::specs::Asks::Watching::read_out))]
    pub fn read(&mut self, client: u32, number: u32, room: u32) -> Result<Body, Fault>
        ensures { LeadsQueues self.old result self.new (read_out self.old client number room) }
    {
        check_own(&self.queues, client, number)?;
        read_at(self.alloc, &mut self.queues, number, room as usize)
    }

    /// Closes a queue, whose watches end without records: EBADF.
    #[tactic(auto, unfolding(krs_model::specs::Asks::Watching::closed))]
    pub fn close(&mut self, client: u32, number: u32) -> Result<(), Errno>
        ensures { LeadsAlways self.old result self.new (closed self.old client number) }
    {
        check_own(&self.queues, client, number)?;
        let _ = self.queues.remove(&number);
        self.watches.end_all_of(number);
        Ok(())
    }

    /// Closes all queues of a client, whose watches end without records.
    pub fn leave(&mut self, client: u32)
        ensures { self.new ≡ without_client self.old client }
    {
        end_watches_of(&mut self.watches, &self.queues, client);
        drop_queues(&mut self.queues, client);
    }

    /// Whether any key is watched.
    pub fn has_watches(&self) -> bool
        ensures { (result ≡ false) ↔ (self.now.watches ≡ []) }
    {
        !self.watches.all().is_empty()
    }

    /// Tells all that watch a key and let it pass what happened, with the other key of a link, or 0.
    pub fn post_all(&mut self, event: KeyEvent, key: Serial, aux: u32)
        ensures { self.new ≡ posted
            (posts_of self.old (record { event = event; key = key; aux = aux })) self.old }
    {
        post_note(
            &mut self.queues,
            self.watches.all(),
            event,
            key.number(),
            aux,
        );
    }

    /// The end of the watches of all keys that are gone, of which records go to their queues. Only keys that are told
    /// are looked for.
    pub fn sweep<K: KeySet>(&mut self, keys: &K, told: &Option<BTreeSet<u32>>)
        requires { AreDue (K.has keys.now) (tells told.now) 0 self.old.watches }
        ensures { self.new ≡ swept (K.has keys.now) self.old }
    {
        end_dropped(&mut self.queues, &mut self.watches, keys, told);
    }
}

impl KeySet for WatchQueues {
    ghost has = { λ queues k. list_any (λ w. w.0.0 == k) queues.watches };

    /// Whether a key is watched: a look at its own watches alone.
    fn has(&self, key: Serial) -> bool {
        is_watched(self.watches.all(), key.number())
    }
}

/// Whether a key is watched.
fn is_watched(watches: &BTreeMap<Place, u8>, key: u32) -> bool
    ensures { result ≡ list_any (λ w. w.0.0 == key) watches.now.entries }
{
    for (place, _id) in around(watches, key) {
        if place.0 == key {
            return true;
        }
    }
    false
}

/// The end of the watches of all keys that are not there. A removal record comes to the queue of each.
fn end_dropped<K: KeySet>(
    queues: &mut BTreeMap<u32, NoteQueue>,
    watches: &mut Watches,
    keys: &K,
    told: &Option<BTreeSet<u32>>,
)
    requires { AreDue (K.has keys.now) (tells told.now) 0 watches.old }
    ensures queues { queues.new.entries
        ≡ post_all (map removal_for (gone_watches (K.has keys.now) watches.old)) queues.old.entries }
    ensures watches { watches.new ≡ filter (λ w. K.has keys.now w.0.0) watches.old }
{
    let mut from = 0;
    'ending: while let Some((place, watch)) = first_gone(watches.all(), told, from, keys) {
        let _ = watches.remove(place.0, place.1);
        let id = u64::from(place.0);
        post(queues, place.1, Record::Removal { watch, id });
        from = place.0;
    }
}

/// The queue is the client's: EBADF.
fn check_own(queues: &BTreeMap<u32, NoteQueue>, client: u32, number: u32) -> Result<(), Errno>
    ensures { OwnsQueue queues.now.entries client number result }
{
    match queues.get(&number) {
        Some(queue) if queue.is_of(client) => Ok(()),
        _ => Err(Errno::EBADF),
    }
}

fn set_filter_at(queues: &mut BTreeMap<u32, NoteQueue>, number: u32, filter: Filter)
    ensures { queues.new.entries ≡ alter queues.old.entries number (with_filter filter) }
{
    match queues.get_mut(&number) {
        Some(queue) => queue.set_filter(filter),
        None => {}
    }
}

fn read_at(
    alloc: Global,
    queues: &mut BTreeMap<u32, NoteQueue>,
    number: u32,
    room: usize,
) -> Result<Body, Fault>
    ensures { ReadsAt number room queues.old.entries result queues.new.entries }
{
    match queues.get_mut(&number) {
        Some(queue) => queue.read(alloc, room),
        None => Err(Fault::Refused(Errno::EBADF)),
    }
}

/// The end of the watches of a client's queues.
fn end_watches_of(watches: &mut Watches, queues: &BTreeMap<u32, NoteQueue>, client: u32)
    ensures { watches.new ≡ filter (λ w. not (owns client w.0.1 queues.now.entries)) watches.old }
{
    for (number, queue) in queues {
        if queue.is_of(client) {
            watches.end_all_of(*number);
        }
    }
}

fn drop_queues(queues: &mut BTreeMap<u32, NoteQueue>, client: u32)
    ensures queues { queues.new.entries ≡ queues_without client queues.old.entries }
    ensures rises { Rises queues.old.entries }
{
    queues.retain(|_number, queue| !queue.is_of(client));
}
