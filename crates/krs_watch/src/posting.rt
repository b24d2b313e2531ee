ghost use Rattle.std.specs.Prelude.{◌≡◌, false, map};
ghost use Rattle.krs_model.specs.{Notes.{Bytes.is_loss, Posting.{after_note, note_for, watches_at}}, Table.alter};
ghost use Rattle.krs_watch.specs.Offers.{offer_all, offered};

use crate::queue::NoteQueue;
use krs_types::{KeyEvent, Record};
use std::collections::BTreeMap;
use std::collections::btree_map::Range;

/// The key and the queue of a watch.
pub(crate) type Place = (u32, u32);

/// A record comes to a queue, where it is there, whatever its filter.
pub(crate) fn post(queues: &mut BTreeMap<u32, NoteQueue>, number: u32, note: Record)
    requires { is_loss note ≡ false }
    ensures { queues.new.entries ≡ alter queues.old.entries number (after_note note) }
{
    match queues.get_mut(&number) {
        Some(queue) => queue.post(note),
        None => {}
    }
}

/// A record comes to the filter of a queue, where it is there.
fn offer(queues: &mut BTreeMap<u32, NoteQueue>, number: u32, note: Record)
    requires { is_loss note ≡ false }
    ensures { queues.new.entries ≡ alter queues.old.entries number (offered note) }
{
    match queues.get_mut(&number) {
        Some(queue) => queue.offer(note),
        None => {}
    }
}

/// The part of the watches that has all of a key, and where no key is greater no other.
pub(crate) fn around(watches: &BTreeMap<Place, u8>, key: u32) -> Range<'_, Place, u8>
    ensures { watches_at key result ≡ watches_at key watches.now.entries }
{
    match key.checked_add(1) {
        Some(next) => watches.range((key, 0)..(next, 0)),
        None => watches.range((key, 0)..),
    }
}

/// A note comes to all that watch its key and let it pass.
pub(crate) fn post_note(
    queues: &mut BTreeMap<u32, NoteQueue>,
    watches: &BTreeMap<Place, u8>,
    event: KeyEvent,
    key: u32,
    aux: u32,
)
    ensures { queues.new.entries ≡ offer_all
        (map (note_for (record { event = event; key = key; aux = aux })) (watches_at key watches.now.entries))
        queues.old.entries }
{
    for (place, id) in around(watches, key) {
        if place.0 == key {
            offer(
                queues,
                place.1,
                Record::Key {
                    subtype: event,
                    watch: *id,
                    key,
                    aux,
                },
            );
        }
    }
}
