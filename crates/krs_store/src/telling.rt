ghost use Rattle.std.specs.{Prelude.{◌≡◌, flat_map, option_map, option_to_list}, Result.result_ok};
ghost use Rattle.krs_types.specs.Growth.{has_destination};
ghost use Rattle.krs_types.specs.declared.{ask.Answer.Answer, note.KeyEvent.TheVariants.{Linked, Unlinked}};
ghost use Rattle.krs_model.specs.Notes.Posting.{posted_in, posts_of};
ghost use Rattle.krs_model.specs.Notes.Telling.{about, about_found, about_link, about_moved, is_one_ring, named};
ghost use Rattle.krs_model.specs.{Outcome.Is, Queues.queues_of, Sound.IsSound};
ghost use Rattle.krs_store.specs.Telling.{Foretells, linked_note, meant_note, number_of, only, posts_told};
ghost use Rattle.krs_store.specs.Telling.{Says, told_by, told_of};
ghost use Rattle.krs_store.specs.declared.telling.Telling.TheVariants.{OfAdded, Quiet};

use krs_tables::Tables;
use krs_types::{Answer, Errno, KeyEvent, Op, Serial};

/// What happened to a key, and the other key of a link, else 0: uapi linux/watch_queue.h, struct key_notification.
#[derive(Clone, Copy, Debug, PartialEq, Eq)]
pub(crate) struct KeyNote {
    event: KeyEvent,
    key: Serial,
    aux: u32,
}

/// The note of an ask, as far as it is known before the ask is served: uapi linux/watch_queue.h, enum
/// key_notification_subtype.
#[derive(Clone, Copy, Debug, PartialEq, Eq)]
pub(crate) enum Telling {
    /// None.
    Quiet,
    /// This happens to a key.
    OfKey(KeyEvent, Serial),
    /// This happens to a keyring, by its link to a key.
    OfLink(KeyEvent, Serial, Serial),
    /// This keyring links what is found.
    OfFound(Serial),
    /// A key of a serial below `next` is updated. Another one is new, and linked by this keyring, where it is there.
    OfAdded { ring: Option<Serial>, next: u32 },
}

/// The notes of an ask, in order: no ask tells more than two.
#[derive(Clone, Copy, Debug, PartialEq, Eq)]
pub(crate) struct Tellings {
    first: Telling,
    second: Telling,
}

impl KeyNote {
    /// A keyring links a key.
    fn linked(ring: Serial, key: u32) -> KeyNote
        ensures { meant_note result ≡ linked_note ring key }
    {
        KeyNote {
            event: KeyEvent::Linked,
            key: ring,
            aux: key,
        }
    }
}

impl Telling {
    /// The note, where there is one, once the ask has its answer.
    fn note(self, answer: &Answer) -> Option<KeyNote>
        ensures { option_map meant_note result ≡ told_of self answer.now }
    {
        match self {
            Telling::Quiet => None,
            Telling::OfKey(event, key) => Some(KeyNote { event, key, aux: 0 }),
            Telling::OfLink(event, ring, key) => Some(KeyNote {
                event,
                key: ring,
                aux: key.number(),
            }),
            Telling::OfFound(ring) => {
                let key = number_of(answer)?;
                Some(KeyNote::linked(ring, key))
            }
            Telling::OfAdded { ring, next } => {
                let key = number_of(answer)?;
                if key < next {
                    return Some(KeyNote {
                        event: KeyEvent::Updated,
                        key: Serial::new(key),
                        aux: 0,
                    });
                }
                let ring = ring?;
                Some(KeyNote::linked(ring, key))
            }
        }
    }
}

impl Tellings {
    /// No note.
    fn none() -> Tellings
        ensures { result ≡ only Quiet }
    {
        Tellings::one(Telling::Quiet)
    }

    /// One note at most.
    fn one(telling: Telling) -> Tellings
        ensures { result ≡ only telling }
    {
        Tellings {
            first: telling,
            second: Telling::Quiet,
        }
    }
}

/// The number that an ask is answered with.
fn number_of(answer: &Answer) -> Option<u32>
    ensures { result ≡ number_of answer.now }
{
    match answer {
        Answer::Number(number) => Some(*number),
        Answer::Nothing | Answer::Bytes(_) => None,
    }
}

/// What an ask tells of, if it is accepted.
pub(crate) fn foretell(tables: &Tables, client: u32, context: u32, op: &Op) -> Tellings
    requires sound { IsSound tables.now }
    ensures { Foretells result tables.now client context op.now }
{
    match op {
        Op::Update { id, .. } => about(tables, client, context, KeyEvent::Updated, *id),
        Op::Revoke { id } => about(tables, client, context, KeyEvent::Revoked, *id),
        Op::Invalidate { id } => about(tables, client, context, KeyEvent::Invalidated, *id),
        Op::Clear { id } => about(tables, client, context, KeyEvent::Cleared, *id),
        Op::Chown { id, .. } => about(tables, client, context, KeyEvent::Setattr, *id),
        Op::SetPerm { id, .. } => about(tables, client, context, KeyEvent::Setattr, *id),
        Op::SetTimeout { id, .. } => about(tables, client, context, KeyEvent::Setattr, *id),
        Op::Link { key, ring } => about_link(
            tables,
            client,
            context,
            KeyEvent::Linked,
            *ring,
            *key,
        ),
        Op::Unlink { key, ring } => {
            about_link(tables, client, context, KeyEvent::Unlinked, *ring, *key)
        }
        Op::Move { key, from, to, .. } => about_moved(tables, client, context, *key, *from, *to),
        Op::Search { dest, .. } => about_found(tables, client, context, *dest),
        Op::Request { dest, .. } => about_found(tables, client, context, *dest),
        Op::Add { ring, .. } => about_added(tables, client, context, *ring),
        _ => Tellings::none(),
    }
}

/// The notes of an accepted ask go out, one after the other.
pub(crate) fn tell(tables: &mut Tables, tellings: Tellings, answer: &Answer)
    ensures { tables.new
        ≡ posted_in (flat_map (posts_of (queues_of tables.old)) (told_by tellings answer.now)) tables.old }
{
    post(tables, tellings.first.note(answer));
    post(tables, tellings.second.note(answer));
}

/// A note, where there is one, goes to those that watch its key and let it pass.
fn post(tables: &mut Tables, note: Option<KeyNote>)
    ensures { tables.new ≡ posted_in (posts_told (queues_of tables.old) (option_map meant_note note)) tables.old }
{
    match note {
        Some(note) => tables.queues.post_all(note.event, note.key, note.aux),
        None => {}
    }
}

/// The serial that an id stands for in a context.
#[tactic(auto, unfolding(krs_model::specs::Notes::Telling::named))]
fn named(tables: &Tables, client: u32, number: u32, id: i32) -> Result<Serial, Errno>
    ensures { Is (λ n. n) result (named tables.now client number id) }
{
    let context = tables.context_of(client, number)?;
    tables.serial_of(context, id)
}

/// This happens to the key that an id stands for.
fn about(tables: &Tables, client: u32, number: u32, event: KeyEvent, id: i32) -> Tellings
    ensures { Says result (λ answer. about event (named tables.now client number id)) }
{
    match named(tables, client, number, id) {
        Ok(key) => Tellings::one(Telling::OfKey(event, key)),
        Err(_) => Tellings::none(),
    }
}

/// This happens to the keyring that an id stands for, by its link to a key.
fn about_link(
    tables: &Tables,
    client: u32,
    number: u32,
    event: KeyEvent,
    ring: i32,
    key: i32,
) -> Tellings
    ensures { Says result (λ answer.
        about_link event (named tables.now client number ring) (named tables.now client number key)) }
{
    match (
        named(tables, client, number, ring),
        named(tables, client, number, key),
    ) {
        (Ok(ring), Ok(key)) => Tellings::one(Telling::OfLink(event, ring, key)),
        _ => Tellings::none(),
    }
}

/// A key goes out of a keyring and into another; nothing happens where both are one. A keyring that is made for it has
/// no watch yet.
fn about_moved(tables: &Tables, client: u32, number: u32, key: i32, from: i32, to: i32) -> Tellings
    ensures { Says result (λ answer. about_moved (named tables.now client number from)
        (named tables.now client number to) (named tables.now client number key)) }
{
    let from = named(tables, client, number, from);
    let to = named(tables, client, number, to);
    let key = named(tables, client, number, key);
    if is_one_ring(&from, &to) {
        return Tellings::none();
    }
    Tellings {
        first: link_telling(KeyEvent::Unlinked, &from, &key),
        second: link_telling(KeyEvent::Linked, &to, &key),
    }
}

/// Whether two ids stand for one keyring.
fn is_one_ring(from: &Result<Serial, Errno>, to: &Result<Serial, Errno>) -> bool
    ensures { result ≡ is_one_ring from.now to.now }
{
    match (from, to) {
        (Ok(from), Ok(to)) => from.number() == to.number(),
        _ => false,
    }
}

/// This happens to a keyring by its link to a key, where both are there.
fn link_telling(
    event: KeyEvent,
    ring: &Result<Serial, Errno>,
    key: &Result<Serial, Errno>,
) -> Telling
    ensures { (answer : Answer) → option_to_list (told_of result answer) ≡ about_link event ring.now key.now }
{
    match (ring, key) {
        (Ok(ring), Ok(key)) => Telling::OfLink(event, *ring, *key),
        _ => Telling::Quiet,
    }
}

/// The destination that an id stands for links what is found, where one is wanted.
fn about_found(tables: &Tables, client: u32, number: u32, dest: i32) -> Tellings
    ensures { Says result (about_found (has_destination dest) (named tables.now client number dest)) }
{
    if dest == 0 {
        return Tellings::none();
    }
    match named(tables, client, number, dest) {
        Ok(ring) => Tellings::one(Telling::OfFound(ring)),
        Err(_) => Tellings::none(),
    }
}

/// The keyring that an id stands for links a new key, or a key that is there is updated. A keyring that is made
/// with the key has no watch yet.
fn about_added(tables: &Tables, client: u32, number: u32, ring: i32) -> Tellings
    ensures { result ≡ only (OfAdded (result_ok (named tables.now client number ring)) tables.now.next_serial) }
{
    Tellings::one(Telling::OfAdded {
        ring: named(tables, client, number, ring).ok(),
        next: tables.keys.next(),
    })
}
