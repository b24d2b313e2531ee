ghost use Rattle.std.specs.Prelude.{◌||◌, ◌≡◌, ◌≤◌, IfOk, length, OnErr, OnOk};
ghost use Rattle.krs_model.specs.Asks.Adding.{add, admitted, by_match, if_room, IsKeyringAt, made, new_key, place_of};
ghost use Rattle.krs_model.specs.{Outcome.{Is, Leads}, Sound.IsSound};
ghost use Rattle.krs_links.specs.Links.{serials};
ghost use Rattle.krs_keys.specs.Keys.{seen};
ghost use Rattle.krs_tables.specs.Making.{adding_in};
ghost use Rattle.krs_key_asks.specs.Places.{HasSerial, meant};

use krs_keys::{Change, Content, Key, LAST_SERIAL};
use krs_links::{HashedName, Links};
use krs_tables::Tables;
use krs_types::{
    Answer, Blob, Body, Context, Desc, Errno, Fault, Kind, Name, Perm, Rights, Serial, TypeName,
    Want,
};
use std::alloc::AllocError;

/// Where an added key goes.
enum Place {
    /// It is the new payload of this key.
    Update(Serial),
    /// It is a new key, which this keyring links.
    Make(Serial),
}

/// What is asked for is a key that may be made: its kind.
#[tactic(auto, unfolding(krs_model::specs::Asks::Adding::admitted))]
fn admitted(type_name: &TypeName, desc: &[u8], payload: &[u8]) -> Result<Kind, Errno>
    ensures name { Is (λ k. record { kind = k; desc = desc.now }) result
        (admitted type_name.now desc.now payload.now) }
    ensures desc { OnOk result (length desc.now ≤ 4095) }
    ensures payload { OnOk result (length payload.now ≤ 32767) }
{
    let kind = type_name.kind()?;
    kind.check(desc, payload)?;
    Ok(kind)
}

/// A new key in this keyring, where it is not closed and has room, and a serial is left.
fn if_room(
    tables: &Tables,
    ring: Serial,
    into: &Key,
    links: &Links,
    displaced: Option<Serial>,
) -> Result<Place, Errno>
    ensures place { Is meant result
        (if_room tables.now (ring, seen into.now) (serials links.now) displaced) }
    ensures serial { IfOk result (HasSerial tables.now.next_serial) }
{
    if into.closed {
        return Err(Errno::EPERM);
    }
    if displaced.is_none() && links.is_full() {
        return Err(Errno::ENFILE);
    }
    if tables.keys.next() > LAST_SERIAL {
        return Err(Errno::ENOSPC);
    }
    Ok(Place::Make(ring))
}

/// A match that is alive is updated, where it grants WRITE; any other is displaced.
fn by_match(
    tables: &Tables,
    context: &Context,
    ring: Serial,
    into: &Key,
    links: &Links,
    found: Option<Serial>,
) -> Result<Place, Errno>
    ensures place { Is meant result
        (by_match tables.now context.now (ring, seen into.now) (serials links.now) found) }
    ensures serial { IfOk result (HasSerial tables.now.next_serial) }
{
    let Some(serial) = found else {
        return if_room(tables, ring, into, links, None);
    };
    let Some(key) = tables.key(serial) else {
        return if_room(tables, ring, into, links, None);
    };
    if !key.is_alive(tables.clock) || !key.name.kind().is_updatable() {
        return if_room(tables, ring, into, links, Some(serial));
    }
    if !tables.grants(context, serial, key, Want::Granted(Rights::WRITE)) {
        return Err(Errno::EACCES);
    }
    Ok(Place::Update(serial))
}

/// Where a key of this name goes in a keyring that may be written.
#[tactic(auto, unfolding(krs_model::specs::Asks::Adding::place_of))]
fn place_of(
    tables: &Tables,
    context: &Context,
    name: &HashedName,
    ring: i32,
) -> Result<Place, Errno>
    ensures place { Is meant result (place_of tables.now context.now name.now ring) }
    ensures serial { IfOk result (HasSerial tables.now.next_serial) }
{
    let (ring, key) = tables.look_up(context, ring, Want::Granted(Rights::WRITE))?;
    match &key.content {
        Content::Payload(_) => Err(Errno::ENOTDIR),
        Content::Links(links) => {
            by_match(
                tables,
                context,
                Serial::new(ring),
                key,
                links,
                links.find_hashed(name),
            )
        }
    }
}

/// A new key that a keyring links, under the next serial.
fn make(
    tables: &mut Tables,
    ring: Serial,
    name: HashedName,
    payload: Body,
    uid: u32,
    gid: u32,
) -> Result<Serial, AllocError>
    requires serial { tables.old.next_serial ≤ 2147483647 }
    requires ring { IsKeyringAt tables.old ring }
    ensures serial { IfOk result (λ n. n ≡ tables.old.next_serial) }
    ensures ok { OnOk result (tables.new ≡ made tables.old ring name (new_key name payload uid gid)) }
    ensures err { OnErr result (tables.new ≡ tables.old) }
{
    tables.make_room_for(name.kind())?;
    let serial = Serial::new(tables.keys.next());
    let link = name.copy(tables.alloc)?;
    let key = tables.new_key(name, payload, uid, gid);
    let Ok(()) = tables.holders.made_held(serial) else {
        return Err(AllocError);
    };
    match tables.keys.insert_linked(ring, link, key) {
        Ok(displaced) => {
            tables.holders.let_go_of(displaced);
            Ok(serial)
        }
        Err(_) => {
            tables.holders.let_go(serial);
            Err(AllocError)
        }
    }
}

/// A new key in a keyring, which is made where it is wanted, or a new payload for the key that stands there:
/// add_key(2).
#[tactic(auto, unfolding(krs_model::specs::Asks::Adding::add))]
pub fn add(
    tables: &mut Tables,
    client: u32,
    number: u32,
    type_name: TypeName,
    desc: Blob,
    payload: Blob,
    ring: i32,
) -> Result<Answer, Fault>
    requires sound { IsSound tables.old }
    ensures { Leads tables.old result tables.new (add tables.old client number type_name desc payload ring) }
{
    let context = tables.context_of(client, number)?;
    let kind = admitted(&type_name, desc.as_slice(), payload.as_slice())?;
    let name = tables.hashed(Name {
        kind,
        desc: Desc::new(desc),
    });
    let payload = Body::new(payload.into_vec());
    match tables.wanted(number, context, ring) {
        Some(special) => tables.make_adding(client, number, special, name, payload),
        None => add_in(tables, client, number, name, payload, ring),
    }
}

/// A key of this name and payload in a keyring that is there.
fn add_in(
    tables: &mut Tables,
    client: u32,
    number: u32,
    name: HashedName,
    payload: Body,
    ring: i32,
) -> Result<Answer, Fault>
    ensures { Leads tables.old result tables.new (adding_in tables.old client number name payload ring) }
{
    let context = tables.context_of(client, number)?;
    match place_of(tables, context, &name, ring)? {
        Place::Update(serial) => {
            tables.check_memory()?;
            tables.change(serial, Change::Payload(payload));
            Ok(Answer::Number(serial.number()))
        }
        Place::Make(ring) => {
            let (uid, gid) = (context.caller.uid, context.caller.gid);
            let serial = make(tables, ring, name, payload, uid, gid)?;
            Ok(Answer::Number(serial.number()))
        }
    }
}
