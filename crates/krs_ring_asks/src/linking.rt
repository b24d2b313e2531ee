ghost use Rattle.std.specs.Prelude.{◌-◌, ◌<◌, ◌^◌, ◌≡◌, ◌≢◌, Err, IfOk, IfSome, IsOk, IsSome, None, Ok, OnErr, OnOk};
ghost use Rattle.std.specs.Prelude.{Some};
ghost use Rattle.krs_types.specs.declared.{errno.Errno.TheVariants.EPERM, fault.Fault.TheVariants.Memory};
ghost use Rattle.krs_model.specs.Asks.{Adding.IsKeyringAt, Changing.changed};
ghost use Rattle.krs_model.specs.{Asks.Linked.{clear, link, nestable, unless, unlink}, Linking.{linking, ring_links}};
ghost use Rattle.krs_model.specs.{Lookup.context_of, Outcome.{Is, Leads}, Sound.IsSound, Table.at};
ghost use Rattle.krs_links.specs.Links.{serials};
ghost use Rattle.krs_keys.specs.Keys.{seen};
ghost use Rattle.krs_tables.specs.Holding.{holders_in};
ghost use Rattle.krs_tables.specs.{Linked.{displaced_in, name_in, Puts, room_in, Takes}, Specials.{is_coming, Makes}};

use krs_keys::{Change, Content, Key};
use krs_links::{HashedName, Links};
use krs_tables::{Special, Tables, check_room};
use krs_types::{Answer, Errno, Fault, KeyId, Rights, Serial, Want};
use std::alloc::AllocError;

/// One link less in a keyring; the key's state and rights do not matter: keyctl(2), KEYCTL_UNLINK.
#[tactic(auto, unfolding(krs_model::specs::Asks::Linked::unlink))]
pub fn unlink(
    tables: &mut Tables,
    client: u32,
    context: u32,
    key: i32,
    ring: i32,
) -> Result<Answer, Fault>
    ensures step { Leads tables.old result tables.new (unlink tables.old client context key ring) }
    ensures memory { result ≢ Err Memory }
{
    let context = tables.context_of(client, context)?;
    let (ring, from) = tables.look_up(context, ring, Want::Granted(Rights::WRITE))?;
    let serial = tables.serial_of(context, key)?;
    let _there = tables.key(serial).ok_or(Errno::ENOKEY)?;
    links_of(from)?;
    take_link(tables, Serial::new(ring), serial)?;
    Ok(Answer::Nothing)
}

/// All links of a keyring out: keyctl(2), KEYCTL_CLEAR.
#[tactic(auto, unfolding(krs_model::specs::Asks::Linked::clear))]
pub fn clear(tables: &mut Tables, client: u32, context: u32, id: i32) -> Result<Answer, Fault>
    ensures step { Leads tables.old result tables.new (clear tables.old client context id) }
    ensures memory { result ≢ Err Memory }
{
    let context = tables.context_of(client, context)?;
    let (serial, key) = tables.look_up(context, id, Want::Granted(Rights::WRITE))?;
    links_of(key)?;
    tables.change(Serial::new(serial), Change::Cleared);
    Ok(Answer::Nothing)
}

/// One more link in a keyring, which is made where it is wanted: keyctl(2), KEYCTL_LINK.
#[tactic(auto, unfolding(krs_model::specs::Asks::Linked::link))]
pub fn link(
    tables: &mut Tables,
    client: u32,
    number: u32,
    key: i32,
    ring: i32,
) -> Result<Answer, Fault>
    requires sound { IsSound tables.old }
    ensures { Leads tables.old result tables.new (link tables.old client number key ring) }
{
    let context = tables.context_of(client, number)?;
    match tables.wanted(number, context, ring) {
        Some(special) => link_to_new(tables, client, number, special, key, ring),
        None => link_to(tables, client, number, key, ring),
    }
}

/// One more link in a keyring that is there.
#[tactic(auto, unfolding(krs_model::specs::Asks::Linked::link))]
fn link_to(
    tables: &mut Tables,
    client: u32,
    number: u32,
    key: i32,
    ring: i32,
) -> Result<Answer, Fault>
    requires there { IfOk (context_of tables.old client number) (λ c. Makes None tables.old number c ring) }
    ensures { Leads tables.old result tables.new (link tables.old client number key ring) }
{
    let context = tables.context_of(client, number)?;
    let (ring, into) = tables.look_up(context, ring, Want::Granted(Rights::WRITE))?;
    let (serial, found) = tables.look_up(context, key, Want::Granted(Rights::LINK))?;
    links_of(into)?;
    check_open(into)?;
    check_nesting(tables, Serial::new(ring), Serial::new(serial), found)?;
    put_link(tables, Serial::new(ring), Serial::new(serial))?;
    Ok(Answer::Nothing)
}

/// A link in a keyring that is made for it: EDEADLK where the key is that keyring.
#[tactic(auto, unfolding(krs_model::specs::Asks::Linked::link))]
fn link_to_new(
    tables: &mut Tables,
    client: u32,
    number: u32,
    special: Special,
    key: i32,
    ring: i32,
) -> Result<Answer, Fault>
    requires sound { IsSound tables.old }
    requires makes { IfOk (context_of tables.old client number) (λ c. Makes (Some special) tables.old number c ring) }
    ensures { Leads tables.old result tables.new (link tables.old client number key ring) }
{
    let context = tables.context_of(client, number)?;
    if is_coming(tables, special, key) {
        return Err(Fault::Refused(Errno::EDEADLK));
    }
    let (serial, _) = tables.look_up(context, key, Want::Granted(Rights::LINK))?;
    tables.make_linking(
        client,
        number,
        special,
        Serial::new(serial),
        Answer::Nothing,
    )
}

/// Whether the id stands for the keyring that is made: it is its own, or the serial that it gets.
fn is_coming(tables: &Tables, special: Special, id: i32) -> bool
    ensures { result ≡ is_coming special tables.now.next_serial id }
{
    let Ok(named) = KeyId::from_i32(id) else {
        return false;
    };
    match named {
        KeyId::Serial(serial) => serial.number() == tables.keys.next(),
        KeyId::Thread => special == Special::Thread,
        KeyId::Process => special == Special::Process,
        KeyId::Session | KeyId::User | KeyId::UserSession => false,
    }
}

/// A keyring that is not closed takes further links: EPERM.
pub(crate) fn check_open(ring: &Key) -> Result<(), Errno>
    ensures { Is (λ done. done) result (unless (seen ring.now).closed EPERM) }
{
    if ring.closed {
        return Err(Errno::EPERM);
    }
    Ok(())
}

/// Whether a link from the keyring to the key closes a cycle, or nests a keyring too deep: EDEADLK, ELOOP. A link to a
/// payload does neither.
#[tactic(auto, unfolding(krs_model::specs::Asks::Linked::nestable))]
pub(crate) fn check_nesting(
    tables: &Tables,
    ring: Serial,
    serial: Serial,
    found: &Key,
) -> Result<(), Errno>
    requires ring { IsKeyringAt tables.now ring }
    requires key { at tables.now.keys serial ≡ Some (seen found.now) }
    ensures { Is (λ done. done) result (nestable tables.now.keys ring serial) }
{
    if let Content::Payload(_) = &found.content {
        return Ok(());
    }
    if tables.walker.would_cycle(&tables.keys, serial, ring) {
        return Err(Errno::EDEADLK);
    }
    let _height = tables.walker.height_of(&tables.keys, serial)?;
    Ok(())
}

/// A link to a key in a keyring, under the key's name, in the place of that which it displaces, else last: ENFILE. It
/// asks for memory only where the keyring has room.
pub(crate) fn put_link(tables: &mut Tables, ring: Serial, serial: Serial) -> Result<(), Fault>
    requires there { IsSome (at tables.old.keys serial) }
    requires ring { IsKeyringAt tables.old ring }
    ensures { IfSome (name_in tables.old serial) (λ name. Puts tables.old result tables.new ring name serial) }
{
    let Some(key) = tables.key(serial) else {
        return Err(Fault::Refused(Errno::ENOKEY));
    };
    check_full(tables, ring, &key.name)?;
    tables.check_memory()?;
    let name = key.name.copy(tables.alloc)?;
    put_named(tables, ring, name, serial)?;
    Ok(())
}

/// A keyring takes a link under this name: ENFILE where it is full, and no link is displaced. It takes no memory.
fn check_full(tables: &Tables, ring: Serial, name: &HashedName) -> Result<(), Errno>
    ensures { Is (λ done. done) result (room_in tables.now.keys ring name.now) }
{
    if tables.keys.would_refuse(ring, name) {
        return Err(Errno::ENFILE);
    }
    Ok(())
}

/// A link in a keyring that has room for it. Out of memory, nothing has changed. It takes none where it
/// displaces a link; then all that may be lacking is room in the key's count of holders.
fn put_named(
    tables: &mut Tables,
    ring: Serial,
    name: HashedName,
    serial: Serial,
) -> Result<(), AllocError>
    requires named { name_in tables.old serial ≡ Some name }
    requires ring { IsKeyringAt tables.old ring }
    requires room { room_in tables.old.keys ring name ≡ Ok tt }
    ensures ok { OnOk result (tables.new ≡ changed tables.old ring (linking tables.old.keys name serial)) }
    ensures in_place { holders_in tables.old serial < 2 ^ 64 - 1
        → IsSome (displaced_in tables.old.keys ring name) → IsOk result }
    ensures err { OnErr result (tables.new ≡ tables.old) }
{
    check_room(&tables.holders, &Some(serial))?;
    match tables.keys.link(ring, name, serial) {
        Ok(displaced) => {
            tables.holders.hold(serial);
            tables.holders.let_go_of(displaced);
            Ok(())
        }
        Err(_) => Err(AllocError),
    }
}

/// The link to a key out of a keyring, where it is there. It takes no memory.
pub(crate) fn take_link(tables: &mut Tables, ring: Serial, serial: Serial) -> Result<(), Errno>
    ensures { Takes tables.old result tables.new ring serial }
{
    if !tables.keys.unlink(ring, serial) {
        return Err(Errno::ENOENT);
    }
    tables.holders.let_go(serial);
    Ok(())
}

/// The links of a keyring: ENOTDIR where it is none.
pub(crate) fn links_of(key: &Key) -> Result<&Links, Errno>
    ensures { Is (λ links. serials links.now) result (ring_links (seen key.now).content) }
{
    match &key.content {
        Content::Payload(_) => Err(Errno::ENOTDIR),
        Content::Links(links) => Ok(links),
    }
}
