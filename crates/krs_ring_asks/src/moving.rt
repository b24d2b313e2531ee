ghost use Rattle.std.specs.Prelude.{◌&&◌, ◌==◌, ◌≡◌, ◌≢◌, IfOk, IfSome, is_some, IsSome, nat_lt, true};
ghost use Rattle.krs_types.specs.declared.errno.Errno.TheVariants.{EEXIST, EINVAL};
ghost use Rattle.krs_model.specs.Asks.{Adding.IsKeyringAt, Changing.changed, Linked.{if_linked, unless, without_link}};
ghost use Rattle.krs_model.specs.{Asks.Moving.move_link, Levels.is_in, Lookup.context_of, Outcome.{Is, Leads}};
ghost use Rattle.krs_model.specs.{Reach.links_of_key_at, Sound.IsSound, Table.at};
ghost use Rattle.krs_links.specs.Links.{serial_named};
ghost use Rattle.krs_keys.specs.Keys.{named_links_of_content};
ghost use Rattle.krs_tables.specs.{Linked.name_in, Specials.IsMissing};
ghost use Rattle.krs_ring_asks.specs.Moved.{moved_at, moved_new, Moves};

use crate::linking::{check_nesting, check_open, links_of, put_link, take_link};
use krs_keys::{Content, Key};
use krs_links::HashedName;
use krs_tables::{Special, Tables};
use krs_types::{Answer, Errno, Fault, MOVE_EXCL, Rights, Serial, Want};

/// The link that is moved: a key's, out of this keyring.
#[derive(Clone, Copy)]
struct OldLink {
    serial: Serial,
    from: Serial,
}

/// A link out of one keyring and into another, which is made where it is wanted: keyctl(2), KEYCTL_MOVE. Where both are
/// one keyring, nothing changes.
#[tactic(auto, unfolding(krs_model::specs::Asks::Moving::move_link))]
pub fn move_link(
    tables: &mut Tables,
    client: u32,
    number: u32,
    key: i32,
    from: i32,
    to: i32,
    flags: u32,
) -> Result<Answer, Fault>
    requires sound { IsSound tables.old }
    ensures { Leads tables.old result tables.new (move_link tables.old client number key from to flags) }
{
    let context = tables.context_of(client, number)?;
    check_flags(flags)?;
    let (serial, _) = tables.look_up(context, key, Want::Granted(Rights::LINK))?;
    let (first, _) = tables.look_up(context, from, Want::Granted(Rights::WRITE))?;
    let (serial, first) = (Serial::new(serial), Serial::new(first));
    match tables.wanted(number, context, to) {
        Some(special) => move_to_new(tables, client, number, special, serial, first),
        None => {
            let link = OldLink {
                serial,
                from: first,
            };
            move_to(tables, client, number, link, to, flags)
        }
    }
}

/// There is no flag but `MOVE_EXCL`: EINVAL.
fn check_flags(flags: u32) -> Result<(), Errno>
    ensures { Is (λ done. done) result (unless (nat_lt 1 flags) EINVAL) }
{
    if flags > MOVE_EXCL {
        return Err(Errno::EINVAL);
    }
    Ok(())
}

/// The link to a key out of a keyring and into another that is there: ENOTDIR, ENOENT, and what refuses the link.
fn move_to(
    tables: &mut Tables,
    client: u32,
    number: u32,
    link: OldLink,
    to: i32,
    flags: u32,
) -> Result<Answer, Fault>
    requires sound { IsSound tables.old }
    ensures { Leads tables.old result tables.new (moved_at tables.old client number link.serial link.from to flags) }
{
    let OldLink { serial, from } = link;
    let context = tables.context_of(client, number)?;
    let key = tables.key(serial).ok_or(Errno::ENOKEY)?;
    let source = tables.key(from).ok_or(Errno::ENOKEY)?;
    let (into, ring) = tables.look_up(context, to, Want::Granted(Rights::WRITE))?;
    links_of(source)?;
    links_of(ring)?;
    check_linked(tables, from, serial)?;
    if from.number() == into {
        return Ok(Answer::Nothing);
    }
    check_free(ring, &key.name, flags)?;
    check_open(ring)?;
    let into = Serial::new(into);
    check_nesting(tables, into, serial, key)?;
    move_over(tables, from, into, serial)?;
    Ok(Answer::Nothing)
}

/// The link to a key out of a keyring, and into another that takes it, where that has room: ENFILE. The key is held
/// throughout. Out of memory, nothing has changed.
fn move_over(tables: &mut Tables, from: Serial, into: Serial, serial: Serial) -> Result<(), Fault>
    requires there { IsSome (at tables.old.keys serial) }
    requires ring { IsKeyringAt tables.old into }
    requires linked { is_in serial (links_of_key_at tables.old.keys from) ≡ true }
    requires apart { from ≢ into }
    ensures { IfSome (name_in tables.old serial)
        (λ name. Moves tables.old result tables.new from into name serial) }
{
    put_link(tables, into, serial)?;
    drop_link(tables, from, serial);
    Ok(())
}

/// The link to a key out of a keyring, and into one that is made for it.
fn move_to_new(
    tables: &mut Tables,
    client: u32,
    number: u32,
    special: Special,
    serial: Serial,
    from: Serial,
) -> Result<Answer, Fault>
    requires sound { IsSound tables.old }
    requires missing { IfOk (context_of tables.old client number) (IsMissing special tables.old) }
    ensures { Leads tables.old result tables.new (moved_new special tables.old client number serial from) }
{
    let source = tables.key(from).ok_or(Errno::ENOKEY)?;
    links_of(source)?;
    check_linked(tables, from, serial)?;
    let answer = tables.make_linking(client, number, special, serial, Answer::Nothing)?;
    drop_link(tables, from, serial);
    Ok(answer)
}

/// The keyring links the key: ENOENT.
fn check_linked(tables: &Tables, ring: Serial, serial: Serial) -> Result<(), Errno>
    ensures { Is (λ done. serial) result (if_linked serial (links_of_key_at tables.now.keys ring)) }
{
    if !tables.keys.links_key(ring, serial) {
        return Err(Errno::ENOENT);
    }
    Ok(())
}

/// An exclusive move displaces no link of that name: EEXIST.
fn check_free(ring: &Key, name: &HashedName, flags: u32) -> Result<(), Errno>
    ensures { Is (λ done. done) result (unless ((flags == 1)
        && is_some (serial_named (named_links_of_content ring.now.content) name.now)) EEXIST) }
{
    if flags == MOVE_EXCL && has_link_named(ring, name) {
        return Err(Errno::EEXIST);
    }
    Ok(())
}

/// Whether a keyring has a link of that name.
fn has_link_named(ring: &Key, name: &HashedName) -> bool
    ensures { result ≡ is_some (serial_named (named_links_of_content ring.now.content) name.now) }
{
    match &ring.content {
        Content::Payload(_) => false,
        Content::Links(links) => links.find_hashed(name).is_some(),
    }
}

/// The link to a key out of a keyring that links it. It takes no memory.
fn drop_link(tables: &mut Tables, ring: Serial, serial: Serial)
    requires linked { is_in serial (links_of_key_at tables.old.keys ring) ≡ true }
    ensures { tables.new ≡ changed tables.old ring (without_link serial) }
{
    let _ = take_link(tables, ring, serial);
}
