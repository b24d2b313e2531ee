ghost use Rattle.std.specs.Prelude.{◌≡◌, IfOk, IsErrOf, Some, true};
ghost use Rattle.krs_types.specs.Growth.{has_destination};
ghost use Rattle.krs_model.specs.Asks.Adding.{IsKeyringAt};
ghost use Rattle.krs_model.specs.Asks.Finding.{found_alone, request, search_from, sought_from, sought_name};
ghost use Rattle.krs_model.specs.Lookup.{context_of};
ghost use Rattle.krs_model.specs.{Outcome.{Is, Leads}, Search.{found, requested}, Sound.IsSound, Table.at};
ghost use Rattle.krs_keys.specs.Keys.{seen};
ghost use Rattle.krs_tables.specs.Specials.{IsMissing};
ghost use Rattle.krs_ring_asks.specs.Beside.{beside, found_before, found_made};
ghost use Rattle.krs_ring_asks.specs.Found.{found_below, link_found, linkable, request_named, search_named};

use crate::linking::{check_nesting, check_open, links_of, put_link};
use krs_keys::Key;
use krs_links::HashedName;
use krs_tables::{Special, Tables};
use krs_types::{
    Answer, Blob, Context, Desc, Errno, Fault, Name, Rights, Serial, TypeName, Want,
    check_description,
};

/// What is looked for: EINVAL, EPERM and ENODEV of the type's name, EINVAL of the description. Profile, search names.
#[tactic(auto, unfolding(krs_model::specs::Asks::Finding::sought_name))]
fn sought_name(tables: &Tables, type_name: TypeName, desc: Blob) -> Result<HashedName, Errno>
    ensures { Is (λ name. name) result (sought_name type_name desc) }
{
    let kind = type_name.kind()?;
    check_description(desc.as_slice())?;
    Ok(tables.hashed(Name {
        kind,
        desc: Desc::new(desc),
    }))
}

/// The name that is looked for, or its refusal.
fn found_name(name: &Result<HashedName, Errno>) -> Result<&HashedName, Errno>
    ensures { Is (λ name. name.now) result name.now }
{
    match name {
        Ok(name) => Ok(name),
        Err(errno) => Err(*errno),
    }
}

/// A key of that type and description, from a keyring on, and a link to it in a destination other than 0, which
/// is made where it is wanted: keyctl(2), KEYCTL_SEARCH.
pub fn search(
    tables: &mut Tables,
    client: u32,
    number: u32,
    head: i32,
    type_name: TypeName,
    desc: Blob,
    dest: i32,
) -> Result<Answer, Fault>
    requires sound { IsSound tables.old }
    ensures step { Leads tables.old result tables.new
        (search_from tables.old client number head type_name desc dest) }
    ensures memory { IsErrOf result Fault.Memory → has_destination dest ≡ true }
{
    let name = sought_name(tables, type_name, desc);
    search_named(tables, client, number, head, &name, dest)
}

/// The same for a name, or its refusal, which is lent, so that no return lets it go.
#[tactic(auto, unfolding(crate::specs::Found::search_named))]
fn search_named(
    tables: &mut Tables,
    client: u32,
    number: u32,
    head: i32,
    name: &Result<HashedName, Errno>,
    dest: i32,
) -> Result<Answer, Fault>
    requires sound { IsSound tables.old }
    ensures step { Leads tables.old result tables.new
        (search_named tables.old client number head name.now dest) }
    ensures memory { IsErrOf result Fault.Memory → has_destination dest ≡ true }
{
    let context = tables.context_of(client, number)?;
    let name = found_name(name)?;
    let (head, from) = tables.look_up(context, head, Want::Granted(Rights::SEARCH))?;
    if dest == 0 {
        return Ok(find_from(tables, context, head, from, name)?);
    }
    if let Some(special) = tables.wanted(number, context, dest) {
        let serial = find_in(tables, context, head, from, name)?;
        return link_found_new(tables, client, number, special, serial);
    }
    let (into, ring) = tables.look_up(context, dest, Want::Granted(Rights::WRITE))?;
    links_of(from)?;
    links_of(ring)?;
    let serial = find(tables, context, head, name)?;
    link_found(tables, client, number, into, serial)
}

/// A key of that type and description, from the attached keyrings on, and a link to it in a destination other
/// than 0, which is made where it is wanted: request_key(2).
pub fn request(
    tables: &mut Tables,
    client: u32,
    number: u32,
    type_name: TypeName,
    desc: Blob,
    dest: i32,
) -> Result<Answer, Fault>
    requires sound { IsSound tables.old }
    ensures step { Leads tables.old result tables.new (request tables.old client number type_name desc dest) }
    ensures memory { IsErrOf result Fault.Memory → has_destination dest ≡ true }
{
    let name = sought_name(tables, type_name, desc);
    request_named(tables, client, number, &name, dest)
}

/// The same for a name, or its refusal, which is lent.
#[tactic(auto, unfolding(crate::specs::Found::request_named))]
fn request_named(
    tables: &mut Tables,
    client: u32,
    number: u32,
    name: &Result<HashedName, Errno>,
    dest: i32,
) -> Result<Answer, Fault>
    requires sound { IsSound tables.old }
    ensures step { Leads tables.old result tables.new
        (request_named tables.old client number name.now dest) }
    ensures memory { IsErrOf result Fault.Memory → has_destination dest ≡ true }
{
    let context = tables.context_of(client, number)?;
    let name = found_name(name)?;
    if dest == 0 {
        return Ok(request_alone(tables, context, name)?);
    }
    if let Some(special) = tables.wanted(number, context, dest) {
        let serial = find_beside(tables, context, special, name)?;
        return link_found_new(tables, client, number, special, serial);
    }
    let (into, ring) = tables.look_up(context, dest, Want::Granted(Rights::WRITE))?;
    links_of(ring)?;
    let serial = find_attached(tables, context, name)?;
    link_found(tables, client, number, into, serial)
}

/// What a request finds where this keyring is made for its destination; where that is the keyring itself,
/// EDEADLK.
fn find_beside(
    tables: &Tables,
    context: &Context,
    special: Special,
    name: &HashedName,
) -> Result<Serial, Errno>
    ensures { Is (λ k. k) result (beside special tables.now context.now name.now) }
{
    if !special.is_of_name(name.as_name()) {
        return find_attached(tables, context, name);
    }
    match find_before(tables, context, special, name) {
        Ok(serial) => Ok(serial),
        Err(_) => Err(Errno::EDEADLK),
    }
}

/// What a request finds before it comes to this keyring: a process keyring comes behind the thread keyring.
fn find_before(
    tables: &Tables,
    context: &Context,
    special: Special,
    name: &HashedName,
) -> Result<Serial, Errno>
    ensures { Is (λ k. k) result (found_before special tables.now context.now name.now) }
{
    match (special, context.thread) {
        (Special::Process, Some(thread)) => find(tables, context, thread.number(), name),
        _ => Err(Errno::ENOKEY),
    }
}

/// A link to a key that was found, in a keyring that is made for it: EACCES where it does not grant LINK, ELOOP.
fn link_found_new(
    tables: &mut Tables,
    client: u32,
    number: u32,
    special: Special,
    serial: Serial,
) -> Result<Answer, Fault>
    requires sound { IsSound tables.old }
    requires missing { IfOk (context_of tables.old client number) (IsMissing special tables.old) }
    ensures { Leads tables.old result tables.new (found_made special tables.old client number serial) }
{
    let context = tables.context_of(client, number)?;
    linkable(tables, context, serial)?;
    tables.make_linking(
        client,
        number,
        special,
        serial,
        Answer::Number(serial.number()),
    )
}

/// A link in a keyring to a key that was found: EACCES where it does not grant LINK, EPERM, EDEADLK, ELOOP, ENFILE.
fn link_found(
    tables: &mut Tables,
    client: u32,
    number: u32,
    into: u32,
    serial: Serial,
) -> Result<Answer, Fault>
    requires ring { IsKeyringAt tables.old into }
    ensures { Leads tables.old result tables.new (link_found tables.old client number into serial) }
{
    let context = tables.context_of(client, number)?;
    let found = linkable(tables, context, serial)?;
    let into = Serial::new(into);
    let ring = tables.key(into).ok_or(Errno::ENOKEY)?;
    check_open(ring)?;
    check_nesting(tables, into, serial, found)?;
    put_link(tables, into, serial)?;
    Ok(Answer::Number(serial.number()))
}

/// The key at a serial, where it grants LINK: EACCES.
fn linkable<'a>(tables: &'a Tables, context: &Context, serial: Serial) -> Result<&'a Key, Errno>
    ensures key { Is (λ key. seen key.now) result (linkable tables.now context.now serial) }
    ensures there { IfOk result (λ key. at tables.now.keys serial ≡ Some (seen key.now)) }
{
    let key = tables.key(serial).ok_or(Errno::ENOKEY)?;
    if !tables.grants(context, serial, key, Want::Granted(Rights::LINK)) {
        return Err(Errno::EACCES);
    }
    Ok(key)
}

/// The key of a name that a search from a head finds.
fn find(tables: &Tables, context: &Context, head: u32, name: &HashedName) -> Result<Serial, Errno>
    ensures { Is (λ k. k) result (found tables.now context.now head name.now) }
{
    let ring = tables.process_ring(context.process);
    let head = Serial::new(head);
    tables
        .walker
        .search(&tables.keys, context, ring, tables.clock, head, name)
}

/// The key of a name that a search from a keyring finds: ENOTDIR where the head is none.
fn find_in(
    tables: &Tables,
    context: &Context,
    head: u32,
    key: &Key,
    name: &HashedName,
) -> Result<Serial, Errno>
    ensures { Is (λ k. k) result (found_below tables.now context.now (head, seen key.now) name.now) }
{
    links_of(key)?;
    find(tables, context, head, name)
}

/// The key of a name that a request finds.
fn find_attached(tables: &Tables, context: &Context, name: &HashedName) -> Result<Serial, Errno>
    ensures { Is (λ k. k) result (requested tables.now context.now name.now) }
{
    let ring = tables.process_ring(context.process);
    tables
        .walker
        .request(&tables.keys, context, ring, tables.clock, name)
}

/// A search that links nothing.
fn find_from(
    tables: &Tables,
    context: &Context,
    head: u32,
    from: &Key,
    name: &HashedName,
) -> Result<Answer, Errno>
    ensures { Is (λ answer. (tables.now, answer)) result
        (sought_from tables.now context.now (head, seen from.now) name.now) }
{
    let serial = find_in(tables, context, head, from, name)?;
    Ok(Answer::Number(serial.number()))
}

/// A request that links nothing.
fn request_alone(tables: &Tables, context: &Context, name: &HashedName) -> Result<Answer, Errno>
    ensures { Is (λ answer. (tables.now, answer)) result
        (found_alone tables.now (requested tables.now context.now name.now)) }
{
    let serial = find_attached(tables, context, name)?;
    Ok(Answer::Number(serial.number()))
}
