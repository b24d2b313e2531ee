ghost use Rattle.std.specs.Prelude.{[], ◌∷◌, ◌≡◌, ◌≤◌, codes, IfOk, IsOk, length, None, Ok, Some};
ghost use Rattle.krs_types.specs.Caller.{caller_check};
ghost use Rattle.krs_model.specs.{Asks.Hello.hello, Outcome.Leads, Table.at};
ghost use Rattle.krs_tables.specs.Making.{named_uid_key, uid_key, uid_name};

use krs_keys::{Content, Key};
use krs_links::{HashedName, Links};
use krs_tables::{Tables, check_room, hold_of, hold_twice, make_room};
use krs_types::{Answer, Blob, Caller, Desc, Errno, Fault, Kind, Name, Perm, Serial, UidRings};
use std::alloc::{AllocError, Global};

/// The last serial under which a uid's two keyrings can begin: profile, serials run out.
const LAST_OF_TWO: u32 = 2_147_483_646;

/// The name of a uid's keyring, by its beginning.
fn uid_name(alloc: Global, prefix: &str, uid: u32) -> Result<Name, AllocError>
    requires { length prefix.now ≤ 9 }
    ensures { IfOk result (λ name. name ≡ uid_name prefix.now uid) }
{
    let desc = format!(in alloc; "{prefix}{uid}")?;
    Ok(Name {
        kind: Kind::Keyring,
        desc: Desc::new(Blob::new(desc.into_bytes())),
    })
}

/// A keyring of a uid.
fn uid_key(name: HashedName, links: Links, caller: &Caller) -> Key
    ensures { result ≡ named_uid_key name links caller.now }
{
    Key {
        name,
        uid: caller.uid,
        gid: caller.gid,
        perm: Perm::OF_UID,
        expiry: None,
        revoked: false,
        joined: false,
        closed: false,
        content: Content::Links(links),
    }
}

/// The user keyring of a uid, and its user-session keyring, which links the first under this serial.
fn uid_keys(tables: &Tables, caller: &Caller, first: Serial) -> Result<(Key, Key), AllocError>
    ensures user { IfOk result (λ keys. keys.0 ≡ uid_key (codes "_uid.") [] caller.now) }
    ensures session { IfOk result (λ keys. keys.1
        ≡ uid_key (codes "_uid_ses.") ((keys.0.name, first) ∷ []) caller.now) }
{
    let name = tables.hashed(uid_name(tables.alloc, "_uid.", caller.uid)?);
    let session_name = tables.hashed(uid_name(tables.alloc, "_uid_ses.", caller.uid)?);
    let mut links = tables.no_links();
    if links.put_hashed(name.copy(tables.alloc)?, first).is_err() {
        return Err(AllocError);
    }
    let user = uid_key(name, tables.no_links(), caller);
    Ok((user, uid_key(session_name, links, caller)))
}

/// A new context of the client, in a process of its own.
#[tactic(auto, unfolding(krs_model::specs::Asks::Hello::hello))]
pub fn hello(tables: &mut Tables, client: u32, caller: Caller) -> Result<Answer, Fault>
    ensures { Leads tables.old result tables.new (hello tables.old client caller) }
{
    caller.check()?;
    match tables.contexts.rings(caller.uid) {
        Some(rings) => hello_known(tables, client, caller, rings),
        None => hello_first(tables, client, caller),
    }
}

/// One more context, of a uid that has its keyrings.
fn hello_known(
    tables: &mut Tables,
    client: u32,
    caller: Caller,
    rings: UidRings,
) -> Result<Answer, Fault>
    requires known { caller_check caller ≡ Ok tt }
    requires rings { at tables.old.uids caller.uid ≡ Some rings }
    ensures { Leads tables.old result tables.new (hello tables.old client caller) }
{
    tables.contexts.can_enter(client)?;
    tables.check_memory()?;
    check_room(&tables.holders, &rings.session)?;
    let number = tables.contexts.hello(client, caller, None)?;
    hold_of(&mut tables.holders, &rings.session);
    Ok(Answer::Number(number))
}

/// The first context of a uid, where serials are left for the uid's keyrings.
fn hello_first(tables: &mut Tables, client: u32, caller: Caller) -> Result<Answer, Fault>
    requires known { caller_check caller ≡ Ok tt }
    requires absent { at tables.old.uids caller.uid ≡ None }
    ensures { Leads tables.old result tables.new (hello tables.old client caller) }
{
    tables.contexts.can_enter(client)?;
    let first = tables.keys.next();
    if first > LAST_OF_TWO {
        return Err(Fault::Refused(Errno::ENOSPC));
    }
    let (user, session) = uid_keys(tables, &caller, Serial::new(first))?;
    open_first(tables, client, caller, user, session)
}

/// The first context of a uid, with these keyrings of it. A refusal leaves nothing of them.
fn open_first(
    tables: &mut Tables,
    client: u32,
    caller: Caller,
    user: Key,
    session: Key,
) -> Result<Answer, Fault>
    requires accepted { IsOk (hello tables.old client caller) }
    requires known { caller_check caller ≡ Ok tt }
    requires absent { at tables.old.uids caller.uid ≡ None }
    requires context { at tables.old.contexts tables.old.next_context ≡ None }
    requires process { at tables.old.processes tables.old.next_context ≡ None }
    requires serials { tables.old.next_serial ≤ 2147483646 }
    requires user { user ≡ uid_key (codes "_uid.") [] caller }
    requires session { session
        ≡ uid_key (codes "_uid_ses.") ((user.name, tables.old.next_serial) ∷ []) caller }
    ensures { Leads tables.old result tables.new (hello tables.old client caller) }
{
    tables.make_walk_room(2)?;
    let first = tables.keys.next();
    let (one, two) = (Serial::new(first), Serial::new(first + 1));
    make_room(&mut tables.holders, one)?;
    make_room(&mut tables.holders, two)?;
    let uid = caller.uid;
    let rings = UidRings {
        user: Some(one),
        session: Some(two),
    };
    let number = tables.contexts.hello(client, caller, Some(rings))?;
    match tables.keys.insert_two(user, session) {
        Ok(_) => {
            hold_twice(&mut tables.holders, one);
            hold_twice(&mut tables.holders, two);
            Ok(Answer::Number(number))
        }
        Err(_) => {
            tables.contexts.take_back(number, uid);
            Err(Fault::Memory)
        }
    }
}
