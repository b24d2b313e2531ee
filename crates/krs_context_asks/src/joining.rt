ghost use Rattle.std.specs.Prelude.{◌-◌, ◌<◌, ◌^◌, ◌≡◌, ◌≢◌, ◌≤◌, Err, IfOk, IfSome, IsSome, length, Ok, OnOk};
ghost use Rattle.std.specs.Prelude.{option_map, Some};
ghost use Rattle.krs_types.specs.declared.{ask.Answer.TheVariants.Number, fault.Fault.TheVariants.Memory};
ghost use Rattle.krs_model.specs.{Asks.Joining.{join, joinable, joined_to, session_named}, Outcome.Leads, Table.at};
ghost use Rattle.krs_keys.specs.Keys.{seen};
ghost use Rattle.krs_tables.specs.Holding.{holders_in};
ghost use Rattle.krs_context_asks.specs.Joined.{IsEmptyRing, joined_anew, joined_ring, session_in, session_key};

use krs_keys::{Content, Key};
use krs_tables::{Tables, check_room, make_room};
use krs_types::{Answer, Blob, Caller, Desc, Errno, Fault, Kind, Name, Perm, Serial};
use std::alloc::AllocError;

/// Whether JOIN takes this name: none, or a description that a keyring may have. EINVAL of its length and bytes,
/// EPERM where it begins with a dot. keyctl(2), KEYCTL_JOIN_SESSION_KEYRING; profile, limits.
fn check_session_name(name: &[u8]) -> Result<(), Errno>
    ensures value { result ≡ session_named name.now }
    ensures bound { OnOk result (length name.now ≤ 4095) }
{
    if name.is_empty() {
        return Ok(());
    }
    Kind::Keyring.check(name, b"")
}

/// An empty keyring of this description and mask, which JOIN makes.
fn joined_ring(tables: &Tables, desc: Blob, perm: Perm, caller: &Caller) -> Key
    requires { length desc ≤ 4095 }
    ensures { result ≡ joined_ring desc perm caller.now }
{
    Key {
        name: tables.hashed(Name {
            kind: Kind::Keyring,
            desc: Desc::new(desc),
        }),
        uid: caller.uid,
        gid: caller.gid,
        perm,
        expiry: None,
        revoked: false,
        joined: true,
        closed: false,
        content: Content::Links(tables.no_links()),
    }
}

/// A new session keyring: `_ses`, or one of this name. Profile, masks of new keys.
fn session_key(tables: &Tables, name: Blob, caller: &Caller) -> Result<Key, AllocError>
    requires { length name ≤ 4095 }
    ensures { IfOk result (λ key. key ≡ session_key name caller.now) }
{
    if name.as_slice().is_empty() {
        let desc = Blob::from_slice(tables.alloc, b"_ses")?;
        return Ok(joined_ring(tables, desc, Perm::OF_SESSION, caller));
    }
    Ok(joined_ring(tables, name, Perm::OF_NAMED_SESSION, caller))
}

/// Another session keyring: keyctl(2), KEYCTL_JOIN_SESSION_KEYRING; session-keyring(7).
#[tactic(auto, unfolding(krs_model::specs::Asks::Joining::join))]
pub fn join(tables: &mut Tables, client: u32, number: u32, name: Blob) -> Result<Answer, Fault>
    ensures { Leads tables.old result tables.new (join tables.old client number name) }
{
    let context = tables.context_of(client, number)?;
    check_session_name(name.as_slice())?;
    let left = context.session;
    match joinable(tables, &context.caller, name.as_slice()) {
        Some(ring) => join_found(tables, number, left, ring),
        None => {
            tables.check_serial()?;
            let key = session_key(tables, name, &context.caller)?;
            join_new(tables, number, left, key)
        }
    }
}

/// The keyring that a caller joins by a name, where there is one.
fn joinable(tables: &Tables, caller: &Caller, name: &[u8]) -> Option<Serial>
    ensures serial { result ≡ option_map (λ e. e.0) (joinable tables.now caller.now name.now) }
    ensures there { IfSome result (λ ring. IsSome (at tables.now.keys ring)) }
{
    if name.is_empty() {
        return None;
    }
    tables.keys.joinable(name, caller, tables.clock)
}

/// A keyring that is there becomes the session keyring of a context, which lets go of the one that it had. It takes no
/// memory: what may be lacking is room in the keyring's count of holders.
fn join_found(
    tables: &mut Tables,
    number: u32,
    left: Option<Serial>,
    ring: Serial,
) -> Result<Answer, Fault>
    requires own { session_in tables.old number ≡ Some left }
    requires there { IsSome (at tables.old.keys ring) }
    ensures step { Leads tables.old result tables.new (Ok (joined_to tables.old number ring, Number ring)) }
    ensures room { holders_in tables.old ring < 2 ^ 64 - 1 → result ≢ Err Memory }
{
    check_room(&tables.holders, &Some(ring))?;
    tables.contexts.attach_session(number, ring);
    tables.holders.hold(ring);
    tables.holders.let_go_of(left);
    Ok(Answer::Number(ring.number()))
}

/// A new keyring becomes the session keyring of a context, where a serial is left.
fn join_new(
    tables: &mut Tables,
    number: u32,
    left: Option<Serial>,
    key: Key,
) -> Result<Answer, Fault>
    requires serial { tables.old.next_serial ≤ 2147483647 }
    requires own { session_in tables.old number ≡ Some left }
    requires empty { IsEmptyRing key }
    ensures { Leads tables.old result tables.new (joined_anew tables.old number (seen key)) }
{
    tables.make_walk_room(1)?;
    make_room(&mut tables.holders, Serial::new(tables.keys.next()))?;
    match tables.keys.insert(key) {
        Ok(ring) => {
            tables.contexts.attach_session(number, ring);
            tables.holders.hold(ring);
            tables.holders.let_go_of(left);
            Ok(Answer::Number(ring.number()))
        }
        Err(_) => Err(Fault::Memory),
    }
}
