ghost use Rattle.std.specs.Prelude.{◌||◌, ◌≡◌, ◌≢◌, Err};
ghost use Rattle.krs_types.specs.declared.fault.Fault.TheVariants.{Memory};
ghost use Rattle.krs_model.specs.Asks.Changing.{chown, expiry_after, if_may_own, if_owner, revoke, set_perm};
ghost use Rattle.krs_model.specs.{Asks.Changing.{set_timeout, updatable, update}, Outcome.{Is, Leads}};
ghost use Rattle.krs_keys.specs.Keys.{seen};

use krs_keys::{Change, Key};
use krs_tables::Tables;
use krs_types::{
    Answer, Blob, Body, Caller, Errno, Fault, Kind, Perm, Rights, Serial, UNCHANGED, Want,
};

/// Another payload for a key: keyctl(2), KEYCTL_UPDATE.
#[tactic(auto, unfolding(krs_model::specs::Asks::Changing::update))]
pub fn update(
    tables: &mut Tables,
    client: u32,
    context: u32,
    id: i32,
    payload: Blob,
) -> Result<Answer, Fault>
    ensures { Leads tables.old result tables.new (update tables.old client context id payload) }
{
    let context = tables.context_of(client, context)?;
    let (serial, key) = tables.look_up(context, id, Want::Granted(Rights::WRITE))?;
    let kind = updatable(key.name.kind())?;
    kind.check_payload(payload.as_slice())?;
    tables.check_memory()?;
    let payload = Body::new(payload.into_vec());
    tables.change(Serial::new(serial), Change::Payload(payload));
    Ok(Answer::Nothing)
}

/// Another permission mask for a key: keyctl(2), KEYCTL_SETPERM.
#[tactic(auto, unfolding(krs_model::specs::Asks::Changing::set_perm))]
pub fn set_perm(
    tables: &mut Tables,
    client: u32,
    context: u32,
    id: i32,
    mask: u32,
) -> Result<Answer, Fault>
    ensures step { Leads tables.old result tables.new (set_perm tables.old client context id mask) }
    ensures memory { result ≢ Err Memory }
{
    let context = tables.context_of(client, context)?;
    let (serial, key) = tables.look_up(context, id, Want::Granted(Rights::SETATTR))?;
    let perm = Perm::from_u32(mask)?;
    check_owner(&context.caller, key)?;
    tables.change(Serial::new(serial), Change::Mask(perm));
    Ok(Answer::Nothing)
}

/// Another owner and group for a key: keyctl(2), KEYCTL_CHOWN.
#[tactic(auto, unfolding(krs_model::specs::Asks::Changing::chown))]
pub fn chown(
    tables: &mut Tables,
    client: u32,
    context: u32,
    id: i32,
    uid: u32,
    gid: u32,
) -> Result<Answer, Fault>
    ensures step { Leads tables.old result tables.new (chown tables.old client context id uid gid) }
    ensures memory { result ≢ Err Memory }
{
    let context = tables.context_of(client, context)?;
    let (serial, key) = tables.look_up(context, id, Want::Granted(Rights::SETATTR))?;
    check_chown(&context.caller, uid, gid, key)?;
    tables.change(Serial::new(serial), Change::Owner { uid, gid });
    Ok(Answer::Nothing)
}

/// When the time of a key is over, in seconds from now: keyctl(2), KEYCTL_SET_TIMEOUT.
#[tactic(auto, unfolding(krs_model::specs::Asks::Changing::set_timeout))]
pub fn set_timeout(
    tables: &mut Tables,
    client: u32,
    context: u32,
    id: i32,
    seconds: u32,
) -> Result<Answer, Fault>
    ensures step { Leads tables.old result tables.new (set_timeout tables.old client context id seconds) }
    ensures memory { result ≢ Err Memory }
{
    let context = tables.context_of(client, context)?;
    let (serial, _) = tables.look_up(context, id, Want::Granted(Rights::SETATTR))?;
    let expiry = expiry_after(tables.clock, seconds);
    tables.change(Serial::new(serial), Change::Expiry(expiry));
    Ok(Answer::Nothing)
}

/// The end of a key, which stays where it is linked: keyctl(2), KEYCTL_REVOKE.
#[tactic(auto, unfolding(krs_model::specs::Asks::Changing::revoke))]
pub fn revoke(tables: &mut Tables, client: u32, context: u32, id: i32) -> Result<Answer, Fault>
    ensures step { Leads tables.old result tables.new (revoke tables.old client context id) }
    ensures memory { result ≢ Err Memory }
{
    let context = tables.context_of(client, context)?;
    let want = Want::Either(Rights::WRITE, Rights::SETATTR);
    let (serial, _) = tables.look_up(context, id, want)?;
    tables.change(Serial::new(serial), Change::Revoked);
    Ok(Answer::Nothing)
}

/// EOPNOTSUPP for a keyring.
fn updatable(kind: Kind) -> Result<Kind, Errno>
    ensures { result ≡ updatable kind }
{
    if kind.is_updatable() {
        return Ok(kind);
    }
    Err(Errno::EOPNOTSUPP)
}

/// Whether the caller may set the mask: EACCES.
fn check_owner(caller: &Caller, key: &Key) -> Result<(), Errno>
    ensures { Is (λ _. seen key.now) result (if_owner caller.now (seen key.now)) }
{
    if caller.uid == 0 || caller.uid == key.uid {
        return Ok(());
    }
    Err(Errno::EACCES)
}

/// Whether the caller may give the key to this uid and gid: EACCES.
fn check_chown(caller: &Caller, uid: u32, gid: u32, key: &Key) -> Result<(), Errno>
    ensures { Is (λ _. seen key.now) result (if_may_own caller.now uid gid (seen key.now)) }
{
    let same_uid = uid == UNCHANGED || uid == key.uid;
    let own_gid = gid == UNCHANGED || gid == key.gid || caller.is_of_group(gid);
    if caller.uid == 0 || (same_uid && own_gid) {
        return Ok(());
    }
    Err(Errno::EACCES)
}

/// When the time is over that begins at this moment: none for 0 seconds, else at most `u64::MAX`.
/// Profile, far timeouts.
fn expiry_after(clock: u64, seconds: u32) -> Option<u64>
    ensures { result ≡ expiry_after clock seconds }
{
    if seconds == 0 {
        return None;
    }
    Some(clock.saturating_add(u64::from(seconds)))
}
