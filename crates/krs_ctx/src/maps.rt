ghost use Rattle.std.specs.Prelude.{◌≡◌, false, filter, if◌then◌else◌, None, OnErr, OnOk};
ghost use Rattle.krs_model.specs.Asks.Invalidating.{context_without, detached, rings_without};
ghost use Rattle.krs_model.specs.{Asks.Leaving.{has_process, has_uid}, Table.{alter, at, map_values, put, without}};

use crate::table::ContextTable;
use krs_types::{Caller, Context, Serial, UidRings};
use std::alloc::AllocError;
use std::collections::BTreeMap;

pub(crate) fn put_new<V: Drop>(
    map: &mut BTreeMap<u32, V>,
    key: u32,
    value: V,
) -> Result<(), AllocError>
    ensures ok { OnOk result (map.new.entries ≡ put map.old.entries key value) }
    ensures err { OnErr result (map.new.entries ≡ map.old.entries) }
{
    map.insert(key, value)?;
    Ok(())
}

pub(crate) fn take_out<V: Drop>(map: &mut BTreeMap<u32, V>, key: u32)
    ensures entries { map.new.entries ≡ without map.old.entries key }
    ensures gone { at map.new.entries key ≡ None }
{
    let _ = map.remove(&key);
}

/// A context in a process of its own.
pub(crate) fn own_context(
    client: u32,
    caller: Caller,
    number: u32,
    session: Option<Serial>,
) -> Context
    ensures { result ≡ record {
      client = client;
      process = number;
      caller = caller;
      thread = None;
      session = session;
    } }
{
    Context {
        client,
        process: number,
        caller,
        thread: None,
        session,
    }
}

/// A context and its process. A refusal leaves neither.
#[tactic(auto, using(krs_model::proofs::Tables::Changes::without_put))]
pub(crate) fn enter(
    contexts: &mut ContextTable,
    processes: &mut BTreeMap<u32, Option<Serial>>,
    number: u32,
    context: Context,
) -> Result<(), AllocError>
    requires { at contexts.old number ≡ None }
    ensures context { OnOk result (contexts.new ≡ put contexts.old number context) }
    ensures process { OnOk result (processes.new.entries ≡ put processes.old.entries number None) }
    ensures err_contexts { OnErr result (contexts.new ≡ contexts.old) }
    ensures err_processes { OnErr result (processes.new.entries ≡ processes.old.entries) }
{
    contexts.insert(number, context)?;
    if put_new(processes, number, None).is_err() {
        let _ = contexts.remove(number);
        return Err(AllocError);
    }
    Ok(())
}

/// A context and its process, and the keyrings of its uid. A refusal leaves nothing of them.
#[tactic(auto, using(krs_model::proofs::Tables::Changes::without_put))]
pub(crate) fn enter_first(
    contexts: &mut ContextTable,
    processes: &mut BTreeMap<u32, Option<Serial>>,
    uids: &mut BTreeMap<u32, UidRings>,
    number: u32,
    context: Context,
    rings: UidRings,
) -> Result<(), AllocError>
    requires absent_context { at contexts.old number ≡ None }
    requires absent_process { at processes.old.entries number ≡ None }
    ensures context { OnOk result (contexts.new ≡ put contexts.old number context) }
    ensures process { OnOk result (processes.new.entries ≡ put processes.old.entries number None) }
    ensures uids { OnOk result (uids.new.entries ≡ put uids.old.entries context.caller.uid rings) }
    ensures err_contexts { OnErr result (contexts.new ≡ contexts.old) }
    ensures err_processes { OnErr result (processes.new.entries ≡ processes.old.entries) }
    ensures err_uids { OnErr result (uids.new.entries ≡ uids.old.entries) }
{
    let uid = context.caller.uid;
    enter(contexts, processes, number, context)?;
    if put_new(uids, uid, rings).is_err() {
        let _ = contexts.remove(number);
        take_out(processes, number);
        return Err(AllocError);
    }
    Ok(())
}

/// Another thread keyring of a context, or none.
pub(crate) fn set_thread(contexts: &mut BTreeMap<u32, Context>, number: u32, ring: Option<Serial>)
    ensures { contexts.new.entries
        ≡ alter contexts.old.entries number (λ c. record c { thread = ring }) }
{
    match contexts.get_mut(&number) {
        Some(context) => context.thread = ring,
        None => {}
    }
}

/// Another session keyring of a context, or none.
pub(crate) fn set_session(contexts: &mut BTreeMap<u32, Context>, number: u32, ring: Option<Serial>)
    ensures { contexts.new.entries
        ≡ alter contexts.old.entries number (λ c. record c { session = ring }) }
{
    match contexts.get_mut(&number) {
        Some(context) => context.session = ring,
        None => {}
    }
}

/// Another process keyring of a process, or none.
pub(crate) fn set_ring(
    processes: &mut BTreeMap<u32, Option<Serial>>,
    process: u32,
    ring: Option<Serial>,
)
    ensures { processes.new.entries ≡ alter processes.old.entries process (λ was. ring) }
{
    match processes.get_mut(&process) {
        Some(was) => *was = ring,
        None => {}
    }
}

/// Ends a process that has no context.
pub(crate) fn end_process(
    processes: &mut BTreeMap<u32, Option<Serial>>,
    contexts: &ContextTable,
    process: u32,
)
    ensures entries { processes.new.entries ≡ (if has_process contexts.now process
        then processes.old.entries else without processes.old.entries process) }
    ensures gone { has_process contexts.now process ≡ false
        → at processes.new.entries process ≡ None }
{
    if !contexts.has_process(process) {
        take_out(processes, process);
    }
}

/// Lets go of the keyrings of a uid that has no context.
pub(crate) fn end_uid(uids: &mut BTreeMap<u32, UidRings>, contexts: &ContextTable, uid: u32)
    ensures entries { uids.new.entries ≡ (if has_uid contexts.now uid
        then uids.old.entries else without uids.old.entries uid) }
    ensures gone { has_uid contexts.now uid ≡ false → at uids.new.entries uid ≡ None }
{
    if !contexts.has_uid(uid) {
        take_out(uids, uid);
    }
}

/// Just the processes stay that have a context.
pub(crate) fn drop_processes(processes: &mut BTreeMap<u32, Option<Serial>>, contexts: &ContextTable)
    ensures { processes.new.entries
        ≡ filter (λ e. has_process contexts.now e.0) processes.old.entries }
{
    processes.retain(|process, _ring| contexts.has_process(*process));
}

/// Just the uids stay that have a context.
pub(crate) fn drop_uids(uids: &mut BTreeMap<u32, UidRings>, contexts: &ContextTable)
    ensures { uids.new.entries ≡ filter (λ e. has_uid contexts.now e.0) uids.old.entries }
{
    uids.retain(|uid, _rings| contexts.has_uid(*uid));
}

/// An attachment, where it is not of this key.
fn detached(ring: Option<Serial>, serial: Serial) -> Option<Serial>
    ensures { result ≡ detached serial ring }
{
    match ring {
        Some(attached) if attached.number() == serial.number() => None,
        _ => ring,
    }
}

/// A context that does not attach the key.
fn detach_context(context: &mut Context, serial: Serial)
    ensures { context.new ≡ context_without serial context.old }
{
    context.thread = detached(context.thread, serial);
    context.session = detached(context.session, serial);
}

/// The keyrings of a uid without the key.
fn rings_without(rings: UidRings, serial: Serial) -> UidRings
    ensures { result ≡ rings_without serial rings }
{
    UidRings {
        user: detached(rings.user, serial),
        session: detached(rings.session, serial),
    }
}

/// No context attaches the key.
pub(crate) fn detach_contexts(contexts: &mut BTreeMap<u32, Context>, serial: Serial)
    ensures { contexts.new.entries ≡ map_values (context_without serial) contexts.old.entries }
{
    contexts.retain(|_number, context| {
        detach_context(context, serial);
        true
    });
}

/// No process attaches the key.
pub(crate) fn detach_processes(processes: &mut BTreeMap<u32, Option<Serial>>, serial: Serial)
    ensures { processes.new.entries ≡ map_values (detached serial) processes.old.entries }
{
    processes.retain(|_process, ring| {
        *ring = detached(*ring, serial);
        true
    });
}

/// No uid attaches the key.
pub(crate) fn detach_uids(uids: &mut BTreeMap<u32, UidRings>, serial: Serial)
    ensures { uids.new.entries ≡ map_values (rings_without serial) uids.old.entries }
{
    uids.retain(|_uid, rings| {
        *rings = rings_without(*rings, serial);
        true
    });
}
