ghost use Rattle.std.specs.Prelude.{◌≡◌, IsErrOf, true};
ghost use Rattle.krs_types.specs.Growth.{grows};
ghost use Rattle.krs_model.specs.Sound.{IsSound};
ghost use Rattle.krs_tables.specs.Serving.{LeadsTold};
ghost use Rattle.krs_key_asks.specs.Taking.{answered, taken_of};
ghost use Rattle.krs_store.specs.Telling.{Runs};

use crate::telling::{foretell, tell};
use crate::watching;
use crate::watching::{close_queue, open_queue, read_queue, set_filter};
use krs_context_asks::{exec, exit, fork, hello, join, leave, thread};
use krs_key_asks::{
    Given, Taker, add, chown, describe, read, read_into, revoke, set_perm, set_timeout, update,
};
use krs_ring_asks::{
    clear, get_id, invalidate, link, move_link, request, restrict_keyring, search, unlink,
};
use krs_tables::Tables;
use krs_types::{Answer, Ask, Fault, Op};

/// One ask in the state that it finds, and the notes of what it did. Where it tells none, or no key is watched, none is
/// looked for. A READ, which is asked most, is served before the ask is moved.
#[inline(always)]
pub(crate) fn serve(tables: &mut Tables, client: u32, ask: Ask) -> Result<Answer, Fault>
    requires sound { IsSound tables.old }
    ensures told { LeadsTold tables.old client ask.context ask.op result tables.new }
    ensures memory { IsErrOf result Fault.Memory → grows ask.op ≡ true }
{
    if let Op::Read { id } = ask.op {
        return read(tables, client, ask.context, id);
    }
    if !ask.op.tells() {
        return run(tables, client, ask);
    }
    if !tables.queues.has_watches() {
        return run(tables, client, ask);
    }
    serve_watched(tables, client, ask)
}

/// As `serve`, but a taker may have the payload that a READ finds.
#[inline(always)]
pub(crate) fn serve_into<T: Taker>(
    tables: &mut Tables,
    client: u32,
    ask: Ask,
    taker: &mut T,
) -> Result<Given, Fault>
    requires sound { IsSound tables.old }
    ensures told { LeadsTold tables.old client ask.context ask.op (answered result) tables.new }
    ensures taken { T.took taker.old (taken_of result) taker.new }
    ensures memory { IsErrOf result Fault.Memory → grows ask.op ≡ true }
{
    if let Op::Read { id } = ask.op {
        return read_into(tables, client, ask.context, id, taker);
    }
    match serve(tables, client, ask) {
        Ok(answer) => Ok(Given::Answer(answer)),
        Err(fault) => Err(fault),
    }
}

/// The same in a store that watches keys. It has a function of its own, so that others don't clear room for notes.
#[inline(never)]
fn serve_watched(tables: &mut Tables, client: u32, ask: Ask) -> Result<Answer, Fault>
    requires sound { IsSound tables.old }
    ensures told { LeadsTold tables.old client ask.context ask.op result tables.new }
    ensures memory { IsErrOf result Fault.Memory → grows ask.op ≡ true }
{
    let tellings = foretell(tables, client, ask.context, &ask.op);
    match run(tables, client, ask) {
        Ok(answer) => {
            tell(tables, tellings, &answer);
            Ok(answer)
        }
        Err(fault) => Err(fault),
    }
}

/// One ask in the state that it finds.
#[rattlefmt::skip]
fn run(tables: &mut Tables, client: u32, ask: Ask) -> Result<Answer, Fault>
    requires sound { IsSound tables.old }
    ensures step { Runs tables.old client ask.context ask.op result tables.new }
    ensures memory { IsErrOf result Fault.Memory → grows ask.op ≡ true }
{
    let context = ask.context;
    match ask.op {
        Op::Hello(caller) => hello(tables, client, caller),
        Op::Thread => thread(tables, client, context),
        Op::Fork => fork(tables, client, context),
        Op::Exec => exec(tables, client, context),
        Op::Search { head, type_name, desc, dest } => search(tables, client, context, head, type_name, desc, dest),
        Op::Request { type_name, desc, dest } => request(tables, client, context, type_name, desc, dest),
        Op::GetId { id, create } => get_id(tables, client, context, id, create),
        Op::Join { name } => join(tables, client, context, name),
        Op::Invalidate { id } => invalidate(tables, client, context, id),
        Op::Add { type_name, desc, payload, ring } => add(tables, client, context, type_name, desc, payload, ring),
        Op::Update { id, payload } => update(tables, client, context, id, payload),
        Op::Revoke { id } => revoke(tables, client, context, id),
        Op::Chown { id, uid, gid } => chown(tables, client, context, id, uid, gid),
        Op::SetPerm { id, mask } => set_perm(tables, client, context, id, mask),
        Op::SetTimeout { id, seconds } => set_timeout(tables, client, context, id, seconds),
        Op::Link { key, ring } => link(tables, client, context, key, ring),
        Op::Unlink { key, ring } => unlink(tables, client, context, key, ring),
        Op::Move { key, from, to, flags } => move_link(tables, client, context, key, from, to, flags),
        Op::Clear { id } => clear(tables, client, context, id),
        Op::RestrictKeyring { ring, type_name } => restrict_keyring(tables, client, context, ring, type_name),
        Op::Read { id } => read(tables, client, context, id),
        Op::Describe { id } => describe(tables, client, context, id),
        Op::Watch { id, queue, watch } => watching::watch(tables, client, context, id, queue, watch),
        Op::OpenQueue { capacity } => open_queue(tables, client, capacity),
        Op::SetFilter { queue, entries } => set_filter(tables, client, queue, entries),
        Op::ReadQueue { queue, room } => read_queue(tables, client, queue, room),
        Op::CloseQueue { queue } => close_queue(tables, client, queue),
        Op::Exit => exit(tables, client, context),
        Op::Leave => {
            leave(tables, client);
            Ok(Answer::Nothing)
        }
    }
}
