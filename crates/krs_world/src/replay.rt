//! Whether a list of events may have happened to a new store. For tests of what many seats were answered.
ghost use Rattle.std.specs.Prelude.{◌↔◌, ◌≡◌, Err, IfErr, IfOk, IsTrue};
ghost use Rattle.krs_types.specs.declared.errno.Errno.TheVariants.{ENOMEM};
ghost use Rattle.krs_model.specs.State.{raised, starting_at};
ghost use Rattle.krs_world.specs.Replay.{FoundNoMemory, IsReplayedBy, Replays};

use krs_store::Store;
use krs_types::{Ask, Errno, Event, Op, Reply, is_same_reply};
use std::alloc::Global;

/// Whether these events may have happened to a new store, one after the other, with just these replies. An ENOMEM to an
/// ask that takes memory is taken as possible; whether another refusal applied is not checked. Each ask is copied and
/// served anew, so ENOMEM is answered where memory is short here.
pub fn replay_check(alloc: Global, events: &[Event]) -> Result<bool, Errno>
    ensures replayed { IfOk result (λ yes. IsTrue yes ↔ Replays (starting_at 3) events.now) }
    ensures memory { IfErr result (λ error. error ≡ ENOMEM) }
{
    let mut store = Store::new(alloc);
    for event in events {
        let happened = replay(alloc, &mut store, event)?;
        if !happened {
            return Ok(false);
        }
    }
    Ok(true)
}

// Whether this event may have happened to the store, which is then as it was after it.
fn replay(alloc: Global, store: &mut Store, event: &Event) -> Result<bool, Errno>
    ensures replayed { IfOk result (λ yes. IsReplayedBy store.old event.now yes store.new) }
    ensures memory { IfErr result (λ error. error ≡ ENOMEM) }
{
    if found_no_memory(event) {
        pass_refused(store, event.lane, event.moment);
        return Ok(true);
    }
    let Ok(ask) = event.ask.copy(alloc) else {
        return Err(Errno::ENOMEM);
    };
    let reply = store.apply(event.lane, event.moment, ask);
    if is_same_reply(&reply, &event.reply) {
        return Ok(true);
    }
    if is_no_memory(&reply) {
        return Err(Errno::ENOMEM);
    }
    Ok(false)
}

// Asks what every store refuses, a queue of no records: the clock alone is raised.
fn pass_refused(store: &mut Store, lane: u32, moment: u64)
    ensures { store.new ≡ raised store.old moment }
{
    let context = 0;
    let op = Op::OpenQueue { capacity: 0 };
    let _ = store.apply(lane, moment, Ask { context, op });
}

// Whether an ask that may find no memory found none.
fn found_no_memory(event: &Event) -> bool
    ensures { IsTrue result ↔ FoundNoMemory event.now }
{
    is_no_memory(&event.reply) && event.ask.op.grows()
}

// Whether this is ENOMEM.
fn is_no_memory(reply: &Reply) -> bool
    ensures { IsTrue result ↔ (reply.now ≡ Err ENOMEM) }
{
    matches!(reply, Err(Errno::ENOMEM))
}
