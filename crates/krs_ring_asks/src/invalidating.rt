ghost use Rattle.std.specs.Prelude.{◌≡◌, ◌≢◌, Err, false, option_to_list};
ghost use Rattle.krs_types.specs.declared.fault.Fault.TheVariants.{Memory};
ghost use Rattle.krs_model.specs.Asks.Invalidating.{invalidate, invalidated};
ghost use Rattle.krs_model.specs.{Outcome.Leads, Sweep.{context_roots, process_roots, uid_roots}};
ghost use Rattle.krs_hold.specs.Tally.{all_less};
ghost use Rattle.krs_ring_asks.specs.Detached.{those, those_attached};

use crate::linking::take_link;
use krs_ctx::Contexts;
use krs_hold::Holders;
use krs_tables::Tables;
use krs_types::{Answer, Context, Fault, Rights, Serial, UidRings, Want};
use std::collections::BTreeMap;

/// A key out of every keyring and every attachment: keyctl(2), KEYCTL_INVALIDATE.
#[tactic(auto, unfolding(krs_model::specs::Asks::Invalidating::invalidate))]
pub fn invalidate(tables: &mut Tables, client: u32, number: u32, id: i32) -> Result<Answer, Fault>
    ensures step { Leads tables.old result tables.new (invalidate tables.old client number id) }
    ensures memory { result ≢ Err Memory }
{
    let context = tables.context_of(client, number)?;
    let (serial, _) = tables.look_up(context, id, Want::Granted(Rights::SEARCH))?;
    detach(tables, Serial::new(serial));
    Ok(Answer::Nothing)
}

/// No keyring links the key any more, and nothing attaches it. It takes no memory. The keyrings that are known to link
/// it come first, then what attaches it. The holders that are left tell whether there are others: then all keyrings are
/// looked at.
fn detach(tables: &mut Tables, serial: Serial)
    ensures { tables.new ≡ invalidated tables.old serial }
{
    unlink_near(tables, serial);
    if !is_held(tables, serial) {
        return;
    }
    unlink_far(tables, serial);
    if !is_held(tables, serial) {
        return;
    }
    detach_attached(tables, serial);
    if !is_held(tables, serial) {
        return;
    }
    detach_whole(tables, serial);
}

/// Whether a link or an attachment holds the key.
fn is_held(tables: &Tables, serial: Serial) -> bool
    ensures { result ≡ false → invalidated tables.now serial ≡ tables.now }
{
    tables.holders.number(serial) > 0
}

/// The key out of up to two keyrings that link it.
fn unlink_near(tables: &mut Tables, serial: Serial)
    ensures { invalidated tables.new serial ≡ invalidated tables.old serial }
{
    let (first, second) = tables.keys.near_linkers(serial);
    unlink_in(tables, first, serial);
    unlink_in(tables, second, serial);
}

/// The key out of the further keyrings that link it.
fn unlink_far(tables: &mut Tables, serial: Serial)
    ensures { invalidated tables.new serial ≡ invalidated tables.old serial }
{
    for holder in 0..tables.holders.number(serial) {
        let _ = holder;
        let ring = tables.keys.far_linker(serial);
        if ring.is_none() {
            return;
        }
        unlink_in(tables, ring, serial);
    }
}

/// The key out of a keyring that may link it.
fn unlink_in(tables: &mut Tables, ring: Option<Serial>, serial: Serial)
    ensures { invalidated tables.new serial ≡ invalidated tables.old serial }
{
    if let Some(ring) = ring {
        let _ = take_link(tables, ring, serial);
    }
}

/// The key out of every attachment.
fn detach_attached(tables: &mut Tables, serial: Serial)
    ensures { invalidated tables.new serial ≡ invalidated tables.old serial }
{
    let_go_attached(&mut tables.holders, &tables.contexts, serial);
    tables.contexts.detach(serial);
}

/// The key out of every keyring and every attachment, wherever they are.
fn detach_whole(tables: &mut Tables, serial: Serial)
    ensures { tables.new ≡ invalidated tables.old serial }
{
    tables.keys.unlink_all(serial);
    tables.contexts.detach(serial);
    tables.holders.let_go_whole(serial);
}

/// Each attachment of a key lets go of it.
fn let_go_attached(holders: &mut Holders, contexts: &Contexts, serial: Serial)
    ensures { holders.new ≡ all_less (those_attached contexts.now serial) holders.old }
{
    let_go_contexts(holders, contexts.contexts(), serial);
    let_go_processes(holders, contexts.processes(), serial);
    let_go_uids(holders, contexts.uids(), serial);
}

/// What contexts attach lets go of a key.
fn let_go_contexts(holders: &mut Holders, contexts: &BTreeMap<u32, Context>, serial: Serial)
    ensures { holders.new ≡ all_less (those serial (context_roots contexts.now.entries)) holders.old }
{
    for (number, context) in contexts {
        let _ = number;
        let_go_if(holders, context.thread, serial);
        let_go_if(holders, context.session, serial);
    }
}

/// What processes attach lets go of a key.
fn let_go_processes(
    holders: &mut Holders,
    processes: &BTreeMap<u32, Option<Serial>>,
    serial: Serial,
)
    ensures { holders.new ≡ all_less (those serial (process_roots processes.now.entries)) holders.old }
{
    for (number, ring) in processes {
        let _ = number;
        let_go_if(holders, *ring, serial);
    }
}

/// What uids attach lets go of a key.
fn let_go_uids(holders: &mut Holders, uids: &BTreeMap<u32, UidRings>, serial: Serial)
    ensures { holders.new ≡ all_less (those serial (uid_roots uids.now.entries)) holders.old }
{
    for (uid, rings) in uids {
        let _ = uid;
        let_go_if(holders, rings.user, serial);
        let_go_if(holders, rings.session, serial);
    }
}

/// An attachment lets go of a key, where it is of that key.
fn let_go_if(holders: &mut Holders, attached: Option<Serial>, serial: Serial)
    ensures { holders.new ≡ all_less (those serial (option_to_list attached)) holders.old }
{
    match attached {
        Some(held) if held.number() == serial.number() => holders.let_go(held),
        _ => {}
    }
}
