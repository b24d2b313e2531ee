ghost use Rattle.std.specs.Prelude.{[], ◌==◌, ◌≡◌, ◌≢◌, cond, Err, filter, IfNone, IfSome, not, option_to_list};
ghost use Rattle.krs_types.specs.declared.fault.Fault.TheVariants.{Memory};
ghost use Rattle.krs_model.specs.Asks.Leaving.{contexts_without, exit, has_process, has_uid, left};
ghost use Rattle.krs_model.specs.{Outcome.Leads, Sweep.{process_roots, uid_roots}};
ghost use Rattle.krs_ctx.specs.{Anchors.{anchored, anchors_of}, Members.IsThereFailing, Told.{IsLeaving, without_idle}};
ghost use Rattle.krs_hold.specs.Tally.{all_less};
ghost use Rattle.krs_tables.specs.Holding.{rings_of};

use krs_ctx::Contexts;
use krs_hold::Holders;
use krs_tables::Tables;
use krs_types::{Answer, Fault, Serial, UidRings};

/// Closes all queues of a client and ends all its contexts, and what has no context then. It takes no memory.
pub fn leave(tables: &mut Tables, client: u32)
    ensures { tables.new ≡ left tables.old client }
{
    tables.queues.leave(client);
    end_contexts(tables, client);
    if !tables.contexts.is_whole() {
        end_idle(tables, client);
    }
}

/// Ends all contexts of a client, one after the other, each with its process and the keyrings of its uid where it was
/// their last.
fn end_contexts(tables: &mut Tables, client: u32)
    ensures leaving { IsLeaving client (anchors_of tables.old) (anchors_of tables.new) }
    ensures all { contexts_without client tables.new.contexts ≡ tables.new.contexts }
    ensures rest { tables.new ≡ anchored tables.old (anchors_of tables.new) }
{
    'ending: while let Some(number) = first_of(tables, client) {
        let _ = exit(tables, client, number);
    }
}

/// A context of a client.
fn first_of(tables: &Tables, client: u32) -> Option<u32>
    ensures there { IfSome result (IsThereFailing
        (λ e. not (e.1.client == client)) tables.now.contexts) }
    ensures none { IfNone result
        (contexts_without client tables.now.contexts ≡ tables.now.contexts) }
{
    tables.contexts.first_of(client)
}

/// Ends the processes and uids that have no context, once no context of the client is left.
fn end_idle(tables: &mut Tables, client: u32)
    requires { contexts_without client tables.old.contexts ≡ tables.old.contexts }
    ensures { tables.new ≡ anchored tables.old (without_idle (anchors_of tables.old)) }
{
    let_go_processes(&mut tables.holders, &tables.contexts);
    let_go_uids(&mut tables.holders, &tables.contexts);
    tables.contexts.leave(client);
}

/// Ends a context, and its process and the keyrings of its uid with their last context.
#[tactic(auto, unfolding(krs_model::specs::Asks::Leaving::exit))]
pub fn exit(tables: &mut Tables, client: u32, context: u32) -> Result<Answer, Fault>
    ensures step { Leads tables.old result tables.new (exit tables.old client context) }
    ensures memory { result ≢ Err Memory }
{
    let own = tables.context_of(client, context)?;
    let (process, uid) = (own.process, own.caller.uid);
    let (thread, session) = (own.thread, own.session);
    let ring = tables.process_ring(process);
    let rings = tables.contexts.rings(uid);
    tables.contexts.exit(client, context)?;
    tables.holders.let_go_of(thread);
    tables.holders.let_go_of(session);
    let_go_process(&mut tables.holders, &tables.contexts, process, ring);
    let_go_uid(&mut tables.holders, &tables.contexts, uid, rings);
    Ok(Answer::Nothing)
}

/// Lets go of the keyring of a process that has no context.
fn let_go_process(holders: &mut Holders, contexts: &Contexts, process: u32, ring: Option<Serial>)
    ensures { holders.new ≡ all_less (cond (has_process contexts.now.contexts process)
        [] (option_to_list ring)) holders.old }
{
    if !contexts.has_process(process) {
        holders.let_go_of(ring);
    }
}

/// Lets go of the keyrings of a uid that has no context.
fn let_go_uid(holders: &mut Holders, contexts: &Contexts, uid: u32, rings: Option<UidRings>)
    ensures { holders.new ≡ all_less (cond (has_uid contexts.now.contexts uid)
        [] (rings_of rings)) holders.old }
{
    if contexts.has_uid(uid) {
        return;
    }
    if let Some(rings) = rings {
        holders.let_go_of(rings.user);
        holders.let_go_of(rings.session);
    }
}

/// Lets go of what processes attach that have no context.
fn let_go_processes(holders: &mut Holders, contexts: &Contexts)
    ensures { holders.new ≡ all_less (process_roots (filter
        (λ e. not (has_process contexts.now.contexts e.0)) contexts.now.processes)) holders.old }
{
    for (process, ring) in contexts.processes() {
        if !contexts.has_process(*process) {
            holders.let_go_of(*ring);
        }
    }
}

/// Lets go of what uids attach that have no context.
fn let_go_uids(holders: &mut Holders, contexts: &Contexts)
    ensures { holders.new ≡ all_less (uid_roots (filter
        (λ e. not (has_uid contexts.now.contexts e.0)) contexts.now.uids)) holders.old }
{
    for (uid, rings) in contexts.uids() {
        if !contexts.has_uid(*uid) {
            holders.let_go_of(rings.user);
            holders.let_go_of(rings.session);
        }
    }
}
