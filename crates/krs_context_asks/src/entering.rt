ghost use Rattle.std.specs.Prelude.{◌&&◌, ◌==◌, ◌≡◌, ◌≢◌, Err, filter, not};
ghost use Rattle.krs_types.specs.declared.fault.Fault.TheVariants.{Memory};
ghost use Rattle.krs_model.specs.{Asks.Entering.{exec, fork, thread}, Outcome.Leads, Sweep.context_roots};
ghost use Rattle.krs_hold.specs.Tally.{all_less};

use krs_ctx::Contexts;
use krs_hold::Holders;
use krs_tables::{Tables, check_room, hold_of};
use krs_types::{Answer, Fault};

/// One more context of a process, with the session keyring of this one: thread-keyring(7).
#[tactic(auto, unfolding(krs_model::specs::Asks::Entering::thread))]
pub fn thread(tables: &mut Tables, client: u32, context: u32) -> Result<Answer, Fault>
    ensures { Leads tables.old result tables.new (thread tables.old client context) }
{
    let session = tables.context_of(client, context)?.session;
    tables.contexts.can_enter(client)?;
    tables.check_memory()?;
    check_room(&tables.holders, &session)?;
    let number = tables.contexts.thread(client, context)?;
    hold_of(&mut tables.holders, &session);
    Ok(Answer::Number(number))
}

/// A context in a process of its own, with the session keyring of this one: process-keyring(7).
#[tactic(auto, unfolding(krs_model::specs::Asks::Entering::fork))]
pub fn fork(tables: &mut Tables, client: u32, context: u32) -> Result<Answer, Fault>
    ensures { Leads tables.old result tables.new (fork tables.old client context) }
{
    let session = tables.context_of(client, context)?.session;
    tables.contexts.can_enter(client)?;
    tables.check_memory()?;
    check_room(&tables.holders, &session)?;
    let number = tables.contexts.fork(client, context)?;
    hold_of(&mut tables.holders, &session);
    Ok(Answer::Number(number))
}

/// Ends the other contexts of a context's process, and lets go of the keyrings of both.
#[tactic(auto, unfolding(krs_model::specs::Asks::Entering::exec))]
pub fn exec(tables: &mut Tables, client: u32, context: u32) -> Result<Answer, Fault>
    ensures step { Leads tables.old result tables.new (exec tables.old client context) }
    ensures memory { result ≢ Err Memory }
{
    let own = tables.context_of(client, context)?;
    let (process, thread) = (own.process, own.thread);
    let ring = tables.process_ring(process);
    let_go_others(&mut tables.holders, &tables.contexts, process, context);
    tables.holders.let_go_of(thread);
    tables.holders.let_go_of(ring);
    tables.contexts.exec(client, context)?;
    Ok(Answer::Nothing)
}

/// Lets go of what the other contexts of a process attach.
fn let_go_others(holders: &mut Holders, contexts: &Contexts, process: u32, number: u32)
    ensures { holders.new ≡ all_less (context_roots (filter
        (λ e. (e.1.process == process) && not (e.0 == number)) contexts.now.contexts)) holders.old }
{
    for (_, other) in contexts.in_process(process) {
        if *other == number {
            continue;
        }
        if let Some(context) = contexts.contexts().get(other) {
            holders.let_go_of(context.thread);
            holders.let_go_of(context.session);
        }
    }
}
