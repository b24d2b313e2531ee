ghost use Rattle.std.specs.Prelude.{◌≡◌, ◌≢◌, Err, false, IsErrOf};
ghost use Rattle.krs_types.specs.Growth.{ends_watch};
ghost use Rattle.krs_types.specs.declared.{ask.Op.TheVariants.Watch, fault.Fault.TheVariants.Memory};
ghost use Rattle.krs_model.specs.{Asks.Watching.{close_queue, open_queue, read_queue, set_filter}, Outcome.Leads};
ghost use Rattle.krs_tables.specs.Serving.{LeadsTold};

use krs_tables::Tables;
use krs_types::{Answer, Fault, FilterEntries, Rights, Serial, Want};
use krs_watch::watch_id;

/// A queue of that many records, by its number: core-api/watch_queue.rst, "Watch Queue (Notification Output)
/// API".
#[tactic(auto, unfolding(krs_model::specs::Asks::Watching::open_queue))]
pub(crate) fn open_queue(tables: &mut Tables, client: u32, capacity: u32) -> Result<Answer, Fault>
    ensures { Leads tables.old result tables.new (open_queue tables.old client capacity) }
{
    let number = tables.queues.open_queue(&tables.memory, client, capacity)?;
    Ok(Answer::Number(number))
}

/// Another filter of a queue: core-api/watch_queue.rst, "Event Filtering".
#[tactic(auto, unfolding(krs_model::specs::Asks::Watching::set_filter))]
pub(crate) fn set_filter(
    tables: &mut Tables,
    client: u32,
    number: u32,
    entries: FilterEntries,
) -> Result<Answer, Fault>
    ensures { Leads tables.old result tables.new (set_filter tables.old client number entries) }
{
    tables
        .queues
        .set_filter(client, number, entries.into_vec())?;
    Ok(Answer::Nothing)
}

/// The records of a queue that fit the room: core-api/watch_queue.rst, "Watch Queue (Notification Output) API".
#[tactic(auto, unfolding(krs_model::specs::Asks::Watching::read_queue))]
pub(crate) fn read_queue(
    tables: &mut Tables,
    client: u32,
    number: u32,
    room: u32,
) -> Result<Answer, Fault>
    ensures { Leads tables.old result tables.new (read_queue tables.old client number room) }
{
    let bytes = tables.queues.read(client, number, room)?;
    Ok(Answer::Bytes(bytes))
}

/// The end of a queue and of its watches. It takes no memory.
#[tactic(auto, unfolding(krs_model::specs::Asks::Watching::close_queue))]
pub(crate) fn close_queue(tables: &mut Tables, client: u32, number: u32) -> Result<Answer, Fault>
    ensures step { Leads tables.old result tables.new (close_queue tables.old client number) }
    ensures memory { result ≢ Err Memory }
{
    tables.queues.close(client, number)?;
    Ok(Answer::Nothing)
}

/// A queue's watch of a key, or the end of that watch, of which a removal record goes to the queue: uapi
/// linux/keyctl.h, KEYCTL_WATCH_KEY.
#[tactic(auto, unfolding(krs_model::specs::Asks::Watching::watch))]
pub(crate) fn watch(
    tables: &mut Tables,
    client: u32,
    number: u32,
    id: i32,
    queue: u32,
    watch: i32,
) -> Result<Answer, Fault>
    ensures step { LeadsTold tables.old client number (Watch id queue watch) result tables.new }
    ensures memory { IsErrOf result Fault.Memory → ends_watch watch ≡ false }
{
    let context = tables.context_of(client, number)?;
    let asked = watch_id(watch)?;
    let (key, _) = tables.look_up(context, id, Want::Granted(Rights::VIEW))?;
    let key = Serial::new(key);
    match asked {
        Some(id) => tables.queues.watch(&tables.memory, client, queue, key, id)?,
        None => tables.queues.unwatch(client, queue, key)?,
    }
    Ok(Answer::Nothing)
}
