ghost use Rattle.std.specs.Prelude.{◌≡◌, IsErrOf, true};
ghost use Rattle.krs_model.specs.{Asks.Finding.{get_id, got}, Outcome.{Is, Leads}, Sound.IsSound};

use krs_tables::Tables;
use krs_types::{Answer, Context, Errno, Fault, Rights, Want};

/// The serial that an id stands for; its keyring is made where that is asked and there is none: keyctl(2),
/// KEYCTL_GET_KEYRING_ID.
#[tactic(auto, unfolding(krs_model::specs::Asks::Finding::get_id))]
pub fn get_id(
    tables: &mut Tables,
    client: u32,
    number: u32,
    id: i32,
    create: bool,
) -> Result<Answer, Fault>
    requires sound { IsSound tables.old }
    ensures step { Leads tables.old result tables.new (get_id tables.old client number id create) }
    ensures memory { IsErrOf result Fault.Memory → create ≡ true }
{
    let context = tables.context_of(client, number)?;
    if !create {
        return Ok(serial_there(tables, context, id)?);
    }
    match tables.wanted(number, context, id) {
        Some(special) => tables.make_alone(client, number, special),
        None => Ok(serial_there(tables, context, id)?),
    }
}

/// The serial of a key that is there, where it grants SEARCH.
fn serial_there(tables: &Tables, context: &Context, id: i32) -> Result<Answer, Errno>
    ensures { Is (λ answer. (tables.now, answer)) result (got tables.now context.now id) }
{
    let (serial, _) = tables.look_up(context, id, Want::Granted(Rights::SEARCH))?;
    Ok(Answer::Number(serial))
}
