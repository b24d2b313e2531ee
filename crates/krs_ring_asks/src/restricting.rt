ghost use Rattle.std.specs.Prelude.{◌≡◌, ◌≢◌, Err};
ghost use Rattle.krs_types.specs.declared.{errno.Errno.TheVariants.EEXIST, fault.Fault.TheVariants.Memory};
ghost use Rattle.krs_model.specs.{Asks.Linked.{no_type, restrict_keyring, unless}, Outcome.{Is, Leads}};
ghost use Rattle.krs_keys.specs.Keys.{seen};

use crate::linking::links_of;
use krs_keys::{Change, Key};
use krs_tables::Tables;
use krs_types::{Answer, Errno, Fault, Rights, Serial, TypeName, Want};

/// A keyring closed against further links, for good: keyctl(2), KEYCTL_RESTRICT_KEYRING. It takes no memory.
#[tactic(auto, unfolding(krs_model::specs::Asks::Linked::restrict_keyring))]
pub fn restrict_keyring(
    tables: &mut Tables,
    client: u32,
    context: u32,
    ring: i32,
    type_name: TypeName,
) -> Result<Answer, Fault>
    ensures step { Leads tables.old result tables.new
        (restrict_keyring tables.old client context ring type_name) }
    ensures memory { result ≢ Err Memory }
{
    let context = tables.context_of(client, context)?;
    check_untyped(type_name)?;
    let (serial, key) = tables.look_up(context, ring, Want::Granted(Rights::SETATTR))?;
    links_of(key)?;
    check_first(key)?;
    tables.change(Serial::new(serial), Change::Closed);
    Ok(Answer::Nothing)
}

/// No type restricts the links: EINVAL. Profile, closed keyrings.
fn check_untyped(type_name: TypeName) -> Result<(), Errno>
    ensures { Is (λ done. done) result (no_type type_name) }
{
    match type_name.as_slice() {
        [] => Ok(()),
        _ => Err(Errno::EINVAL),
    }
}

/// The keyring is not closed yet: EEXIST.
fn check_first(ring: &Key) -> Result<(), Errno>
    ensures { Is (λ done. done) result (unless (seen ring.now).closed EEXIST) }
{
    if ring.closed {
        return Err(Errno::EEXIST);
    }
    Ok(())
}
