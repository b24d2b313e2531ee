ghost use Rattle.std.specs.Prelude.{◌+◌, ◌-◌, ◌^◌, ◌↔◌, ◌≡◌, ◌≤◌, IsOk, IsSome, List, OnOk, ℕ};
ghost use Rattle.krs_model.specs.Table.{at, Table};
ghost use Rattle.krs_keys.specs.declared.key.Key.{Key};
ghost use Rattle.krs_hold.specs.Tally.{AreExact, number_at, one_more, with_number};
ghost use Rattle.krs_tables.specs.Holding.{HasRoom, more_of};

use krs_hold::Holders;
use krs_types::Serial;
use std::alloc::AllocError;

/// Room for one more to hold what an attachment has, or a key that a keyring is to link.
pub fn check_room(holders: &Holders, serial: &Option<Serial>) -> Result<(), AllocError>
    ensures ok { OnOk result (HasRoom holders.now serial.now) }
    ensures room { HasRoom holders.now serial.now → IsOk result }
{
    match serial {
        Some(serial) if !holders.has_room(*serial, 1) => Err(AllocError),
        _ => Ok(()),
    }
}

/// One attachment more holds what it has.
pub fn hold_of(holders: &mut Holders, serial: &Option<Serial>)
    requires { HasRoom holders.old serial.now }
    ensures { holders.new ≡ more_of serial.now holders.old }
{
    if let Some(held) = serial {
        holders.hold(*held);
    }
}

/// Room for the count of a new key, and for two holders of it.
pub fn make_room(holders: &mut Holders, serial: Serial) -> Result<(), AllocError>
    ensures ok { OnOk result (holders.new ≡ with_number serial holders.old) }
    ensures room { OnOk result (number_at holders.new serial + 2 ≤ 2 ^ 64 - 1) }
    ensures there { IsSome (at holders.old serial) → number_at holders.old serial + 2 ≤ 2 ^ 64 - 1 → IsOk result }
    ensures exact { (keys : Table Key) (attached : List ℕ)
        → AreExact keys holders.old attached → AreExact keys holders.new attached }
{
    let Ok(()) = holders.made(serial) else {
        return Err(AllocError);
    };
    check_two(holders, serial)
}

/// Room for two more to hold a key.
fn check_two(holders: &Holders, serial: Serial) -> Result<(), AllocError>
    ensures { IsOk result ↔ number_at holders.now serial + 2 ≤ 2 ^ 64 - 1 }
{
    if !holders.has_room(serial, 2) {
        return Err(AllocError);
    }
    Ok(())
}

/// Two holders more of a key.
pub fn hold_twice(holders: &mut Holders, serial: Serial)
    requires { number_at holders.old serial + 2 ≤ 2 ^ 64 - 1 }
    ensures { holders.new ≡ one_more serial (one_more serial holders.old) }
{
    holders.hold(serial);
    holders.hold(serial);
}
