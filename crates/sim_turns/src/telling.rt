// What a turn of a device did is told.
ghost use Rattle.std.specs.Prelude.{OnErr, OnOk};
ghost use Rattle.sim_channels.specs.Channels.{IsKept, IsSame};
ghost use Rattle.sim_channels.specs.Waiting.{IsAtRest, IsAtRestBut};
ghost use Rattle.sim_channels.specs.Turns.{Waits};
ghost use Rattle.sim_turns.specs.Taking.{BrokenOver, IsTaken, Tires, ToldOver};

use core_machine::Note;
use maple_base::Turned;
use sim_channels::{Driver, Stopped, connection_of, driving_laws, resting_laws};
use std::sync::Wait;

/// The machine is told what a turn of the device with this index did, and what it appended comes
/// behind what it appended before. Where it failed it is left.
///
/// # Errors
///
/// `Stopped`.
pub(crate) fn tell_turn<R: Wait>(
    rt: &R,
    driver: &mut Driver<'_>,
    at: usize,
    turned: Turned,
    bytes: &[u8],
) -> Result<(), Stopped>
    requires kept { IsKept driver.old }
    requires rest { IsAtRest driver.old }
    requires waits { Waits at driver.old }
    requires taken { IsTaken turned }
    ensures rest { OnOk result (IsAtRestBut at driver.new) }
    ensures told { OnOk result (ToldOver at turned bytes.now driver.old driver.new) }
    ensures tires { OnOk result (Tires turned driver.old driver.new) }
    ensures broken { OnErr result (BrokenOver at turned bytes.now driver.old driver.new) }
    ensures same { IsSame driver.old driver.new }
{
    driving_laws();
    resting_laws();
    let device = connection_of(at);
    driver.note(rt, Note::Turned { device, turned })?;
    match turned {
        Turned::Failed => {
            driver.leave(rt, at)?;
            Ok(())
        }
        _ => Ok(driver.append(at, bytes)?),
    }
}
