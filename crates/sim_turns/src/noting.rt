// What was done is told to the machine, where it is no call of a device.
ghost use Rattle.std.specs.Prelude.{◌≡◌, true, OnErr, OnOk};
ghost use Rattle.sim_steps.specs.Deeds.{MayNote};
ghost use Rattle.sim_steps.specs.Parts.{tells_settling};
ghost use Rattle.sim_channels.specs.Channels.{BreaksOffOver, IsKept, IsSame};
ghost use Rattle.sim_channels.specs.Waiting.{IsAtRest, IsDone};
ghost use Rattle.sim_turns.specs.Turning.{FitsStill, ToldSo, noting};

use core_machine::Note;
use sim_channels::{Driver, Stopped, driving_laws, resting_laws};
use std::sync::Wait;

/// The machine is told what was done, which is no call of a device; how a `settle` ended, where nothing is left to do.
///
/// # Errors
///
/// `Stopped`.
pub fn note<R: Wait>(rt: &R, driver: &mut Driver<'_>, note: Note) -> Result<(), Stopped>
    requires kept { IsKept driver.old }
    requires rest { IsAtRest driver.old }
    requires may { MayNote note }
    requires settled { tells_settling (noting note) ≡ true → IsDone driver.old }
    ensures kept { OnOk result (IsKept driver.new) }
    ensures fits { OnOk result (FitsStill driver.old driver.new) }
    ensures rest { OnOk result (IsAtRest driver.new) }
    ensures told { OnOk result (ToldSo note driver.old driver.new) }
    ensures broken { OnErr result (BreaksOffOver driver.old driver.new) }
    ensures same { IsSame driver.old driver.new }
    ensures desk { driver.new ≡ record driver.old { desk = driver.new.desk } }
{
    driving_laws();
    resting_laws();
    Ok(driver.note(rt, note)?)
}
