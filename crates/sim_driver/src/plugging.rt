// Devices are plugged in and taken out.
ghost use Rattle.std.specs.Prelude.{◌≡◌, ◌+◌, false, map, length, OnErr, OnOk};
ghost use Rattle.machine_desk.specs.declared.inbound.Stage.TheVariants.{Live, Unopened};
ghost use Rattle.machine_steps.specs.declared.entry.Entry.TheVariants as entries;
ghost use Rattle.script_text.specs.Orders.{Order};
ghost use Rattle.script_text.specs.Steps.{IsAmong};
ghost use Rattle.sim_steps.specs.Stretches.{BreaksOff};
ghost use Rattle.sim_channels.specs.Channels.{BreaksOffOver, Fits, IsKept, IsSame, bench};
ghost use Rattle.sim_channels.specs.Staging.{HasStage};
ghost use Rattle.sim_channels.specs.Waiting.{IsAtRest, IsHeard, IsOffered};
ghost use Rattle.sim_turns.specs.Turning.{FitsStill};
ghost use Rattle.sim_driver.specs.Commands.{AsksFor, IsChanged, ObeyedBy, ObeyedOver};

use crate::places::index_of;
use core_machine::Note;
use device_port::Device;
use machine_desk::Stage;
use sim_channels::{Driver, Stopped, driving_laws, resting_laws};
use sim_turns::note;
use std::sync::Wait;

/// A session is opened for the device at a place, and what the machine has for it then is given to it.
/// Where one is open already, or it was left, that alone is told.
///
/// # Errors
///
/// `Stopped`.
pub(crate) fn plug<R: Wait, D: Device>(
    rt: &R,
    driver: &mut Driver<'_>,
    devices: &mut [D],
    place: u32,
) -> Result<(), Stopped>
    requires fits { Fits driver.old (map D.meaning devices.old) }
    requires rest { IsAtRest driver.old }
    requires among { IsAmong (length devices.old) place }
    ensures fits { OnOk result (Fits driver.new (map D.meaning devices.new)) }
    ensures rest { OnOk result (IsAtRest driver.new) }
    ensures obeyed { OnOk result (ObeyedBy (Order.Plug place) driver.old (map D.meaning devices.old) driver.new (map D.meaning devices.new)) }
    ensures broken { OnErr result (BreaksOff (bench driver.old (map D.meaning devices.old)) driver.new.desk.past) }
    ensures same { IsSame driver.old driver.new }
{
    resting_laws();
    let at = index_of(place);
    match driver.stage(at) {
        Stage::Live => note(rt, driver, Note::Present(place)),
        Stage::Over => note(rt, driver, Note::GoneAlready(place)),
        Stage::Unopened => {
            open(rt, driver, at)?;
            driver.deliver(rt, devices, at)
        }
    }
}

/// The session of the device at a place ends. Where none is open that alone is told.
///
/// # Errors
///
/// `Stopped`.
pub(crate) fn unplug<R: Wait>(rt: &R, driver: &mut Driver<'_>, place: u32) -> Result<(), Stopped>
    requires kept { IsKept driver.old }
    requires rest { IsAtRest driver.old }
    requires among { IsAmong (length driver.old.channels.items) place }
    ensures fits { OnOk result (FitsStill driver.old driver.new) }
    ensures rest { OnOk result (IsAtRest driver.new) }
    ensures obeyed { OnOk result (ObeyedOver (Order.Unplug place) driver.old driver.new) }
    ensures broken { OnErr result (BreaksOffOver driver.old driver.new) }
    ensures same { IsSame driver.old driver.new }
{
    resting_laws();
    let at = index_of(place);
    match driver.stage(at) {
        Stage::Live => close(rt, driver, at),
        _ => note(rt, driver, Note::Absent(place)),
    }
}

// A session is opened for the device with this index; in vain it is left.
fn open<R: Wait>(rt: &R, driver: &mut Driver<'_>, at: usize) -> Result<(), Stopped>
    requires kept { IsKept driver.old }
    requires rest { IsAtRest driver.old }
    requires unopened { HasStage at Unopened driver.old }
    ensures changes { OnOk result (IsChanged at driver.old driver.new) }
    ensures asked { OnOk result (AsksFor (entries.Open (at + 1)) driver.old driver.new) }
    ensures offered { OnOk result (IsOffered at driver.new) }
    ensures heard { OnOk result (IsHeard at driver.new) }
    ensures broken { OnErr result (BreaksOffOver driver.old driver.new) }
    ensures same { IsSame driver.old driver.new }
{
    driving_laws();
    resting_laws();
    Ok(driver.open(rt, at)?)
}

// The session of the device with this index ends.
fn close<R: Wait>(rt: &R, driver: &mut Driver<'_>, at: usize) -> Result<(), Stopped>
    requires kept { IsKept driver.old }
    requires rest { IsAtRest driver.old }
    requires live { HasStage at Live driver.old }
    ensures changes { OnOk result (IsChanged at driver.old driver.new) }
    ensures asked { OnOk result (AsksFor (entries.Gone (at + 1) false) driver.old driver.new) }
    ensures rest { OnOk result (IsAtRest driver.new) }
    ensures broken { OnErr result (BreaksOffOver driver.old driver.new) }
    ensures same { IsSame driver.old driver.new }
{
    driving_laws();
    resting_laws();
    Ok(driver.close(rt, at, false)?)
}
