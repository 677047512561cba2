// A frame comes to a device.
ghost use Rattle.std.specs.Prelude.{◌≡◌, ◌+◌, ◌<◌, ◌≤◌, false, map, length, Ok, OnErr, OnOk};
ghost use Rattle.machine_desk.specs.declared.inbound.Stage.TheVariants.{Live};
ghost use Rattle.script_text.specs.Orders.{Order};
ghost use Rattle.script_text.specs.Steps.{IsAmong};
ghost use Rattle.script_text.specs.Grammar.{most_bytes};
ghost use Rattle.sim_steps.specs.Stretches.{BreaksOff};
ghost use Rattle.sim_channels.specs.Channels.{Fits, IsSame, bench};
ghost use Rattle.sim_channels.specs.Staging.{HasStage};
ghost use Rattle.sim_channels.specs.Waiting.{IsAtRest, IsAtRestBut};
ghost use Rattle.sim_driver.specs.Commands.{Looked, ObeyedBy};

use crate::places::index_of;
use core_machine::Note;
use device_port::Device;
use machine_desk::Stage;
use maple_base::Bytes;
use packet_workers::Gate;
use sim_channels::{Answer, Driver, Stopped, driving_laws, resting_laws};
use sim_turns::attend::attend;
use sim_turns::note;
use std::sync::Wait;

/// A frame comes to the device at a place by a port, and what that brings about is done. Where the
/// device fails it is left. Where its session isn't open that alone is told.
///
/// # Errors
///
/// `Stopped`.
pub(crate) fn arrive<R: Wait, G: Gate, D: Device>(
    rt: &R,
    gate: &G,
    driver: &mut Driver<'_>,
    devices: &mut [D],
    place: u32,
    port: u16,
    frame: Bytes,
) -> Result<(), Stopped>
    requires fits { Fits driver.old (map D.meaning devices.old) }
    requires rest { IsAtRest driver.old }
    requires among { IsAmong (length devices.old) place }
    requires short { length frame ≤ most_bytes }
    ensures fits { OnOk result (Fits driver.new (map D.meaning devices.new)) }
    ensures rest { OnOk result (IsAtRest driver.new) }
    ensures obeyed { OnOk result (ObeyedBy (Order.Arrival place port frame) driver.old (map D.meaning devices.old) driver.new (map D.meaning devices.new)) }
    ensures broken { OnErr result (BreaksOff (bench driver.old (map D.meaning devices.old)) driver.new.desk.past) }
    ensures same { IsSame driver.old driver.new }
{
    resting_laws();
    let at = index_of(place);
    match driver.stage(at) {
        Stage::Live => {
            if look(rt, driver, devices, at, port, frame)? {
                attend(rt, gate, driver, devices, at)
            } else {
                Ok(())
            }
        }
        _ => note(rt, driver, Note::Absent(place)),
    }
}

// A frame comes to the device with this index. Where it fails it is left. Tells whether it appended something to be heard.
fn look<R: Wait, D: Device>(
    rt: &R,
    driver: &mut Driver<'_>,
    devices: &mut [D],
    at: usize,
    port: u16,
    frame: Bytes,
) -> Result<bool, Stopped>
    requires fits { Fits driver.old (map D.meaning devices.old) }
    requires rest { IsAtRest driver.old }
    requires live { HasStage at Live driver.old }
    requires within { at < length devices.old }
    requires short { length frame ≤ most_bytes }
    ensures fits { OnOk result (Fits driver.new (map D.meaning devices.new)) }
    ensures rest { OnOk result (IsAtRestBut at driver.new) }
    ensures silent { result ≡ Ok false → IsAtRest driver.new }
    ensures looked { OnOk result (Looked (at + 1) port frame (bench driver.old (map D.meaning devices.old)) (bench driver.new (map D.meaning devices.new))) }
    ensures broken { OnErr result (BreaksOff (bench driver.old (map D.meaning devices.old)) driver.new.desk.past) }
    ensures same { IsSame driver.old driver.new }
{
    driving_laws();
    resting_laws();
    match driver.call(rt, devices, at, port, frame)? {
        Answer::Failed => {
            driver.leave(rt, at)?;
            Ok(false)
        }
        Answer::Spoke => Ok(true),
        Answer::Silent => Ok(false),
    }
}
