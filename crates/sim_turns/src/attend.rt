// A device is attended to.
ghost use Rattle.std.specs.Prelude.{◌≡◌, ◌<◌, length, map, OnErr, OnOk};
ghost use Rattle.sim_steps.specs.Stretches.{BreaksOff, Carried};
ghost use Rattle.sim_channels.specs.Channels.{Fits, IsSame, bench};
ghost use Rattle.sim_channels.specs.Waiting.{IsAtRest, IsAtRestBut};

use crate::hear::{Reach, hear_all};
use device_port::Device;
use packet_workers::Gate;
use sim_channels::{Driver, Stopped, resting_laws};
use std::sync::Wait;

/// All that came from the device with this index is heard, each packet among it answered or handed over, and what the
/// machine has for any device then is taken out and offered.
///
/// # Errors
///
/// `Stopped`.
pub fn attend<R: Wait, G: Gate, D: Device>(
    rt: &R,
    gate: &G,
    driver: &mut Driver<'_>,
    devices: &mut [D],
    at: usize,
) -> Result<(), Stopped>
    requires fits { Fits driver.old (map D.meaning devices.old) }
    requires within { at < length devices.old }
    requires rest { IsAtRestBut at driver.old }
    ensures fits { OnOk result (Fits driver.new (map D.meaning devices.new)) }
    ensures carried { OnOk result (Carried (bench driver.old (map D.meaning devices.old)) (bench driver.new (map D.meaning devices.new))) }
    ensures rest { OnOk result (IsAtRest driver.new) }
    ensures broken { OnErr result (BreaksOff (bench driver.old (map D.meaning devices.old)) driver.new.desk.past) }
    ensures same { IsSame driver.old driver.new }
{
    resting_laws();
    match hear_all(rt, gate, driver, at)? {
        Reach::Nobody => Ok(()),
        Reach::Itself => driver.deliver(rt, devices, at),
        Reach::Anybody => driver.deliver_all(rt, devices),
    }
}
