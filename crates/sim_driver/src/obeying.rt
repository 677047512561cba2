// An order of a script is obeyed.
ghost use Rattle.std.specs.Prelude.{◌≡◌, map, length, OnErr, OnOk};
ghost use Rattle.script_text.specs.Steps.{IsKept as IsKeptStep, order_with};
ghost use Rattle.sim_steps.specs.Stretches.{BreaksOff};
ghost use Rattle.sim_channels.specs.Channels.{Fits, IsSame, bench};
ghost use Rattle.sim_channels.specs.Waiting.{IsAtRest};
ghost use Rattle.sim_driver.specs.Commands.{ObeyedBy};

use crate::arriving::arrive;
use crate::changing::{change, list_rules, renew};
use crate::plugging::{plug, unplug};
use device_port::Device;
use packet_workers::Gate;
use script_text::Step;
use sim_channels::{Driver, Stopped, resting_laws};
use sim_turns::{settle, turn};
use std::sync::Wait;

/// Does what a step of a script asks for, of a new policy with the text behind it, and all that this
/// brings about.
///
/// # Errors
///
/// `Stopped`.
pub(crate) fn obey<R: Wait, G: Gate, D: Device>(
    rt: &R,
    gate: &G,
    driver: &mut Driver<'_>,
    devices: &mut [D],
    step: Step,
    text: &[u8],
) -> Result<(), Stopped>
    requires fits { Fits driver.old (map D.meaning devices.old) }
    requires rest { IsAtRest driver.old }
    requires step { IsKeptStep (length devices.old) step }
    ensures fits { OnOk result (Fits driver.new (map D.meaning devices.new)) }
    ensures rest { OnOk result (IsAtRest driver.new) }
    ensures obeyed { OnOk result (ObeyedBy (order_with step text.now) driver.old (map D.meaning devices.old) driver.new (map D.meaning devices.new)) }
    ensures broken { OnErr result (BreaksOff (bench driver.old (map D.meaning devices.old)) driver.new.desk.past) }
    ensures same { IsSame driver.old driver.new }
{
    resting_laws();
    match step {
        Step::Nothing => Ok(()),
        Step::Plug(place) => plug(rt, driver, devices, place),
        Step::Unplug(place) => unplug(rt, driver, place),
        Step::Arrival { place, port, frame } => arrive(
            rt, gate, driver, devices, place, port, frame,
        ),
        Step::Turn { place, turns } => turn(rt, gate, driver, devices, place, turns),
        Step::Settle => settle(rt, gate, driver, devices),
        Step::Change(update) => change(rt, driver, devices, update),
        Step::NewPolicy => renew(rt, driver, devices, text),
        Step::Rules(switch) => list_rules(rt, driver, switch),
    }
}
