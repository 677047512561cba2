// Devices take turns till no message waits.
ghost use Rattle.std.specs.Prelude.{◌≡◌, map, OnErr, OnOk};
ghost use Rattle.script_text.specs.Orders.Order.{Settle};
ghost use Rattle.sim_steps.specs.Stretches.{BreaksOff, Obeyed};
ghost use Rattle.sim_channels.specs.Channels.{Fits, IsSame, bench};
ghost use Rattle.sim_channels.specs.Waiting.{IsAtRest};

use crate::noting::note;
use crate::turning::{dealt, take_turn};
use core_machine::Note;
use device_port::Device;
use packet_workers::Gate;
use sim_channels::{Driver, Stopped, driving_laws, resting_laws};
use std::sync::Wait;

/// The most turns of one call.
const MOST_TURNS: u32 = 100_000;

/// The device at the lowest place where a message waits takes a turn, till none waits, or the turns are used up. Ahead of
/// each turn, and of what is told of them, no packet waits, and all is delivered.
///
/// # Errors
///
/// `Stopped`.
pub fn settle<R: Wait, G: Gate, D: Device>(
    rt: &R,
    gate: &G,
    driver: &mut Driver<'_>,
    devices: &mut [D],
) -> Result<(), Stopped>
    requires fits { Fits driver.old (map D.meaning devices.old) }
    requires rest { IsAtRest driver.old }
    ensures fits { OnOk result (Fits driver.new (map D.meaning devices.new)) }
    ensures rest { OnOk result (IsAtRest driver.new) }
    ensures obeyed { OnOk result (Obeyed Settle (bench driver.old (map D.meaning devices.old)) (bench driver.new (map D.meaning devices.new))) }
    ensures broken { OnErr result (BreaksOff (bench driver.old (map D.meaning devices.old)) driver.new.desk.past) }
    ensures same { IsSame driver.old driver.new }
{
    driving_laws();
    resting_laws();
    let mut taken = 0;
    driver.catch_up(rt, gate, devices)?;
    while let Some(at) = driver.lowest_waiting() {
        if taken == MOST_TURNS {
            return note(rt, driver, Note::Unsettled(taken));
        }
        taken += dealt(take_turn(rt, gate, driver, devices, at)?);
        driver.catch_up(rt, gate, devices)?;
    }
    note(rt, driver, Note::Settled(taken))
}
