// A device takes turns.
ghost use Rattle.std.specs.Prelude.{◌≡◌, ◌≤◌, ◌<◌, ◌+◌, map, length, IfOk, OnErr, OnOk};
ghost use Rattle.script_text.specs.Orders.Order.{Turn};
ghost use Rattle.script_text.specs.Steps.{IsAmong};
ghost use Rattle.sim_steps.specs.Parts.{has_dealt};
ghost use Rattle.sim_steps.specs.Stretches.{BreaksOff, Obeyed};
ghost use Rattle.sim_channels.specs.Channels.{Fits, IsSame, bench};
ghost use Rattle.sim_channels.specs.Waiting.{IsAtRest, IsAtRestBut};
ghost use Rattle.sim_channels.specs.Turns.{Waits};
ghost use Rattle.sim_turns.specs.Taking.{IsTold, TakesOneBy, TakesTurnAt, TakesTurnsBy, Tires};

use crate::attend::attend;
use crate::noting::note;
use crate::telling::tell_turn;
use core_machine::Note;
use device_port::Device;
use maple_base::{NoMemory, Turned};
use packet_workers::Gate;
use sim_channels::{Driver, Stopped, driving_laws, resting_laws};
use std::sync::Wait;

/// The device with this index, in which a message waits, takes a turn, and what that brings about is
/// done. Where it fails it is left.
///
/// # Errors
///
/// `Stopped`.
pub(crate) fn take_turn<R: Wait, G: Gate, D: Device>(
    rt: &R,
    gate: &G,
    driver: &mut Driver<'_>,
    devices: &mut [D],
    at: usize,
) -> Result<Turned, Stopped>
    requires fits { Fits driver.old (map D.meaning devices.old) }
    requires rest { IsAtRest driver.old }
    requires waits { Waits at driver.old }
    ensures fits { OnOk result (Fits driver.new (map D.meaning devices.new)) }
    ensures rest { OnOk result (IsAtRest driver.new) }
    ensures taken { IfOk result (λ turned. TakesOneBy at turned driver.old (map D.meaning devices.old) driver.new (map D.meaning devices.new)) }
    ensures tires { IfOk result (λ turned. Tires turned driver.old driver.new) }
    ensures broken { OnErr result (BreaksOff (bench driver.old (map D.meaning devices.old)) driver.new.desk.past) }
    ensures same { IsSame driver.old driver.new }
{
    driving_laws();
    let turned = turn_told(rt, driver, devices, at)?;
    attend(rt, gate, driver, devices, at)?;
    Ok(turned)
}

/// The device with this index, in which a message waits, takes a turn, and the machine is told. Where it
/// fails it is left.
///
/// # Errors
///
/// `Stopped`.
fn turn_told<R: Wait, D: Device>(
    rt: &R,
    driver: &mut Driver<'_>,
    devices: &mut [D],
    at: usize,
) -> Result<Turned, Stopped>
    requires fits { Fits driver.old (map D.meaning devices.old) }
    requires rest { IsAtRest driver.old }
    requires waits { Waits at driver.old }
    ensures told { IfOk result (λ turned. IsTold at turned driver.old driver.new (map D.meaning devices.old) (map D.meaning devices.new)) }
    ensures rest { OnOk result (IsAtRestBut at driver.new) }
    ensures tires { IfOk result (λ turned. Tires turned driver.old driver.new) }
    ensures broken { OnErr result (BreaksOff (bench driver.old (map D.meaning devices.old)) driver.new.desk.past) }
    ensures same { IsSame driver.old driver.new }
{
    let mut bytes = Vec::new(driver.alloc());
    let turned = turn_at(devices, at, &mut bytes)?;
    tell_turn(rt, driver, at, turned, &bytes)?;
    Ok(turned)
}

/// The device with this index takes a turn.
///
/// # Errors
///
/// `NoMemory`, as memory runs out.
fn turn_at<D: Device>(devices: &mut [D], at: usize, out: &mut Vec<u8>) -> Result<Turned, NoMemory>
    requires { at < length devices.old }
    ensures { IfOk result (λ turned. TakesTurnAt at turned (map D.meaning devices.old) out.old.items (map D.meaning devices.new) out.new.items) }
{
    match devices[at].turn(out) {
        Turned::NoMemory => Err(NoMemory),
        turned => Ok(turned),
    }
}

/// One where the turn dealt with a message.
pub(crate) fn dealt(turned: Turned) -> u32
    ensures dealt { result ≡ has_dealt turned }
    ensures most { result ≤ 1 }
{
    match turned {
        Turned::Processed { .. } | Turned::Refused { .. } => 1,
        Turned::Nothing | Turned::Failed | Turned::NoMemory => 0,
    }
}

/// The device at a place takes so many turns, and fewer where no message waits in it any more, or it
/// is left. Where its session isn't open that alone is told.
///
/// # Errors
///
/// `Stopped`.
pub fn turn<R: Wait, G: Gate, D: Device>(
    rt: &R,
    gate: &G,
    driver: &mut Driver<'_>,
    devices: &mut [D],
    place: u32,
    count: u32,
) -> Result<(), Stopped>
    requires fits { Fits driver.old (map D.meaning devices.old) }
    requires rest { IsAtRest driver.old }
    requires among { IsAmong (length devices.old) place }
    ensures fits { OnOk result (Fits driver.new (map D.meaning devices.new)) }
    ensures rest { OnOk result (IsAtRest driver.new) }
    ensures obeyed { OnOk result (Obeyed (Turn place count) (bench driver.old (map D.meaning devices.old)) (bench driver.new (map D.meaning devices.new))) }
    ensures broken { OnErr result (BreaksOff (bench driver.old (map D.meaning devices.old)) driver.new.desk.past) }
    ensures same { IsSame driver.old driver.new }
{
    resting_laws();
    let at = place as usize - 1;
    if !driver.is_plugged_at(at) {
        return note(rt, driver, Note::Absent(place));
    }
    let turns = take_turns(rt, gate, driver, devices, at, count)?;
    note(
        rt,
        driver,
        Note::TurnedAll {
            device: place,
            turns,
        },
    )
}

/// The device with this index takes so many turns, and fewer where no message waits in it any more, or
/// it is left. Tells how many.
///
/// # Errors
///
/// `Stopped`.
fn take_turns<R: Wait, G: Gate, D: Device>(
    rt: &R,
    gate: &G,
    driver: &mut Driver<'_>,
    devices: &mut [D],
    at: usize,
    most: u32,
) -> Result<u32, Stopped>
    requires fits { Fits driver.old (map D.meaning devices.old) }
    requires rest { IsAtRest driver.old }
    requires within { at < length devices.old }
    ensures fits { OnOk result (Fits driver.new (map D.meaning devices.new)) }
    ensures rest { OnOk result (IsAtRest driver.new) }
    ensures taken { IfOk result (λ taken. TakesTurnsBy at taken driver.old (map D.meaning devices.old) driver.new (map D.meaning devices.new)) }
    ensures most { IfOk result (λ taken. taken ≤ most) }
    ensures fewer { IfOk result (λ taken. taken < most → Waits at driver.new → ⊥) }
    ensures broken { OnErr result (BreaksOff (bench driver.old (map D.meaning devices.old)) driver.new.desk.past) }
    ensures same { IsSame driver.old driver.new }
{
    let mut taken = 0;
    while taken < most && driver.is_waiting_at(at) {
        taken += dealt(take_turn(rt, gate, driver, devices, at)?);
    }
    Ok(taken)
}
