// The lines of a script are run.
ghost use Rattle.std.specs.Prelude.{◌≡◌, ◌≢◌, ◌+◌, ◌^◌, ◌<◌, None, map, length};
ghost use Rattle.maple_io.specs.Views.{NoWriteFailed, WriteFailed};
ghost use Rattle.machine_desk.specs.Desks.{SameHall};
ghost use Rattle.machine_desk.specs.Crews.{MayHave, SameCrew};
ghost use Rattle.sim_channels.specs.Channels.{IsSame};
ghost use Rattle.sim_driver.specs.Passes.{DeedLaws, DroveAt, EndsAt, IsOpened, IsOpenedOver, end_of, given_by, with_memory};
ghost use Rattle.sim_driver.specs.Runs.{IsAtRefused, refused_line};

use crate::drive::SimEnd;
use crate::finishing::finish;
use crate::following::follow;
use device_port::Device;
use machine_desk::{Crew, Desk, ReportStop};
use maple_io::Sink;
use packet_workers::Gate;
use script_text::{StepStop, next_order};
use sim_channels::Driver;
use sim_laws::{agreeing_laws, past_law, world_law};
use std::alloc::Global;
use std::sync::Wait;

/// Runs the lines of a script at a desk whose machine is ahead of its first entry, beside these workers or alone. Where
/// memory ran out in a call of the desk's own, that is how it ends.
pub(crate) fn at_desk<'p, R: Wait, D: Device, O: Sink, G: Gate>(
    rt: &R,
    alloc: Global,
    desk: Desk<'p>,
    crew: Option<Crew<'p>>,
    script: &[u8],
    first: u32,
    devices: &mut [D],
    gate: &G,
    to: &mut O,
) -> (Desk<'p>, Option<Crew<'p>>, SimEnd)
    requires opened { IsOpenedOver desk (map D.meaning devices.old) }
    requires crew { MayHave crew desk.footing.parts desk.now }
    requires numbers { first + length script.now < 2 ^ 32 }
    ensures same { SameHall desk.entry.footing result.0.footing }
    ensures crew { SameCrew crew.entry result.1 }
    ensures drove { DroveAt result.2 (given_by desk.entry.now (map D.meaning devices.old) script.now first) (refused_line (length devices.old) first script.now)
        result.0 (map D.meaning devices.new) (O.tells to.old) (O.tells to.new) }
{
    deed_laws();
    match Driver::new(alloc, desk, crew, devices) {
        Ok(mut driver) => {
            let end = run_lines(rt, alloc, gate, &mut driver, script, first, devices, to);
            let end = with_memory(end, driver.had_memory());
            driver.law();
            let (desk, crew) = driver.into_parts();
            (desk, crew, end)
        }
        Err((desk, crew)) => (desk, crew, SimEnd::NoMemory),
    }
}

// How a run ended whose lines ended so, by whether memory sufficed.
fn with_memory(end: SimEnd, had: bool) -> SimEnd
    ensures { result ≡ with_memory end had }
{
    match end {
        SimEnd::Done | SimEnd::Script { .. } if !had => SimEnd::NoMemory,
        end => end,
    }
}

// Runs the lines of a script over a machine ahead of its first entry, and devices; behind them all that is left to do is done.
fn run_lines<R: Wait, G: Gate, D: Device, O: Sink>(
    rt: &R,
    alloc: Global,
    gate: &G,
    driver: &mut Driver<'_>,
    script: &[u8],
    first: u32,
    devices: &mut [D],
    to: &mut O,
) -> SimEnd
    requires opened { IsOpened driver.old (map D.meaning devices.old) }
    requires numbers { first + length script.now < 2 ^ 32 }
    ensures same { IsSame driver.old driver.new }
    ensures ends { EndsAt result (given_by driver.old.desk.now (map D.meaning devices.old) script.now first) driver.new.desk
        (map D.meaning devices.new) (O.tells to.old) (O.tells to.new) }
    ensures done { result ≡ SimEnd.Done → refused_line (length devices.old) first script.now ≡ None }
    ensures script { IsAtRefused result (refused_line (length devices.old) first script.now) }
    ensures fault { result ≡ SimEnd.WriteFault → WriteFailed (O.tells to.old) (O.tells to.new) }
    ensures spared { result ≢ SimEnd.WriteFault → NoWriteFailed (O.tells to.old) (O.tells to.new) }
{
    deed_laws();
    let places = devices.len() as u32;
    let mut rest = script;
    let mut line = first;
    let end = loop {
        if rest.is_empty() {
            break SimEnd::Done;
        }
        let next = match next_order(alloc, rest, places) {
            Ok(next) => next,
            Err(StepStop::End) => break SimEnd::Done,
            Err(StepStop::Refused(kind)) => break SimEnd::Script { line, kind },
            Err(StepStop::NoMemory) => return SimEnd::NoMemory,
        };
        match follow(rt, gate, driver, devices, next.step, next.text, to) {
            Ok(()) => {}
            Err(stop) => {
                driver.law();
                return end_of(stop);
            }
        }
        rest = next.rest;
        line += next.passed as u32;
    };
    match finish(rt, gate, driver, devices, to) {
        Ok(()) => end,
        Err(stop) => {
            driver.law();
            end_of(stop)
        }
    }
}

// What holds of all deeds.
pub(crate) fn deed_laws()
    ensures { DeedLaws }
{
    agreeing_laws();
    world_law();
    past_law();
}

// How a run ends where a step wasn't followed to its end.
fn end_of(stop: ReportStop) -> SimEnd
    ensures { result ≡ end_of stop }
{
    match stop {
        ReportStop::Failed => SimEnd::WriteFault,
        ReportStop::NoMemory => SimEnd::NoMemory,
        ReportStop::Worn => SimEnd::Worn,
    }
}
