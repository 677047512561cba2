// A script is run by a driver beside workers.
ghost use Rattle.std.specs.Prelude.{◌≡◌, ◌≢◌, ◌+◌, ◌^◌, ◌<◌, ◌≤◌, IfSome, MatchOption, None, map, length};
ghost use Rattle.maple_io.specs.Views.{NoWriteFailed, WriteFailed};
ghost use Rattle.history_lock.specs.Passes.{IsPassOf, known, leads, opening as opening_of, parts};
ghost use Rattle.sim_steps.specs.Benches.{IsSolo};
ghost use Rattle.worker_crew.specs.Takers.{IsTakerOf, shares};
ghost use Rattle.sim_driver.specs.Crewing.{IsBegun};
ghost use Rattle.sim_driver.specs.Passes.{DroveFrom, EndsFrom, IsOpeningOver, joined};
ghost use Rattle.machine_desk.specs.Crews.{most_workers};
ghost use Rattle.sim_driver.specs.Runs.{IsAtRefused, refused_line};

use crate::drive::SimEnd;
use crate::lines::{at_desk, deed_laws};
use core_machine::{Core, JobItem};
use device_port::Device;
use history_lock::{Hall, Pass};
use machine_desk::{Crew, Desk, Opening, QUEUE_PLACES, close_hall, hearing_laws};
use machine_sharing::{between_laws, legal_laws};
use maple_io::Sink;
use packet_workers::{Gate, PacketWorks};
use std::alloc::Global;
use std::sync::Wait;
use std::thread::Threads;
use worker_crew::{Drives, GaveUp, JobPass, Jobs, Lobby, with_workers};

/// How a run ended, beside what was lent to it.
pub(crate) struct Returned<'d, D, O> {
    devices: &'d mut [D],
    to: &'d mut O,
    end: SimEnd,
}

impl<'d, D, O> Returned<'d, D, O> {
    /// The end alone. The devices and the sink are no longer lent: whoever lent them has them as they are then.
    pub(crate) fn into_end(self) -> SimEnd
        ensures end { result ≡ self.entry.end }
        ensures devices { self.exit.0.now ≡ self.entry.devices.now }
        ensures to { self.exit.1.0.now ≡ self.entry.to.now }
    {
        let Returned {
            devices: _devices,
            to: _to,
            end,
        } = self;
        end
    }
}

/// Runs the lines of a script over the machine of a hall that was just opened, and devices, beside so many workers; then
/// the hall is closed. What was lent comes back.
pub(crate) fn crewed<'d, R: Threads + Wait + Sync, D: Device, O: Sink, G: Gate + Sync>(
    rt: &R,
    alloc: Global,
    hall: Hall<Core>,
    pass: Pass<Core>,
    opening: Opening,
    workers: u32,
    script: &'d [u8],
    first: u32,
    devices: &'d mut [D],
    gate: &'d G,
    to: &'d mut O,
) -> Returned<'d, D, O>
    requires hall { IsPassOf hall pass }
    requires opened { IsOpeningOver (known pass) opening (map D.meaning devices.now) }
    requires beside { (IsSolo opening.start.value → ⊥) × (workers ≤ most_workers) }
    requires all { parts pass ≡ 1024 }
    requires numbers { first + length script.now < 2 ^ 32 }
    ensures same_devices { result.devices.ghost_name ≡ devices.entry.ghost_name }
    ensures same_sink { result.to.ghost_name ≡ to.entry.ghost_name }
    ensures ends { EndsFrom result.end opening.start.value (map D.meaning devices.old) script.now first (map D.meaning result.devices.now)
        (O.tells to.old) (O.tells result.to.now) }
    ensures done { result.end ≡ SimEnd.Done → refused_line (length devices.old) first script.now ≡ None }
    ensures script { IsAtRefused result.end (refused_line (length devices.old) first script.now) }
    ensures fault { result.end ≡ SimEnd.WriteFault → WriteFailed (O.tells to.old) (O.tells result.to.now) }
    ensures spared { result.end ≢ SimEnd.WriteFault → NoWriteFailed (O.tells to.old) (O.tells result.to.now) }
{
    deed_laws();
    legal_laws();
    between_laws();
    hearing_laws();
    let Ok((jobs, taker)) = Jobs::<JobItem>::new(alloc, QUEUE_PLACES) else {
        close_hall(hall, pass);
        return Returned {
            devices,
            to,
            end: SimEnd::NoMemory,
        };
    };
    let lobby = Lobby::new();
    let works = PacketWorks {
        alloc,
        budget: opening.budget,
        gate,
    };
    let run = Run {
        alloc,
        opening: Some(opening),
        script,
        first,
        devices,
        gate,
        to,
        end: SimEnd::NoMemory,
    };
    let (pass, _taker, outcome, run) = with_workers(
        rt, &hall, pass, &jobs, taker, &lobby, &works, run, workers,
    );
    close_hall(hall, pass);
    Returned {
        devices: run.devices,
        to: run.to,
        end: joined(run.end, outcome),
    }
}

// How a run ended whose driver ended so, and whose workers did so.
fn joined(end: SimEnd, outcome: Result<(), GaveUp>) -> SimEnd
    ensures { result ≡ joined end outcome }
{
    match (end, outcome) {
        (SimEnd::Done | SimEnd::Script { .. }, Err(GaveUp::NoMemory)) => SimEnd::NoMemory,
        (SimEnd::Done | SimEnd::Script { .. }, Err(GaveUp::Worn)) => SimEnd::Worn,
        (end, _) => end,
    }
}

/// A script that is run beside workers, and how that ended.
#[derive(Drop)]
pub(crate) struct Run<'d, D, O, G> {
    alloc: Global,
    /// None once it ran.
    opening: Option<Opening>,
    script: &'d [u8],
    first: u32,
    devices: &'d mut [D],
    gate: &'d G,
    to: &'d mut O,
    end: SimEnd,
}

impl<'d, D: Device, O: Sink, G: Gate> Drives<Core, JobItem> for Run<'d, D, O, G> {
    ghost ready = { λ d k a. MatchOption d.opening ⊥ (λ o. IsBegun o (map D.meaning d.devices.now) d.script.now d.first k) };

    ghost drives = { λ d e k a l b.
        (e.devices.ghost_name ≡ d.devices.ghost_name) × (e.to.ghost_name ≡ d.to.ghost_name)
        × IfSome d.opening (λ o. DroveFrom e.end o.start.value (map D.meaning d.devices.now) (length d.devices.now) d.script.now d.first
        (map D.meaning e.devices.now) l (O.tells d.to.now) (O.tells e.to.now)) };

    fn drive<R: Wait>(
        &mut self,
        rt: &R,
        hall: &Hall<Core>,
        pass: &mut Pass<Core>,
        jobs: &Jobs<JobItem>,
        taker: &mut JobPass<JobItem>,
        lobby: &Lobby,
    ) {
        let Some(opening) = self.opening.take() else {
            unreachable!()
        };
        self.end = at_passes(
            rt,
            self.alloc,
            hall,
            pass,
            jobs,
            taker,
            lobby,
            opening,
            self.script,
            self.first,
            self.devices,
            self.gate,
            self.to,
        )
        .into_end();
    }
}

// How a run beside workers ended, beside the passes that were lent to it.
struct EndedBeside<'p> {
    pass: &'p mut Pass<Core>,
    taker: &'p mut JobPass<JobItem>,
    end: SimEnd,
}

impl<'p> EndedBeside<'p> {
    // The end alone. The passes are no longer lent.
    fn into_end(self) -> SimEnd
        ensures end { result ≡ self.entry.end }
        ensures pass { self.exit.0.now ≡ self.entry.pass.now }
        ensures taker { self.exit.1.0.now ≡ self.entry.taker.now }
    {
        let EndedBeside {
            pass: _pass,
            taker: _taker,
            end,
        } = self;
        end
    }
}

// Runs the lines of a script at the desk of a hall that was just opened, beside a crew. The passes that were lent come
// back.
fn at_passes<'p, R: Wait, D: Device, O: Sink, G: Gate>(
    rt: &R,
    alloc: Global,
    hall: &'p Hall<Core>,
    pass: &'p mut Pass<Core>,
    jobs: &'p Jobs<JobItem>,
    taker: &'p mut JobPass<JobItem>,
    lobby: &'p Lobby,
    opening: Opening,
    script: &[u8],
    first: u32,
    devices: &mut [D],
    gate: &G,
    to: &mut O,
) -> EndedBeside<'p>
    requires hall { IsPassOf hall.now pass.now × IsTakerOf jobs.now taker.now }
    requires opened { IsOpeningOver (known pass.now) opening (map D.meaning devices.old) }
    requires beside { IsSolo opening.start.value → ⊥ }
    requires numbers { first + length script.now < 2 ^ 32 }
    ensures same_pass { result.pass.ghost_name ≡ pass.entry.ghost_name }
    ensures same_taker { result.taker.ghost_name ≡ taker.entry.ghost_name }
    ensures hall { IsPassOf hall.now result.pass.now × (opening_of result.pass.now ≡ opening_of pass.old) × (parts result.pass.now ≡ parts pass.old) }
    ensures leads { leads result.pass.now ≡ leads pass.old }
    ensures taker { IsTakerOf jobs.now result.taker.now × (shares result.taker.now ≡ shares taker.old) }
    ensures drove { DroveFrom result.end opening.start.value (map D.meaning devices.old) (length devices.old) script.now first
        (map D.meaning devices.new) (known result.pass.now) (O.tells to.old) (O.tells to.new) }
{
    let desk = Desk::new(hall, pass, opening);
    let crew = Crew::new(jobs, taker, lobby);
    let (desk, crew, end) = at_desk(
        rt,
        alloc,
        desk,
        Some(crew),
        script,
        first,
        devices,
        gate,
        to,
    );
    let Some(crew) = crew else { unreachable!() };
    let pass = desk.end();
    let taker = crew.end();
    EndedBeside { pass, taker, end }
}
