// A run by a driver beside workers.
ghost use Rattle.std.specs.Prelude.{◌≡◌, ◌≢◌, ◌≤◌, IfSome, MatchOption};
ghost use Rattle.history_lock.specs.Passes.{IsPassOf, known, leads, opening as opening_of, parts};
ghost use Rattle.worker_crew.specs.Takers.{IsTakerOf, shares};
ghost use Rattle.machine_desk.specs.Crews.{most_workers};
ghost use Rattle.serve_steps.specs.Runs.{HasCause, HasRun};
ghost use Rattle.serve_pump.specs.Ending.{DroveBy, joined};
ghost use Rattle.machine_desk.specs.Openings.{IsOpening, IsOpeningBeside};
ghost use Rattle.serve_pump.specs.Beginning.{given_by};

use crate::ending::ending_laws;
use crate::resting::tell_rest;
use crate::running::at_desk;
use crate::startup::Startup;
use core_machine::{Core, JobItem};
use history_lock::{Hall, Pass};
use machine_desk::{Crew, Desk, Opening, QUEUE_PLACES, close_hall};
use maple_io::{Board, Sink};
use packet_workers::{Gate, PacketWorks};
use serve_steps::ServeEnd;
use std::alloc::Global;
use std::sync::Wait;
use std::thread::Threads;
use worker_crew::{Drives, GaveUp, JobPass, Jobs, Lobby, with_workers};

/// How a run ended, beside what was lent to it.
pub(crate) struct Returned<'d, B, O> {
    board: &'d mut B,
    out: &'d mut O,
    end: ServeEnd,
}

impl<'d, B, O> Returned<'d, B, O> {
    /// The end alone. The board and the sink are no longer lent: whoever lent them has them as they are then.
    pub(crate) fn into_end(self) -> ServeEnd
        ensures end { result ≡ self.entry.end }
        ensures board { self.exit.0.now ≡ self.entry.board.now }
        ensures out { self.exit.1.0.now ≡ self.entry.out.now }
    {
        let Returned {
            board: _board,
            out: _out,
            end,
        } = self;
        end
    }
}

/// A run over the machine of a hall that was just opened, beside so many workers. Behind all of them, where the board failed,
/// what the report gained since is written; then the hall is closed. What was lent comes back.
pub(crate) fn crewed<'d, R: Threads + Wait + Sync, B: Board, G: Gate + Sync, O: Sink>(
    rt: &R,
    alloc: Global,
    hall: Hall<Core>,
    pass: Pass<Core>,
    opening: Opening,
    workers: u32,
    startup: &'d Startup<'d>,
    gate: &'d G,
    board: &'d mut B,
    out: &'d mut O,
) -> Returned<'d, B, O>
    requires hall { IsPassOf hall pass }
    requires opened { IsOpening (known pass) opening }
    requires beside { (opening.start.value.settings.workers ≢ 0) × (workers ≤ most_workers) }
    requires all { parts pass ≡ 1024 }
    ensures same_board { result.board.ghost_name ≡ board.entry.ghost_name }
    ensures same_sink { result.out.ghost_name ≡ out.entry.ghost_name }
    ensures ends { HasRun result.end (given_by opening.start.value startup.now)
        (B.tells board.old) (B.tells result.board.now) (O.tells out.old) (O.tells result.out.now) }
    ensures cause { HasCause result.end (B.tells board.old) (B.tells result.board.now) (O.tells out.old) (O.tells result.out.now) }
{
    ending_laws();
    let Ok((jobs, taker)) = Jobs::<JobItem>::new(alloc, QUEUE_PLACES) else {
        close_hall(hall, pass);
        return Returned {
            board,
            out,
            end: ServeEnd::NoMemory,
        };
    };
    let lobby = Lobby::new();
    let works = PacketWorks {
        alloc,
        budget: opening.budget,
        gate,
    };
    let run = Run {
        alloc,
        opening: Some(opening),
        startup,
        gate,
        board,
        out,
        end: ServeEnd::NoMemory,
    };
    let (mut pass, _taker, outcome, mut run) = with_workers(
        rt, &hall, pass, &jobs, taker, &lobby, &works, run, workers,
    );
    let end = joined(run.end, outcome);
    let end = tell_rest(rt, &hall, &mut pass, end, run.out);
    close_hall(hall, pass);
    Returned {
        board: run.board,
        out: run.out,
        end,
    }
}

// How a run ended whose driver ended so, and whose workers did so.
fn joined(end: ServeEnd, outcome: Result<(), GaveUp>) -> ServeEnd
    ensures { result ≡ joined end outcome }
{
    match (end, outcome) {
        (ServeEnd::Done | ServeEnd::Script { .. }, Err(GaveUp::NoMemory)) => ServeEnd::NoMemory,
        (ServeEnd::Done | ServeEnd::Script { .. }, Err(GaveUp::Worn)) => ServeEnd::Worn,
        (end, _) => end,
    }
}

/// A run beside workers, and how it ended.
#[derive(Drop)]
pub(crate) struct Run<'d, B, G, O> {
    alloc: Global,
    /// None once it ran.
    opening: Option<Opening>,
    startup: &'d Startup<'d>,
    gate: &'d G,
    board: &'d mut B,
    out: &'d mut O,
    end: ServeEnd,
}

impl<'d, B: Board, G: Gate, O: Sink> Drives<Core, JobItem> for Run<'d, B, G, O> {
    ghost ready = { λ d k a. MatchOption d.opening ⊥ (IsOpeningBeside k) };

    ghost drives = { λ d e k a l b.
        (e.board.ghost_name ≡ d.board.ghost_name) × (e.out.ghost_name ≡ d.out.ghost_name)
        × IfSome d.opening (λ o. DroveBy e.end (given_by o.start.value d.startup.now) o.start.value l
        (B.tells d.board.now) (B.tells e.board.now) (O.tells d.out.now) (O.tells e.out.now)) };

    fn drive<R: Wait>(
        &mut self,
        rt: &R,
        hall: &Hall<Core>,
        pass: &mut Pass<Core>,
        jobs: &Jobs<JobItem>,
        taker: &mut JobPass<JobItem>,
        lobby: &Lobby,
    ) {
        let Some(opening) = self.opening.take() else {
            unreachable!()
        };
        self.end = at_passes(
            rt,
            self.alloc,
            hall,
            pass,
            jobs,
            taker,
            lobby,
            opening,
            self.startup,
            self.gate,
            self.board,
            self.out,
        )
        .into_end();
    }
}

// How a run beside workers ended, beside the passes that were lent to it.
struct EndedBeside<'p> {
    pass: &'p mut Pass<Core>,
    taker: &'p mut JobPass<JobItem>,
    end: ServeEnd,
}

impl<'p> EndedBeside<'p> {
    // The end alone. The passes are no longer lent.
    fn into_end(self) -> ServeEnd
        ensures end { result ≡ self.entry.end }
        ensures pass { self.exit.0.now ≡ self.entry.pass.now }
        ensures taker { self.exit.1.0.now ≡ self.entry.taker.now }
    {
        let EndedBeside {
            pass: _pass,
            taker: _taker,
            end,
        } = self;
        end
    }
}

// A run at the desk of a hall that was just opened, beside a crew. The passes that were lent come back.
fn at_passes<'p, R: Wait, B: Board, G: Gate, O: Sink>(
    rt: &R,
    alloc: Global,
    hall: &'p Hall<Core>,
    pass: &'p mut Pass<Core>,
    jobs: &'p Jobs<JobItem>,
    taker: &'p mut JobPass<JobItem>,
    lobby: &'p Lobby,
    opening: Opening,
    startup: &Startup<'_>,
    gate: &G,
    board: &mut B,
    out: &mut O,
) -> EndedBeside<'p>
    requires hall { IsPassOf hall.now pass.now × IsTakerOf jobs.now taker.now }
    requires opened { IsOpening (known pass.now) opening }
    requires beside { opening.start.value.settings.workers ≢ 0 }
    ensures same_pass { result.pass.ghost_name ≡ pass.entry.ghost_name }
    ensures same_taker { result.taker.ghost_name ≡ taker.entry.ghost_name }
    ensures hall { IsPassOf hall.now result.pass.now × (opening_of result.pass.now ≡ opening_of pass.old) × (parts result.pass.now ≡ parts pass.old) }
    ensures leads { leads result.pass.now ≡ leads pass.old }
    ensures taker { IsTakerOf jobs.now result.taker.now × (shares result.taker.now ≡ shares taker.old) }
    ensures drove { DroveBy result.end (given_by opening.start.value startup.now) opening.start.value (known result.pass.now)
        (B.tells board.old) (B.tells board.new) (O.tells out.old) (O.tells out.new) }
{
    let desk = Desk::new(hall, pass, opening);
    let crew = Crew::new(jobs, taker, lobby);
    let (desk, crew, end) = at_desk(rt, alloc, desk, Some(crew), startup, gate, board, out);
    let Some(crew) = crew else { unreachable!() };
    let pass = desk.end();
    let taker = crew.end();
    EndedBeside { pass, taker, end }
}
