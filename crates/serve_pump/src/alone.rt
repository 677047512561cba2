// A run by a driver that works alone.
ghost use Rattle.std.specs.Prelude.{◌≡◌};
ghost use Rattle.history_lock.specs.Passes.{IsPassOf, known, opening as opening_of, parts};
ghost use Rattle.serve_steps.specs.Runs.{HasCause, HasRun};
ghost use Rattle.serve_pump.specs.Ending.{DroveBy};
ghost use Rattle.machine_desk.specs.Openings.{IsOpening};
ghost use Rattle.serve_pump.specs.Beginning.{given_by};

use crate::ending::ending_laws;
use crate::running::at_desk;
use crate::startup::Startup;
use core_machine::Core;
use history_lock::{Hall, Pass};
use machine_desk::{Desk, Opening, close_hall};
use maple_io::{Board, Sink};
use packet_workers::Gate;
use serve_steps::ServeEnd;
use std::alloc::Global;
use std::sync::Wait;

/// A run over the machine of a hall that was just opened; then the hall is closed.
pub(crate) fn alone<R: Wait, B: Board, G: Gate, O: Sink>(
    rt: &R,
    alloc: Global,
    hall: Hall<Core>,
    mut pass: Pass<Core>,
    opening: Opening,
    startup: &Startup<'_>,
    gate: &G,
    board: &mut B,
    out: &mut O,
) -> ServeEnd
    requires hall { IsPassOf hall pass }
    requires opened { IsOpening (known pass) opening }
    requires all { parts pass ≡ 1024 }
    ensures ends { HasRun result (given_by opening.start.value startup.now) (B.tells board.old) (B.tells board.new) (O.tells out.old) (O.tells out.new) }
    ensures cause { HasCause result (B.tells board.old) (B.tells board.new) (O.tells out.old) (O.tells out.new) }
{
    ending_laws();
    let end = at_pass(
        rt, alloc, &hall, &mut pass, opening, startup, gate, board, out,
    )
    .into_end();
    close_hall(hall, pass);
    end
}

// How a run ended, beside the pass that was lent to it.
struct Ended<'p> {
    pass: &'p mut Pass<Core>,
    end: ServeEnd,
}

impl<'p> Ended<'p> {
    // The end alone. The pass is no longer lent: whoever lent it has it as it is then.
    fn into_end(self) -> ServeEnd
        ensures end { result ≡ self.entry.end }
        ensures pass { self.exit.0.now ≡ self.entry.pass.now }
    {
        let Ended { pass: _pass, end } = self;
        end
    }
}

// A run at the desk of a hall that was just opened. The pass that was lent comes back.
fn at_pass<'p, R: Wait, B: Board, G: Gate, O: Sink>(
    rt: &R,
    alloc: Global,
    hall: &'p Hall<Core>,
    pass: &'p mut Pass<Core>,
    opening: Opening,
    startup: &Startup<'_>,
    gate: &G,
    board: &mut B,
    out: &mut O,
) -> Ended<'p>
    requires hall { IsPassOf hall.now pass.now }
    requires opened { IsOpening (known pass.now) opening }
    requires all { parts pass.now ≡ 1024 }
    ensures same_reference { result.pass.ghost_name ≡ pass.entry.ghost_name }
    ensures hall { IsPassOf hall.now result.pass.now × (opening_of result.pass.now ≡ opening_of pass.old) × (parts result.pass.now ≡ parts pass.old) }
    ensures drove { DroveBy result.end (given_by opening.start.value startup.now) opening.start.value (known result.pass.now)
        (B.tells board.old) (B.tells board.new) (O.tells out.old) (O.tells out.new) }
{
    let desk = Desk::new(hall, pass, opening);
    let (desk, _, end) = at_desk(rt, alloc, desk, None, startup, gate, board, out);
    let pass = desk.end();
    Ended { pass, end }
}
