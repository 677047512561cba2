// A run of `serve`.
ghost use Rattle.std.specs.Prelude.{◌≤◌};
ghost use Rattle.machine_steps.specs.Sound.{AreInRange};
ghost use Rattle.serve_steps.specs.Runs.{HasCause, HasRun};
ghost use Rattle.serve_steps.specs.Parts.{given};
ghost use Rattle.machine_desk.specs.Crews.{most_workers};

use crate::alone::alone;
use crate::crewed::crewed;
use crate::ending::ending_laws;
use crate::startup::Startup;
use machine_desk::open_hall;
use maple_base::Settings;
use maple_io::{Board, Sink};
use packet_workers::Gate;
use policy_lang::Policy;
use serve_steps::ServeEnd;
use std::alloc::Global;
use std::sync::Wait;
use std::thread::Threads;

/// Serves the switches of a board, and carries out its control text, beside as many workers as the settings say. Each
/// packet's work is told to the gate. The lines of the start script come first, of which the first has this number; unless one
/// of them is `quit` or refused, the board is started, with these ports. Behind each turn what it asks for is done, what the
/// machine has for switches is sent, and what the report gained is written.
pub fn run_serve<R: Threads + Wait + Sync, O: Sink, G: Gate + Sync, B: Board>(
    rt: &R,
    alloc: Global,
    policy: Policy,
    start: &[u8],
    first_line: u32,
    settings: Settings,
    listen: u16,
    control: u16,
    gate: &G,
    out: &mut O,
    board: &mut B,
) -> ServeEnd
    requires ranges { AreInRange settings }
    requires workers { settings.workers ≤ most_workers }
    ensures ends { HasRun result (given policy settings start.now first_line listen control)
        (B.tells board.old) (B.tells board.new) (O.tells out.old) (O.tells out.new) }
    ensures cause { HasCause result (B.tells board.old) (B.tells board.new) (O.tells out.old) (O.tells out.new) }
{
    ending_laws();
    let Ok((hall, pass, opening)) = open_hall(alloc, policy, settings) else {
        return ServeEnd::NoMemory;
    };
    let startup = Startup {
        script: start,
        first_line,
        listen,
        control,
    };
    if settings.workers == 0 {
        return alone(rt, alloc, hall, pass, opening, &startup, gate, board, out);
    }
    crewed(
        rt,
        alloc,
        hall,
        pass,
        opening,
        settings.workers,
        &startup,
        gate,
        board,
        out,
    )
    .into_end()
}
