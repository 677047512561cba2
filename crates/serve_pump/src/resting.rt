// The rest of the report, behind all workers.
ghost use Rattle.std.specs.Prelude.{◌≡◌, IsTrue};
ghost use Rattle.history_lock.specs.Passes.{IsPassOf, known, leads, opening, parts};
ghost use Rattle.serve_pump.specs.Resting.{RestsBy};

use core_machine::Core;
use history_lock::{Hall, Pass};
use machine_desk::{ReportStop, write_rest};
use maple_io::Sink;
use serve_steps::ServeEnd;
use std::sync::Wait;

/// Where the board failed: what the report gained since is taken and written, by the pass that has all parts. Tells how the run
/// ends then.
pub(crate) fn tell_rest<R: Wait, O: Sink>(
    rt: &R,
    hall: &Hall<Core>,
    pass: &mut Pass<Core>,
    end: ServeEnd,
    out: &mut O,
) -> ServeEnd
    requires hall { IsPassOf hall.now pass.old }
    requires leads { IsTrue (leads pass.old) }
    ensures stays { IsPassOf hall.now pass.new × (opening pass.new ≡ opening pass.old) × (parts pass.new ≡ parts pass.old) }
    ensures rests { RestsBy end result (known pass.old) (known pass.new) (O.tells out.old) (O.tells out.new) }
{
    if end != ServeEnd::BoardFault {
        return end;
    }
    match write_rest(rt, hall, pass, out) {
        Ok(()) => ServeEnd::BoardFault,
        Err(ReportStop::Failed) => ServeEnd::WriteFault,
        Err(ReportStop::NoMemory) => ServeEnd::NoMemory,
        Err(ReportStop::Worn) => ServeEnd::Worn,
    }
}
