// How a run is closed.
ghost use Rattle.std.specs.Prelude.{◌≡◌, ◌≢◌};
ghost use Rattle.maple_io.specs.Views.{NoWriteFailed};
ghost use Rattle.report_text.specs.Report.{spelled};
ghost use Rattle.report_text.specs.declared.line.Line.{Line as LineOf};
ghost use Rattle.maple_top.specs.Ends.{ClosesBy, Ends};
ghost use Rattle.maple_top.specs.Outcomes.{end_of};

use crate::finish::{finish, put_text};
use crate::status::Status;
use maple_io::Sink;
use report_text::{Line, ScriptRefusal, write_line};
use serve_steps::ServeEnd;
use sim_driver::SimEnd;
use std::alloc::Global;

/// How a script ended over devices, as a run of `serve` would.
pub fn end_of(end: SimEnd) -> ServeEnd
    ensures { result ≡ end_of end }
{
    match end {
        SimEnd::Done => ServeEnd::Done,
        SimEnd::Script { line, kind } => ServeEnd::Script { line, kind },
        SimEnd::WriteFault => ServeEnd::WriteFault,
        SimEnd::Worn => ServeEnd::Worn,
        SimEnd::NoMemory => ServeEnd::NoMemory,
    }
}

/// Writes the last line of a run that ended so, and gives its status, or `WriteFault` or `NoMemory`
/// where the line can't be written.
pub fn conclude<O: Sink>(alloc: Global, end: ServeEnd, output: &mut O) -> Status
    ensures closes { ClosesBy end (O.tells output.old) (O.tells output.new) result }
    ensures spared { result ≢ Status.WriteFault → NoWriteFailed (O.tells output.old) (O.tells output.new) }
{
    match end {
        ServeEnd::Done => finish(output, Status::Done),
        ServeEnd::Script { line, kind } => refuse(alloc, output, line, kind),
        ServeEnd::WriteFault => Status::WriteFault,
        ServeEnd::BoardFault => finish(output, Status::BoardFault),
        ServeEnd::Worn => finish(output, Status::Worn),
        ServeEnd::NoMemory => Status::NoMemory,
    }
}

// Writes the last line of a script whose line of this number is refused.
fn refuse<O: Sink>(alloc: Global, output: &mut O, line: u32, kind: ScriptRefusal) -> Status
    ensures ends { Ends (O.tells output.old) (O.tells output.new) Status.Script (spelled (LineOf.RefusedScript line kind)) result }
    ensures spared { result ≢ Status.WriteFault → NoWriteFailed (O.tells output.old) (O.tells output.new) }
{
    let mut text = Vec::new(alloc);
    let Ok(()) = write_line(&Line::RefusedScript { line, kind }, &mut text) else {
        return Status::NoMemory;
    };
    put_text(output, &text, Status::Script)
}
