// A run begins.
ghost use Rattle.std.specs.Prelude.{◌≡◌, ◌≢◌, [], Err, IfOk, List, OnErr, OnOk};
ghost use Rattle.maple_io.specs.declared.act.Act.{Act};
ghost use Rattle.maple_io.specs.Boards.{NoBoardFailed};
ghost use Rattle.maple_io.specs.Views.{NoWriteFailed, WriteFailed};
ghost use Rattle.board_lines.specs.Readings.{beginning};
ghost use Rattle.serve_steps.specs.Texts.{script_asks};
ghost use Rattle.serve_channels.specs.Controlling.{AnswersAhead, script_end};
ghost use Rattle.serve_channels.specs.Keeping.{Goes, IsServing};
ghost use Rattle.serve_channels.specs.Servers.{IsSame};
ghost use Rattle.serve_channels.specs.Starting.{IsFresh};
ghost use Rattle.serve_pump.specs.Beginning.{BeginsWith, BreaksWith, FailsWith, ListensBy};
ghost use Rattle.serve_pump.specs.declared.pump.TurnStop.TheVariants as stops;

use crate::laws::begin_laws;
use crate::pump::stopped_by;
use crate::startup::{Begun, Startup};
use crate::{Pump, TurnStop};
use machine_desk::Stopped;
use maple_io::{Board, Sink, Started};
use packet_workers::Gate;
use serve_channels::ScriptEnd;
use std::sync::Wait;

impl<'h> Pump<'h> {
    /// The lines of the start script are carried out, up to `quit` or to a line that is refused; then no packet waits, and
    /// what the report gained is written. Where the script came to its end the board begins to listen.
    ///
    /// # Errors
    ///
    /// `TurnStop`; the board, where it doesn't begin to listen.
    pub(crate) fn begin<R: Wait, B: Board, G: Gate, O: Sink>(
        &mut self,
        rt: &R,
        gate: &G,
        board: &mut B,
        startup: &Startup<'_>,
        out: &mut O,
    ) -> Result<Begun, TurnStop>
        requires fresh { IsFresh self.old.server }
        requires reader { self.old.reader ≡ beginning }
        ensures begins { IfOk result (λ how.
            BeginsWith startup.now how self.old.server (B.tells board.old) self.new (B.tells board.new) (O.tells out.old) (O.tells out.new)) }
        ensures breaks { OnErr result
            (BreaksWith startup.now self.old.server (B.tells board.old) self.new (B.tells board.new) (O.tells out.old) (O.tells out.new)) }
        ensures failed { result ≡ Err stops.Board
            → FailsWith startup.now self.old.server (B.tells board.old) self.new (B.tells board.new) (O.tells out.old) (O.tells out.new) }
        ensures spared { result ≢ Err stops.Board → NoBoardFailed (B.tells board.old) (B.tells board.new) }
        ensures write { result ≡ Err stops.Write → WriteFailed (O.tells out.old) (O.tells out.new) }
        ensures no_write { result ≢ Err stops.Write → NoWriteFailed (O.tells out.old) (O.tells out.new) }
        ensures serving { OnOk result (IsServing (B.tells board.new).log self.new.server) }
        ensures room { self.new.room ≡ self.old.room }
        ensures same { IsSame self.old.server self.new.server }
    {
        begin_laws();
        let carried = self.carry_out(rt, gate, startup);
        self.server.law();
        let end = carried?;
        let reported = self.server.report(rt, out);
        self.server.law();
        match reported {
            Ok(()) => self.listen(board, startup, end),
            Err(stop) => Err(stopped_by(stop)),
        }
    }

    // The lines of the start script are carried out. Tells how it ended.
    fn carry_out<R: Wait, G: Gate>(
        &mut self,
        rt: &R,
        gate: &G,
        startup: &Startup<'_>,
    ) -> Result<ScriptEnd, Stopped>
        requires fresh { IsFresh self.old.server }
        ensures goes { OnOk result ((log : List Act)
            → Goes (AnswersAhead (script_asks startup.now.first_line startup.now.script.now)) self.old.server log self.new.server log) }
        ensures end { IfOk result (λ end. end ≡ script_end startup.now.first_line startup.now.script.now) }
        ensures none { OnOk result (self.new.server.desk.now.jobs ≡ []) }
        ensures connections { self.new.server.connections ≡ self.old.server.connections }
        ensures rest { self.new ≡ record self.old { server = self.new.server } }
        ensures same { IsSame self.old.server self.new.server }
    {
        begin_laws();
        let end = self.server.script(rt, startup.script, startup.first_line)?;
        self.server.await_all(rt, gate)?;
        Ok(end)
    }

    // Where the script came to its end the board begins to listen.
    fn listen<B: Board>(
        &self,
        board: &mut B,
        startup: &Startup<'_>,
        end: ScriptEnd,
    ) -> Result<Begun, TurnStop>
        ensures { ListensBy result end startup.now self.now.server (B.tells board.old) (B.tells board.new) }
    {
        match end {
            ScriptEnd::Quit => Ok(Begun::Quit),
            ScriptEnd::Refused { line, kind } => Ok(Begun::Refused { line, kind }),
            ScriptEnd::Whole => {
                match self.server.start(board, startup.listen, startup.control) {
                    Started::Ready => Ok(Begun::Listening),
                    Started::Failed => Err(TurnStop::Board),
                }
            }
        }
    }
}
