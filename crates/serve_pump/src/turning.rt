// One turn of the board, and all that is done behind it.
ghost use Rattle.std.specs.Prelude.{◌≡◌, ◌≢◌, ◌<◌, [], Err, IfOk, OnErr, OnOk, length, true};
ghost use Rattle.maple_io.specs.Boards.{NoBoardFailed};
ghost use Rattle.maple_io.specs.Turns.{TurnsWithin};
ghost use Rattle.maple_io.specs.Views.{NoWriteFailed, SinkView, WriteFailed};
ghost use Rattle.serve_channels.specs.Delivering.{AllLive, IsStill};
ghost use Rattle.serve_channels.specs.Keeping.{IsServing};
ghost use Rattle.serve_channels.specs.Servers.{IsSame, IsSameHall};
ghost use Rattle.serve_channels.specs.Stretches.{IsQuietly};
ghost use Rattle.serve_pump.specs.declared.pump.TurnStop.TheVariants as stops;
ghost use Rattle.serve_pump.specs.Running.{BreaksOffBy, FailsAtBoard, TurnsBy};
ghost use Rattle.serve_pump.specs.Turning.{Comes, DeliversBy, FollowsBy, IsReceived, IsTurned, ReadsFor};

use crate::laws::turn_laws;
use crate::pump::stopped_by;
use crate::{Pump, TurnStop};
use machine_desk::Stopped;
use maple_io::{Board, Sink, Turn};
use packet_workers::Gate;
use std::sync::Wait;

impl<'h> Pump<'h> {
    /// The board's next turn: what it asks for is done, what the machine has for the switches is sent, connections whose sessions
    /// are over are closed, and the report is written. Tells whether it was the last: then nothing is left to do.
    ///
    /// # Errors
    ///
    /// `TurnStop`.
    pub fn turn<R: Wait, B: Board, G: Gate, O: Sink>(
        &mut self,
        rt: &R,
        gate: &G,
        board: &mut B,
        out: &mut O,
    ) -> Result<bool, TurnStop>
        requires serving { IsServing (B.tells board.old).log self.old.server }
        requires room { 0 < length self.old.room.items }
        ensures turns { IfOk result
            (λ ended. TurnsBy ended self.old (B.tells board.old).log self.new (B.tells board.new).log (O.tells out.old) (O.tells out.new)) }
        ensures breaks { OnErr result
            (BreaksOffBy self.old (B.tells board.old).log self.new (B.tells board.new).log (O.tells out.old) (O.tells out.new)) }
        ensures failed { result ≡ Err stops.Board
            → FailsAtBoard self.old (B.tells board.old) self.new (B.tells board.new) (O.tells out.old) (O.tells out.new) }
        ensures spared { result ≢ Err stops.Board → NoBoardFailed (B.tells board.old) (B.tells board.new) }
        ensures write { result ≡ Err stops.Write → WriteFailed (O.tells out.old) (O.tells out.new) }
        ensures no_write { result ≢ Err stops.Write → NoWriteFailed (O.tells out.old) (O.tells out.new) }
        ensures serving { OnOk result (IsServing (B.tells board.new).log self.new.server) }
        ensures room { length self.new.room.items ≡ length self.old.room.items }
        ensures same { IsSameHall self.old.server self.new.server }
    {
        turn_laws();
        let turn = match self.next(board) {
            Ok(turn) => turn,
            Err(stop) => return Err(stop),
        };
        self.server.mark();
        let followed = self.follow(rt, gate, board, turn);
        self.server.law();
        let ended = followed?;
        let reported = self.server.report(rt, out);
        self.server.law();
        match reported {
            Ok(()) => Ok(ended),
            Err(stop) => Err(stopped_by(stop)),
        }
    }

    // The board gives its next turn.
    fn next<B: Board>(&mut self, board: &mut B) -> Result<Turn, TurnStop>
        requires serving { IsServing (B.tells board.old).log self.old.server }
        requires room { 0 < length self.old.room.items }
        ensures received { IfOk result (λ turn. IsReceived turn self.old (B.tells board.old) self.new (B.tells board.new)) }
        ensures breaks { OnErr result
            ((to : SinkView) → BreaksOffBy self.old (B.tells board.old).log self.new (B.tells board.new).log to to) }
        ensures failed { result ≡ Err stops.Board
            → (to : SinkView) → FailsAtBoard self.old (B.tells board.old) self.new (B.tells board.new) to to }
        ensures spared { result ≢ Err stops.Board → NoBoardFailed (B.tells board.old) (B.tells board.new) }
        ensures unwritten { result ≢ Err stops.Write }
        ensures room { length self.new.room.items ≡ length self.old.room.items }
        ensures same { IsSame self.old.server self.new.server }
    {
        turn_laws();
        self.server.law();
        match self.server.receive(board, &mut self.room)? {
            Turn::Failed => Err(TurnStop::Board),
            Turn::NoMemory => Err(TurnStop::Stopped),
            turn => Ok(turn),
        }
    }

    // What the turn asks for is done, and then all is delivered. Tells whether it was the last turn.
    fn follow<R: Wait, B: Board, G: Gate>(
        &mut self,
        rt: &R,
        gate: &G,
        board: &mut B,
        turn: Turn,
    ) -> Result<bool, Stopped>
        requires turned { IsTurned turn (B.tells board.old).log self.old.server }
        requires comes { Comes turn }
        requires within { TurnsWithin turn (length self.old.room.items) }
        ensures follows { OnOk result (FollowsBy turn self.old (B.tells board.old).log self.new (B.tells board.new).log) }
        ensures reads { IfOk result (λ ended. ReadsFor turn ended self.old self.new) }
        ensures live { OnOk result (AllLive self.new.server) }
        ensures still { IfOk result (λ ended. ended ≡ true → IsStill self.new.server) }
        ensures quietly { IsQuietly (B.tells board.old).log (B.tells board.new).log }
        ensures faults { NoBoardFailed (B.tells board.old) (B.tells board.new) }
        ensures room { self.new.room ≡ self.old.room }
        ensures same { IsSame self.old.server self.new.server }
    {
        let ended = self.enter_all(rt, gate, turn)?;
        self.deliver(rt, board)?;
        Ok(ended)
    }

    // What the machine has for the switches is sent, and connections whose sessions are over are closed.
    fn deliver<R: Wait, B: Board>(&mut self, rt: &R, board: &mut B) -> Result<(), Stopped>
        requires serving { IsServing (B.tells board.old).log self.old.server }
        ensures delivers { OnOk result (DeliversBy self.old (B.tells board.old).log self.new (B.tells board.new).log) }
        ensures live { OnOk result (AllLive self.new.server) }
        ensures still { OnOk result (self.old.server.desk.now.jobs ≡ [] → IsStill self.new.server) }
        ensures quietly { IsQuietly (B.tells board.old).log (B.tells board.new).log }
        ensures faults { NoBoardFailed (B.tells board.old) (B.tells board.new) }
        ensures rest { self.new ≡ record self.old { server = self.new.server } }
        ensures same { IsSame self.old.server self.new.server }
    {
        self.server.deliver(rt, board)?;
        self.server.close_over(board);
        Ok(())
    }
}
