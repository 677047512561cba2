// What a turn asks for.
ghost use Rattle.std.specs.Prelude.{◌≡◌, [], true, IfOk, OnOk, length};
ghost use Rattle.maple_io.specs.Turns.{TurnsWithin};
ghost use Rattle.serve_channels.specs.Servers.{IsSame};
ghost use Rattle.serve_pump.specs.Turning.{Comes, EntersBy, IsSomeTurned, ReadsFor};

use crate::Pump;
use machine_desk::Stopped;
use maple_io::Turn;
use packet_workers::Gate;
use std::sync::Wait;

impl<'h> Pump<'h> {
    // What the turn asks for is done, and behind the last one each packet is awaited. Tells whether it was that.
    pub(crate) fn enter_all<R: Wait, G: Gate>(
        &mut self,
        rt: &R,
        gate: &G,
        turn: Turn,
    ) -> Result<bool, Stopped>
        requires turned { IsSomeTurned turn self.old.server }
        requires comes { Comes turn }
        requires within { TurnsWithin turn (length self.old.room.items) }
        ensures enters { OnOk result (EntersBy turn self.old self.new) }
        ensures reads { IfOk result (λ ended. ReadsFor turn ended self.old self.new) }
        ensures none { IfOk result (λ ended. ended ≡ true → self.new.server.desk.now.jobs ≡ []) }
        ensures room { self.new.room ≡ self.old.room }
        ensures same { IsSame self.old.server self.new.server }
    {
        let ended = self.enter(rt, gate, turn)?;
        if ended {
            self.server.await_all(rt, gate)?;
        }
        Ok(ended)
    }

    // What the turn asks for is done. Tells whether it was the last.
    fn enter<R: Wait, G: Gate>(&mut self, rt: &R, gate: &G, turn: Turn) -> Result<bool, Stopped>
        requires turned { IsSomeTurned turn self.old.server }
        requires comes { Comes turn }
        requires within { TurnsWithin turn (length self.old.room.items) }
        ensures enters { OnOk result (EntersBy turn self.old self.new) }
        ensures reads { IfOk result (λ ended. ReadsFor turn ended self.old self.new) }
        ensures room { self.new.room ≡ self.old.room }
        ensures same { IsSame self.old.server self.new.server }
    {
        match turn {
            Turn::Opened(number) => {
                self.server.open(rt, number)?;
                Ok(false)
            }
            Turn::Bytes(number, _) => {
                self.server.hear(rt, gate, number)?;
                Ok(false)
            }
            Turn::Closed(number) => {
                self.server.end(rt, number, false)?;
                Ok(false)
            }
            Turn::Broken(number) => {
                self.server.end(rt, number, true)?;
                Ok(false)
            }
            Turn::Control(count) => {
                self.server
                    .control(rt, &mut self.reader, &self.room[..count])
            }
            Turn::Idle => {
                self.server.work_waiting(rt, gate)?;
                Ok(false)
            }
            Turn::End => {
                self.server.control_end(rt, &mut self.reader)?;
                Ok(true)
            }
            Turn::Failed | Turn::NoMemory => unreachable!(),
        }
    }
}
