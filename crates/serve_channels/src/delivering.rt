// What the machine has for connections is taken out and sent.
ghost use Rattle.std.specs.Prelude.{◌≡◌, ◌<◌, [], IfOk, OnOk, length};
ghost use Rattle.maple_io.specs.Boards.{NoBoardFailed};
ghost use Rattle.board_lines.specs.Deliveries.{is_failed_reach};
ghost use Rattle.machine_desk.specs.Orders.{Asks};
ghost use Rattle.machine_steps.specs.declared.entry.Entry.TheVariants as entries;
ghost use Rattle.machine_steps.specs.declared.reply.Reply.TheVariants as replies;
ghost use Rattle.serve_channels.specs.Delivering.{Empties, EmptiesAll, FewerUnfailed, IsStill, OthersStay, SendsOut, ServesAll, ServesAt, TakesOut};
ghost use Rattle.serve_channels.specs.Keeping.{Goes, IsServing};
ghost use Rattle.serve_channels.specs.Servers.{IsSame, SameNumbers};
ghost use Rattle.serve_channels.specs.Stretches.{IsQuietly};

use crate::{Server, serving_laws};
use board_lines::{Reach, send_all};
use core_machine::{Entry, Reply};
use machine_desk::Stopped;
use maple_base::Bytes;
use maple_io::Board;
use std::sync::Wait;

impl<'h> Server<'h> {
    /// What the machine has for each connection is taken out and sent, in rounds, until no send fails in one; a failed send
    /// ends a session. Where no packet waits the machine then has nothing for any open session, and none waits behind it.
    ///
    /// # Errors
    ///
    /// `Stopped`.
    pub fn deliver<R: Wait, B: Board>(&mut self, rt: &R, board: &mut B) -> Result<(), Stopped>
        requires serving { IsServing (B.tells board.old).log self.old }
        ensures goes { OnOk result (Goes (ServesAll self.new) self.old (B.tells board.old).log self.new (B.tells board.new).log) }
        ensures still { OnOk result (self.old.desk.now.jobs ≡ [] → IsStill self.new) }
        ensures numbers { SameNumbers self.old self.new }
        ensures quietly { IsQuietly (B.tells board.old).log (B.tells board.new).log }
        ensures faults { NoBoardFailed (B.tells board.old) (B.tells board.new) }
        ensures same { IsSame self.old self.new }
    {
        'rounds: while self.deliver_round(rt, board)? {}
        Ok(())
    }

    // Each connection in turn. Tells whether a send failed.
    fn deliver_round<R: Wait, B: Board>(&mut self, rt: &R, board: &mut B) -> Result<bool, Stopped>
        requires serving { IsServing (B.tells board.old).log self.old }
        ensures goes { OnOk result (Goes (ServesAll self.new) self.old (B.tells board.old).log self.new (B.tells board.new).log) }
        ensures empties { IfOk result (λ failed. self.old.desk.now.jobs ≡ [] → EmptiesAll failed self.new) }
        ensures fewer { IfOk result (λ failed. FewerUnfailed failed self.old self.new) }
        ensures numbers { SameNumbers self.old self.new }
        ensures quietly { IsQuietly (B.tells board.old).log (B.tells board.new).log }
        ensures faults { NoBoardFailed (B.tells board.old) (B.tells board.new) }
        ensures same { IsSame self.old self.new }
    {
        let mut failed = false;
        for at in 0..self.connections.len() {
            failed |= self.deliver_to(rt, board, at)?;
        }
        Ok(failed)
    }

    // What the machine has for the connection with this index is taken out and sent, unless its link is over. Tells whether
    // a send failed: then its session ends.
    fn deliver_to<R: Wait, B: Board>(
        &mut self,
        rt: &R,
        board: &mut B,
        at: usize,
    ) -> Result<bool, Stopped>
        requires within { at < length self.old.connections.items }
        requires serving { IsServing (B.tells board.old).log self.old }
        ensures goes { OnOk result (Goes (ServesAt at self.new) self.old (B.tells board.old).log self.new (B.tells board.new).log) }
        ensures empties { IfOk result (λ failed. self.old.desk.now.jobs ≡ [] → Empties at failed self.old self.new) }
        ensures others { OnOk result (OthersStay at self.old self.new) }
        ensures fewer { IfOk result (λ failed. FewerUnfailed failed self.old self.new) }
        ensures numbers { SameNumbers self.old self.new }
        ensures quietly { IsQuietly (B.tells board.old).log (B.tells board.new).log }
        ensures faults { NoBoardFailed (B.tells board.old) (B.tells board.new) }
        ensures same { IsSame self.old self.new }
    {
        serving_laws();
        self.desk.law();
        if self.connections[at].cut {
            return Ok(false);
        }
        self.take_out(rt, at)?;
        if !self.send_out(board, at)? {
            return Ok(false);
        }
        self.leave(rt, at, true)?;
        Ok(true)
    }

    // What the machine has for the connection with this index is taken out.
    fn take_out<R: Wait>(&mut self, rt: &R, at: usize) -> Result<(), Stopped>
        requires within { at < length self.old.connections.items }
        ensures takes { OnOk result (TakesOut at self.old self.new) }
        ensures numbers { SameNumbers self.old self.new }
        ensures same { IsSame self.old self.new }
    {
        let number = self.connections[at].inbound.connection();
        let bytes = self.ask_for(rt, number)?;
        self.connections[at].queue.put(bytes)?;
        Ok(())
    }

    // The machine gives what it has for the connection of this number.
    fn ask_for<R: Wait>(&mut self, rt: &R, number: u32) -> Result<Bytes, Stopped>
        ensures asks { IfOk result (λ bytes. Asks (entries.TakeOut number) (replies.Out bytes) self.old.desk self.new.desk) }
        ensures rest { self.new ≡ record self.old { desk = self.new.desk } }
        ensures footing { self.new.desk.footing ≡ self.old.desk.footing }
    {
        match self.desk.ask(rt, Entry::TakeOut(number))? {
            Reply::Out(bytes) => Ok(bytes),
            _ => unreachable!(),
        }
    }

    // What wasn't sent yet to the connection with this index is sent, unless a send failed before. Tells whether one
    // failed now.
    fn send_out<B: Board>(&mut self, board: &mut B, at: usize) -> Result<bool, Stopped>
        requires within { at < length self.old.connections.items }
        ensures sends { IfOk result (λ failed. SendsOut at failed self.old self.new (B.tells board.old) (B.tells board.new)) }
        ensures numbers { SameNumbers self.old self.new }
        ensures quietly { IsQuietly (B.tells board.old).log (B.tells board.new).log }
        ensures faults { NoBoardFailed (B.tells board.old) (B.tells board.new) }
        ensures same { IsSame self.old self.new }
    {
        let queue = &mut self.connections[at].queue;
        if queue.failed() {
            return Ok(false);
        }
        let reach = send_all(board, queue)?;
        Ok(has_failed(reach))
    }
}

// Whether a send failed.
fn has_failed(reach: Reach) -> bool
    ensures { result ≡ is_failed_reach reach }
{
    matches!(reach, Reach::Failed)
}
