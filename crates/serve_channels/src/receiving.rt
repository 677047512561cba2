// A turn of the board.
ghost use Rattle.std.specs.Prelude.{◌≡◌, ◌<◌, IfOk, OnErr, OnOk, length};
ghost use Rattle.maple_io.specs.Boards.{NoBoardFailed};
ghost use Rattle.maple_io.specs.Turns.{TurnsWithin};
ghost use Rattle.serve_channels.specs.Delivering.{FailsBy, GivesOne, Receives, bytes_in};
ghost use Rattle.serve_channels.specs.Feeding.{Feeds};
ghost use Rattle.serve_channels.specs.Keeping.{IsServing};
ghost use Rattle.serve_channels.specs.Servers.{IsSame, SameNumbers};

use crate::Server;
use machine_desk::Stopped;
use maple_io::{Board, Turn};

impl<'h> Server<'h> {
    /// What comes next: bytes of a connection are kept until they are heard; those of a number that isn't there are passed
    /// over.
    ///
    /// # Errors
    ///
    /// `Stopped`, where memory runs out for bytes that came.
    pub fn receive<B: Board>(&mut self, board: &mut B, into: &mut [u8]) -> Result<Turn, Stopped>
        requires serving { IsServing (B.tells board.old).log self.old }
        requires room { 0 < length into.old }
        ensures receives { IfOk result (λ t. Receives t (bytes_in t into.new) self.old (B.tells board.old).log self.new (B.tells board.new).log) }
        ensures within { IfOk result (λ t. TurnsWithin t (length into.old)) }
        ensures faults { IfOk result (λ t. FailsBy t (B.tells board.old) (B.tells board.new)) }
        ensures stopped { OnErr result (GivesOne (B.tells board.old).log (B.tells board.new).log × NoBoardFailed (B.tells board.old) (B.tells board.new)) }
        ensures numbers { SameNumbers self.old self.new }
        ensures desk { self.new.desk ≡ self.old.desk }
        ensures same { IsSame self.old self.new }
    {
        let turn = board.next(into);
        if let Turn::Bytes(number, count) = turn {
            self.feed(number, &into[..count])?;
        }
        Ok(turn)
    }

    // These bytes came on the connection of a number, if it is there.
    fn feed(&mut self, number: u32, bytes: &[u8]) -> Result<(), Stopped>
        ensures feeds { OnOk result (Feeds number bytes.now self.old self.new) }
        ensures numbers { SameNumbers self.old self.new }
        ensures desk { self.new.desk ≡ self.old.desk }
        ensures same { IsSame self.old self.new }
    {
        if let Some(at) = self.find(number) {
            self.connections[at].inbound.feed(bytes)?;
        }
        Ok(())
    }
}
