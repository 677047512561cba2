// Connections whose sessions are over are closed.
ghost use Rattle.std.specs.Prelude.{◌≡◌, ◌<◌, length};
ghost use Rattle.maple_io.specs.Boards.{NoBoardFailed};
ghost use Rattle.machine_desk.specs.Hearing.{is_live};
ghost use Rattle.serve_channels.specs.Delivering.{Closes, ClosesAt, IsOverAt};
ghost use Rattle.serve_channels.specs.Keeping.{Goes, IsServing};
ghost use Rattle.serve_channels.specs.Servers.{IsSame};
ghost use Rattle.serve_channels.specs.Stretches.{IsQuietly};

use crate::Server;
use machine_desk::Stage;
use maple_io::Board;

impl<'h> Server<'h> {
    /// Each connection whose session is over is closed and forgotten.
    pub fn close_over<B: Board>(&mut self, board: &mut B)
        requires serving { IsServing (B.tells board.old).log self.old }
        ensures goes { Goes (Closes self.new) self.old (B.tells board.old).log self.new (B.tells board.new).log }
        ensures desk { self.new.desk ≡ self.old.desk }
        ensures quietly { IsQuietly (B.tells board.old).log (B.tells board.new).log }
        ensures faults { NoBoardFailed (B.tells board.old) (B.tells board.new) }
        ensures same { IsSame self.old self.new }
    {
        let mut at = 0;
        while at < self.connections.len() {
            if is_live(self.connections[at].inbound.stage()) {
                at += 1;
            } else {
                self.close_at(board, at);
            }
        }
    }

    // The connection with this index, whose session is over, is closed and forgotten.
    fn close_at<B: Board>(&mut self, board: &mut B, at: usize)
        requires within { at < length self.old.connections.items }
        requires serving { IsServing (B.tells board.old).log self.old }
        requires over { IsOverAt at self.old }
        ensures closes { ClosesAt at self.old self.new (B.tells board.old).log (B.tells board.new).log }
        ensures faults { NoBoardFailed (B.tells board.old) (B.tells board.new) }
    {
        board.close(self.connections[at].inbound.connection());
        self.connections.remove(at);
    }
}

// Whether the session is open.
fn is_live(stage: Stage) -> bool
    ensures { result ≡ is_live stage }
{
    matches!(stage, Stage::Live)
}
