// The board's start.
ghost use Rattle.serve_channels.specs.Starting.{Starts, StartsBy};

use crate::Server;
use maple_io::{Board, Started};

impl<'h> Server<'h> {
    /// The board begins to listen: for switches on one port, for control text on the other. Tells whether it does.
    pub fn start<B: Board>(&self, board: &mut B, listen: u16, control: u16) -> Started
        ensures starts { Starts listen control result self.now (B.tells board.old).log (B.tells board.new).log }
        ensures faults { StartsBy result (B.tells board.old) (B.tells board.new) }
    {
        board.start(listen, control)
    }
}
