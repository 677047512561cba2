// Who has bytes for connections.
ghost use Rattle.std.specs.Prelude.{◌≡◌, ◌++◌, ◌∷◌, [], IfOk, OnErr, OnOk};
ghost use Rattle.board_lines.specs.Queues.{AsksNone, AsksOnce, GivesFor, GivesNone, OutboxView};

use maple_base::NoMemory;
use maple_io::Piece;

/// Who has bytes for connections: the machine of a controller, or what finds links.
pub trait Outbox {
    /// What it gave for each connection so far, the connections of which bytes were asked, and those of
    /// which it was told that they broke.
    ghost tells: { Self → OutboxView };

    /// Gives what it has for a connection now, which may be nothing.
    ///
    /// # Errors
    ///
    /// `NoMemory`. It gave nothing, and stands as if it wasn't asked.
    fn take_out(&mut self, connection: u32) -> Result<Piece, NoMemory>
        ensures given { IfOk result (GivesFor connection (tells self.old) (tells self.new)) }
        ensures asked { OnOk result (AsksOnce connection (tells self.old) (tells self.new)) }
        ensures none { OnErr result (GivesNone (tells self.old) (tells self.new)) }
        ensures unasked { OnErr result (AsksNone (tells self.old) (tells self.new)) }
        ensures told { (tells self.new).told ≡ (tells self.old).told };

    /// A connection broke.
    fn gone(&mut self, connection: u32)
        ensures given { GivesNone (tells self.old) (tells self.new) }
        ensures asked { AsksNone (tells self.old) (tells self.new) }
        ensures told { (tells self.new).told ≡ (tells self.old).told ++ connection ∷ [] };
}
