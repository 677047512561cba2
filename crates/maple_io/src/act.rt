// What a board did, which only proofs read.
ghost use Rattle.std.specs.Prelude.{◌≡◌, ◌++◌, ◌∷◌, []};
ghost use Rattle.maple_io.specs.Turns.{given_acts, sent_acts, started_acts};

use crate::{Sent, Started, Turn};
use maple_base::{Bytes, GhostList, Witness};

/// One thing that a board did.
#[derive(Drop)]
pub enum Act {
    /// It was started, with the port for switches and the one for control text.
    Starts { listen: u16, control: u16 },
    /// It gave this turn, with its bytes.
    Gives(Turn, Bytes),
    /// It was handed a piece for a connection: it took these bytes of it, and answered so.
    Takes(u32, Bytes, Sent),
    /// It closed a connection.
    Closes(u32),
}

/// Those acts, and then that of a start.
pub fn starting(
    acts: &GhostList<Act>,
    listen: u16,
    control: u16,
    started: Started,
) -> GhostList<Act>
    ensures { result.value ≡ acts.now.value ++ started_acts listen control started }
{
    Witness::picked(&(acts, listen, control, started))
}

/// Those acts, and then that of a turn that left these bytes in its slice.
pub fn giving(acts: &GhostList<Act>, turn: Turn, into: &[u8]) -> GhostList<Act>
    ensures { result.value ≡ acts.now.value ++ given_acts turn into.now }
{
    Witness::picked(&(acts, turn, into))
}

/// Those acts, and then that of a send of this piece.
pub fn taking(acts: &GhostList<Act>, connection: u32, sent: Sent, piece: &[u8]) -> GhostList<Act>
    ensures { result.value ≡ acts.now.value ++ sent_acts connection sent piece.now }
{
    Witness::picked(&(acts, connection, sent, piece))
}

/// Those acts, and then that a connection was closed.
pub fn closing(acts: &GhostList<Act>, connection: u32) -> GhostList<Act>
    ensures { result.value ≡ acts.now.value ++ Act.Closes connection ∷ [] }
{
    Witness::picked(&(acts, connection))
}
