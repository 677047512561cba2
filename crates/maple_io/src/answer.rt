// What a source answered and a sink took, which only proofs read.
ghost use Rattle.std.specs.Prelude.{◌≡◌, ◌++◌, ◌∷◌, []};
ghost use Rattle.maple_io.specs.Answers.{answer_of};
ghost use Rattle.maple_io.specs.Writes.{taken_of};

use crate::{Got, Put};
use maple_base::{Bytes, GhostList, Witness};

/// What a source answered to a read.
#[derive(Drop)]
pub enum Answer {
    /// It gave these bytes.
    Gave(Bytes),
    /// It told its end.
    Ended,
    /// It failed.
    Failed,
}

/// Those answers, and then the one of a read that said this and left these bytes in its slice.
pub fn answered(answers: &GhostList<Answer>, got: Got, into: &[u8]) -> GhostList<Answer>
    ensures { result.value ≡ answers.now.value ++ answer_of got into.now ∷ [] }
{
    Witness::picked(&(answers, got, into))
}

/// Those bytes, and then the ones that a write of this piece took.
pub fn took(bytes: &GhostList<u8>, put: Put, piece: &[u8]) -> GhostList<u8>
    ensures { result.value ≡ bytes.now.value ++ taken_of put piece.now }
{
    Witness::picked(&(bytes, put, piece))
}
