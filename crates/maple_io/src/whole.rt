// All of some bytes are written.
ghost use Rattle.std.specs.Prelude.{◌≡◌, ◌≢◌, ℕ, ◌≤◌, ◌++◌, List, OnOk, OnErr};
ghost use Rattle.maple_io.specs.Views.{NoWriteFailed, WriteFailed, Wrote};
ghost use Rattle.maple_io.specs.Fronts.{IsFront};

use crate::{Put, Sink};

/// Why bytes weren't all written.
#[derive(Clone, Copy, Debug, PartialEq, Eq)]
pub enum PutStop {
    /// A write failed.
    Failed,
    /// Memory ran out.
    NoMemory,
}

/// Writes all of these bytes, with as many writes as that takes. After an error a front of them was
/// written, and not all.
///
/// # Errors
///
/// `Failed` where a write failed, `NoMemory` where one found no memory.
pub fn put_all<O: Sink>(output: &mut O, bytes: &[u8]) -> Result<(), PutStop>
    ensures ok { OnOk result (Wrote (O.tells output.old) (O.tells output.new) bytes.now) }
    ensures front { OnErr result ((front : List ℕ) × IsFront front bytes.now × Wrote (O.tells output.old) (O.tells output.new) front) }
    ensures short { OnErr result ((O.tells output.new).took ≢ (O.tells output.old).took ++ bytes.now) }
    ensures cause { result ≡ Err PutStop.Failed → WriteFailed (O.tells output.old) (O.tells output.new) }
    ensures count { (O.tells output.old).failed ≤ (O.tells output.new).failed }
    ensures spared { result ≢ Err PutStop.Failed → NoWriteFailed (O.tells output.old) (O.tells output.new) }
{
    let mut at = 0;
    while at < bytes.len() {
        match output.write(&bytes[at..]) {
            Put::Took(count) => at += count,
            Put::Failed => return Err(PutStop::Failed),
            Put::NoMemory => return Err(PutStop::NoMemory),
        }
    }
    Ok(())
}
