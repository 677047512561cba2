// How an input is read to its end.
ghost use Rattle.std.specs.Prelude.{◌≡◌, ◌≢◌, ◌<◌, ◌≤◌, length, IfOk, OnOk, IfSome};
ghost use Rattle.std.specs.Io.KnownBytes.{IsAtEnd};
ghost use Rattle.maple_io.specs.Views.{Heard, NoReadFailed, ReadFailed};
ghost use Rattle.maple_top.specs.Due.{IsFit, IsReading, ReadOver, ReadSome, most_bytes};
ghost use Rattle.maple_top.specs.Running.{ReadsBy};

use maple_io::{Got, Source};
use std::alloc::Global;

/// The most bytes that an input may have.
pub const LIMIT: usize = 67_108_864;

/// Why an input wasn't read to its end.
#[derive(Clone, Copy, Debug, PartialEq, Eq)]
pub enum ReadStop {
    /// A read failed.
    Failed,
    /// More than `LIMIT` bytes came.
    TooLong,
    /// Memory ran out.
    NoMemory,
}

/// All bytes that are left of a source.
pub fn read_all<I: Source>(alloc: Global, input: &mut I) -> Result<Vec<u8>, ReadStop>
    ensures whole { IfOk result (λ all. IfSome (I.tells input.old).left (λ bytes. all.items ≡ bytes)) }
    ensures end { OnOk result (IfSome (I.tells input.old).left (λ _. IsAtEnd (I.tells input.new).left)) }
    ensures fit { IfOk result (λ all. IsFit all.items) }
    ensures long { result ≡ Err ReadStop.TooLong → IfSome (I.tells input.old).left (λ bytes. most_bytes < length bytes) }
    ensures cause { result ≡ Err ReadStop.Failed → ReadFailed (I.tells input.old) (I.tells input.new) }

    // What was answered, and that it is all that was read.
    ensures heard { Heard (I.tells input.old) (I.tells input.new) (ReadsBy result) }
    ensures reading { Heard (I.tells input.old) (I.tells input.new) IsReading }

    // What was read, and what of it failed.
    ensures over { result ≡ Err ReadStop.TooLong → ReadOver (I.tells input.old) (I.tells input.new) }
    ensures some { ReadSome (I.tells input.old) (I.tells input.new) }
    ensures count { (I.tells input.old).failed ≤ (I.tells input.new).failed }
    ensures spared { result ≢ Err ReadStop.Failed → NoReadFailed (I.tells input.old) (I.tells input.new) }
{
    let mut all = Vec::new(alloc);
    let mut piece = [0u8; 4096];
    'reading: while all.len() <= LIMIT {
        match input.read(&mut piece) {
            Got::Bytes(count) => {
                if all.extend_from_slice(&piece[..count]).is_err() {
                    return Err(ReadStop::NoMemory);
                }
            }
            Got::End => return Ok(all),
            Got::Failed => return Err(ReadStop::Failed),
        }
    }
    Err(ReadStop::TooLong)
}
