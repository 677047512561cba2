// A report that is kept in memory.
ghost use Rattle.std.specs.Prelude.{◌≡◌, ◌≢◌, ◌<◌, ◌++◌, Some, [], length};
ghost use Rattle.maple_io.specs.Writes.{TakesWithin, WritesBytes, taken_of};

use maple_io::{Put, Sink};
use std::alloc::Global;

/// A report that is kept in memory. No write to it fails.
#[derive(Drop)]
pub struct Gathered {
    pub text: Vec<u8>,
}

impl Gathered {
    /// An empty report.
    pub fn new(alloc: Global) -> Gathered
        ensures { result.text.items ≡ [] }
    {
        Gathered {
            text: Vec::new(alloc),
        }
    }
}

impl Sink for Gathered {
    ghost tells = { λ g. record { taken = Some g.text.items; failed = 0; took = g.text.items } };

    fn write(&mut self, piece: &[u8]) -> Put
        requires { 0 < length piece.now }
        ensures room { TakesWithin result (length piece.now) }
        ensures bytes { WritesBytes (Some self.old.text.items) (Some self.new.text.items) result piece.now }
        ensures took { self.new.text.items ≡ self.old.text.items ++ taken_of result piece.now }
        ensures never { result ≢ Put.Failed }
    {
        match self.text.extend_from_slice(piece) {
            Ok(()) => Put::Took(piece.len()),
            Err(_) => Put::NoMemory,
        }
    }

    fn faults(&self) -> u64 {
        0
    }
}
