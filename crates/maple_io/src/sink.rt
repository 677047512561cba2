// What takes bytes.
ghost use Rattle.std.specs.Prelude.{◌≡◌, ◌≢◌, ◌<◌, ◌≤◌, ◌++◌, length};
ghost use Rattle.maple_io.specs.Views.{NoWriteFailed, SinkView, WriteFailed};
ghost use Rattle.maple_io.specs.Writes.{TakesWithin, WritesBytes, taken_of};

/// What became of a piece.
#[derive(Clone, Copy, Debug, PartialEq, Eq)]
pub enum Put {
    /// So many bytes of its front were taken: one at least.
    Took(usize),
    /// The write failed, or would have taken none. No byte was taken.
    Failed,
    /// Memory ran out. No byte was taken, and no fault is counted.
    NoMemory,
}

/// What takes bytes.
pub trait Sink {
    /// The bytes that are held, in order, where the sink tells them (`None` claims nothing), how many
    /// writes failed, and what was taken in all writes so far, which every sink tells. That count
    /// stands still at 2^64 - 1, where a failure counts as a rise.
    ghost tells: { Self → SinkView };

    /// Writes a piece that is not empty, once. `Put::Took(n)` says that its first n bytes were taken,
    /// with n from 1 to the piece's length; `Put::Failed` that none was and that `faults` rose;
    /// `Put::NoMemory` that none was. Where the answer is not `Failed`, `faults` stayed.
    fn write(&mut self, piece: &[u8]) -> Put
        requires { 0 < length piece.now }
        ensures room { TakesWithin result (length piece.now) }
        ensures bytes { WritesBytes (tells self.old).taken (tells self.new).taken result piece.now }
        ensures took { (tells self.new).took ≡ (tells self.old).took ++ taken_of result piece.now }
        ensures cause { result ≡ Put.Failed → WriteFailed (tells self.old) (tells self.new) }
        ensures count { (tells self.old).failed ≤ (tells self.new).failed }
        ensures spared { result ≢ Put.Failed → NoWriteFailed (tells self.old) (tells self.new) };

    /// How many writes failed, up to 2^64 - 1.
    fn faults(&self) -> u64
        ensures { result ≡ (tells self.now).failed };
}
