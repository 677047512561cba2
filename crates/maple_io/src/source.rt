// What gives bytes.
ghost use Rattle.std.specs.Prelude.{◌≡◌, ◌≢◌, ◌<◌, ◌≤◌, ◌++◌, ◌∷◌, [], length};
ghost use Rattle.maple_io.specs.Answers.{answer_of};
ghost use Rattle.maple_io.specs.Reads.{GivesWithin, ReadsBytes};
ghost use Rattle.maple_io.specs.Views.{NoReadFailed, ReadFailed, SourceView};

/// What a read found.
#[derive(Clone, Copy, Debug, PartialEq, Eq)]
pub enum Got {
    /// So many bytes, which stand at the front of the slice: one at least.
    Bytes(usize),
    /// No byte is left.
    End,
    /// The read failed. No byte was taken, and what the slice holds is not said.
    Failed,
}

/// What gives bytes.
pub trait Source {
    /// The bytes that are left, in order, where the source tells them (`None` claims nothing), how
    /// many reads failed, and what was answered to each read so far, which every source tells. That
    /// count stands still at 2^64 - 1, where a failure counts as a rise.
    ghost tells: { Self → SourceView };

    /// Reads once into a slice that is not empty. `Got::Bytes(n)` says that its first n bytes are the
    /// next n of the source, with n from 1 to the slice's length; `Got::End` that none is left;
    /// `Got::Failed` that none was taken and that `faults` rose. Where the answer is another, `faults`
    /// stayed. A failed read may be tried again.
    fn read(&mut self, into: &mut [u8]) -> Got
        requires { 0 < length into.old }
        ensures room { GivesWithin result (length into.old) }
        ensures bytes { ReadsBytes (tells self.old).left (tells self.new).left result into.new }
        ensures answers { (tells self.new).answers ≡ (tells self.old).answers ++ answer_of result into.new ∷ [] }
        ensures cause { result ≡ Got.Failed → ReadFailed (tells self.old) (tells self.new) }
        ensures count { (tells self.old).failed ≤ (tells self.new).failed }
        ensures spared { result ≢ Got.Failed → NoReadFailed (tells self.old) (tells self.new) };

    /// How many reads failed, up to 2^64 - 1.
    fn faults(&self) -> u64
        ensures { result ≡ (tells self.now).failed };
}
