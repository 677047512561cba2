// Connections of switches and a control text, turn by turn.
ghost use Rattle.std.specs.Prelude.{◌≡◌, ◌≢◌, ◌<◌, ◌≤◌, ◌++◌, ◌∷◌, [], length, true};
ghost use Rattle.maple_io.specs.declared.act.Act.TheVariants as acts;
ghost use Rattle.maple_io.specs.Boards.{BoardFailed, BoardView, LinkBroke, MayBeFull, MayRest, NoBoardFailed, NoLinkBroke, was_opened};
ghost use Rattle.maple_io.specs.Turns.{IsBreak, OpensAnew, SendsWithin, TurnsWithin, given_acts, sent_acts, started_acts};

use maple_base::Bytes;

/// Whether a board was started.
#[derive(Clone, Copy, Debug, PartialEq, Eq)]
pub enum Started {
    /// It listens.
    Ready,
    /// It doesn't, and `faults` rose.
    Failed,
}

/// What comes next.
#[derive(Clone, Copy, Debug, PartialEq, Eq)]
pub enum Turn {
    /// A connection was opened, with a number that none had before.
    Opened(u32),
    /// So many bytes came on a connection, which stand at the front of the slice: one at least.
    Bytes(u32, usize),
    /// The peer of a connection closed it.
    Closed(u32),
    /// A connection broke, and `breaks` rose.
    Broken(u32),
    /// So many bytes of control text came, which stand at the front of the slice: one at least.
    Control(usize),
    /// Nothing was ready.
    Idle,
    /// Nothing comes any more.
    End,
    /// The board failed, and `faults` rose.
    Failed,
    /// Memory ran out. Nothing was taken, and no fault is counted.
    NoMemory,
}

/// What became of a piece.
#[derive(Clone, Copy, Debug, PartialEq, Eq)]
pub enum Sent {
    /// So many bytes of its front were taken: one at least.
    Took(usize),
    /// There was no room. No byte was taken.
    NotYet,
    /// The connection broke, and `breaks` rose. No byte was taken.
    Failed,
    /// Memory ran out. No byte was taken, and no break is counted.
    NoMemory,
}

/// Bytes that a board gives or takes at once.
pub type Piece = Bytes;

/// Connections of switches, by number, and a control text.
pub trait Board {
    /// What it did so far, in order; how many of its calls failed, and how many connections broke; and,
    /// where the board tells it (`None` claims nothing), whether a turn is ready, and of each connection
    /// whether there is room to send to it. Both counts stand still at 2^64 - 1, where one more counts
    /// as a rise.
    ghost tells: { Self → BoardView };

    /// Begins to listen: for switches on one port, for control text on the other.
    fn start(&mut self, listen: u16, control: u16) -> Started
        ensures log { (tells self.new).log ≡ (tells self.old).log ++ started_acts listen control result }
        ensures cause { result ≡ Started.Failed → BoardFailed (tells self.old) (tells self.new) }
        ensures count { (tells self.old).failed ≤ (tells self.new).failed }
        ensures spared { result ≢ Started.Failed → NoBoardFailed (tells self.old) (tells self.new) }
        ensures breaks { NoLinkBroke (tells self.old) (tells self.new) };

    /// Gives what comes next. The slice isn't empty; bytes stand at its front.
    fn next(&mut self, into: &mut [u8]) -> Turn
        requires { 0 < length into.old }
        ensures log { (tells self.new).log ≡ (tells self.old).log ++ given_acts result into.new }
        ensures room { TurnsWithin result (length into.old) }
        ensures anew { OpensAnew result (tells self.old).log }
        ensures idle { result ≡ Turn.Idle → MayRest (tells self.old) }
        ensures cause { result ≡ Turn.Failed → BoardFailed (tells self.old) (tells self.new) }
        ensures count { (tells self.old).failed ≤ (tells self.new).failed }
        ensures spared { result ≢ Turn.Failed → NoBoardFailed (tells self.old) (tells self.new) }
        ensures broken { IsBreak result → LinkBroke (tells self.old) (tells self.new) }
        ensures breaks { (tells self.old).broken ≤ (tells self.new).broken }
        ensures whole { (IsBreak result → ⊥) → NoLinkBroke (tells self.old) (tells self.new) }
        ensures kept { result ≡ Turn.NoMemory → tells self.new ≡ tells self.old };

    /// Hands over a piece for a connection, once. The piece isn't empty.
    fn send(&mut self, connection: u32, piece: &[u8]) -> Sent
        requires { 0 < length piece.now }
        ensures log { (tells self.new).log ≡ (tells self.old).log ++ sent_acts connection result piece.now }
        ensures room { SendsWithin result (length piece.now) }
        ensures full { result ≡ Sent.NotYet → MayBeFull connection (tells self.old) }
        ensures cause { result ≡ Sent.Failed → LinkBroke (tells self.old) (tells self.new) }
        ensures count { (tells self.old).broken ≤ (tells self.new).broken }
        ensures spared { result ≢ Sent.Failed → NoLinkBroke (tells self.old) (tells self.new) }
        ensures faults { NoBoardFailed (tells self.old) (tells self.new) }
        ensures kept { result ≡ Sent.NoMemory → tells self.new ≡ tells self.old };

    /// Closes a connection that the board opened.
    fn close(&mut self, connection: u32)
        requires { was_opened connection (tells self.old).log ≡ true }
        ensures log { (tells self.new).log ≡ (tells self.old).log ++ acts.Closes connection ∷ [] }
        ensures faults { NoBoardFailed (tells self.old) (tells self.new) }
        ensures breaks { NoLinkBroke (tells self.old) (tells self.new) };

    /// How many calls of `start` and `next` failed, up to 2^64 - 1.
    fn faults(&self) -> u64
        ensures { result ≡ (tells self.now).failed };

    /// How many connections broke, up to 2^64 - 1.
    fn breaks(&self) -> u64
        ensures { result ≡ (tells self.now).broken };
}
