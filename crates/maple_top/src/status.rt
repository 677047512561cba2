// How a run of the program ends.
ghost use Rattle.std.specs.Prelude.{◌≡◌};
ghost use Rattle.maple_top.specs.Statuses.{status_number};

/// How a run of the program ends.
#[derive(Clone, Copy, Debug, PartialEq, Eq)]
pub enum Status {
    /// The run came to its end.
    Done,
    /// The words aren't in the grammar.
    Usage,
    /// The policy is refused: its text is of none.
    Policy,
    /// A line of the script isn't in the grammar, has more than 8,192 bytes, or names a place without a
    /// device.
    Script,
    /// A read failed.
    ReadFault,
    /// A write failed.
    WriteFault,
    /// Memory ran out.
    NoMemory,
    /// The input has more than 67,108,864 bytes.
    TooLong,
    /// The board failed: it couldn't be started, or gave no further turn.
    BoardFault,
    /// The hall of the machine has room for no further entry: its history has 2^62 of them.
    Worn,
}

impl Status {
    /// The exit status: 0 to 9 in the order of the variants.
    pub fn number(self) -> u8
        ensures { result ≡ status_number self }
    {
        self as u8
    }
}
