// How the work on a packet ends.

/// How the work on a packet ended.
#[derive(Clone, Copy, Debug, PartialEq, Eq)]
pub enum Worked {
    /// It was answered.
    Answered,
    /// The policy ran out of steps.
    Spent,
    /// No open job had its number, switch and key.
    NotOpen,
    /// The hall has no room for a further entry.
    Worn,
    /// Memory ran out.
    NoMemory,
}
