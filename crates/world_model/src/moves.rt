// What a world is asked to do, and what came of it.
use machine_steps::{Entry, Reply};
use maple_base::{Key, Seen};

/// A step that a world is to make. Switches go by the numbers of their connections, and places among pending messages count from 0.
#[derive(Drop)]
pub enum Move {
    /// The machine is given an entry.
    Machine(Entry),
    /// The switch takes in the next message that is on its way to it.
    Take(u32),
    /// It processes the pending message at this place.
    Process(u32, u32),
    /// It refuses the change of its table that is pending at this place.
    Refuse(u32, u32),
    /// It answers the barrier that is pending first.
    Answer(u32),
    /// It looks a packet's key up.
    Look(u32, Key),
}

/// What came of a move.
#[derive(Drop)]
pub enum Moved {
    /// The switch made its step.
    Done,
    /// The machine made its turn, and replied this.
    Replied(Reply),
    /// What the look-up found.
    Saw(Seen),
    /// There is no such step. Nothing changed.
    NotThere,
    /// Memory ran out ahead of the step. Nothing changed.
    NoMemory,
}
