use std::collections::LinkedList;
use std::snapshot::Snapshot;

/// An entry with its reply, and the machine behind it.
pub struct Event<M, E, R> {
    pub entry: E,
    pub reply: R,
    pub behind: M,
}

/// What a pass knows: the opening machine, the history that it has seen, the positions of its own calls in it,
/// the number that its last call read, its parts, and whether it leads. No value of it is made.
pub struct Known<M, E, R> {
    pub opening: Option<M>,
    pub seen: LinkedList<Event<M, E, R>>,
    pub own: LinkedList<u64>,
    pub number: u64,
    pub parts: u32,
    pub leads: bool,
}

/// Where a pass is in a call, with its ticket, and with the machine that it has to put back.
pub enum Standing<M> {
    Idle,
    Looked,
    Waits(u64),
    Turn(u64, M),
    Recorded(u64, M),
}

/// The view of a seat: what its pass knows, the shorter of the two histories that it joined last, what the one of the two
/// that leads had seen, and where it is in a call.
pub struct View<M, E, R> {
    pub known: Known<M, E, R>,
    pub told: LinkedList<Event<M, E, R>>,
    pub mark: LinkedList<Event<M, E, R>>,
    pub stage: Standing<M>,
}

/// The place of the machine, which lies behind a pointer, with the call that it just answered.
pub struct Slot<M, E, R> {
    pub machine: Option<Box<M>>,
    pub entry: Option<Snapshot<E>>,
    pub reply: Option<Snapshot<R>>,
}
