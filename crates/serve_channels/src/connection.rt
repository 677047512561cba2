// A connection of a switch.
use board_lines::SendQueue;
use machine_desk::Inbound;

/// The connection of a switch, from its opening until it is closed.
#[derive(Drop)]
pub struct Connection {
    /// What came of it, and how its session stands.
    pub(crate) inbound: Inbound,
    /// What was taken out for it, and wasn't sent yet.
    pub(crate) queue: SendQueue,
    /// Whether its session ended by its link.
    pub(crate) cut: bool,
}
