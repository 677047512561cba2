// Why an update of the network's state is refused.
use thiserror::Error;

/// Why an update of the environment is refused: the first of these that applies.
#[derive(Clone, Copy, Debug, PartialEq, Eq, Error)]
pub enum UpdateRefused {
    /// The table isn't declared.
    #[error("unknown table")]
    UnknownTable,
    /// A switch isn't known.
    #[error("unknown switch")]
    UnknownSwitch,
    /// A port isn't in 1 to 65,280.
    #[error("port out of range")]
    PortRange,
    /// There would be `count` switches, up ports of a switch, hosts, links or numbers of a table,
    /// where `limit` is the most.
    #[error("{count} where {limit} is the limit")]
    Full { count: u64, limit: u64 },
}
