// The commands of a script.
use crate::PacketSpec;
use maple_base::{Bytes, Name, Place};
use thiserror::Error;

/// What a line of a script says. Devices are named by their places among the devices, from 1 on;
/// switches by their datapath ids.
#[derive(Drop)]
pub enum Command {
    /// Nothing: an empty line, or a comment, which begins with `#`.
    Nothing,
    /// `plug C`: the device at this place is plugged in.
    Plug(u64),
    /// `unplug C`: the device at this place is taken out.
    Unplug(u64),
    /// `packet C P FIELDS`: a packet of these fields comes to the device at this place.
    Packet(u64, PacketSpec),
    /// `frame C P HEX`: these bytes come to the device at this place, by this port.
    Frame(u64, u16, Bytes),
    /// `turn C N`: the device at this place takes 1 to 100,000 turns.
    Turn(u64, u32),
    /// `settle`: devices take turns until none has a message to answer.
    Settle,
    /// `host M S P`: the host of this Ethernet address, below 2^48, is at this place.
    Host(u64, Place),
    /// `nohost M`: the host of this Ethernet address, below 2^48, is nowhere.
    NoHost(u64),
    /// `link S P S P`: a link goes from the first place to the second.
    Link(Place, Place),
    /// `nolink S P`: no link begins at this place.
    NoLink(Place),
    /// `set NAME K V`: the table of this name has the second number at the first.
    Set(Name, u64, u64),
    /// `unset NAME K`: the table of this name has nothing at this number.
    Unset(Name, u64),
    /// `newpolicy`: the lines behind are the text of a new policy.
    NewPolicy,
    /// `rules S`: the rules of this switch are reported.
    Rules(u64),
    /// `quit`: the script ends.
    Quit,
}

/// Why a line gave no command.
#[derive(Clone, Copy, Debug, PartialEq, Eq, Error)]
pub enum LineError {
    /// It has more than 8,192 bytes.
    #[error("the line has more than 8,192 bytes")]
    TooLong,
    /// It is no line of a script.
    #[error("the line is no command")]
    Grammar,
    /// Memory ran out.
    #[error("memory ran out")]
    NoMemory,
}
