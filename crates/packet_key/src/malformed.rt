// Why a frame has no key.
ghost use Rattle.std.specs.Prelude.{◌≡◌};
ghost use Rattle.packet_key.specs.Frames.{fault_number, FaultsHaveOwnNumbers};

/// Why a frame has no key: the first header that is cut short or is no such header.
#[derive(Clone, Copy, Debug, PartialEq, Eq)]
pub enum Malformed {
    /// Fewer bytes than an Ethernet header.
    Ethernet,
    /// Fewer bytes than a header with an 802.1Q tag.
    Tag,
    /// No whole IP header of version 4.
    Ip,
    /// Fewer bytes behind the IP header than the ports have.
    Transport,
}

impl Malformed {
    /// The number by which the fault is told, 1 to 4 in the order of the variants.
    pub fn number(self) -> u8
        ensures { result ≡ fault_number self }
    {
        match self {
            Malformed::Ethernet => 1,
            Malformed::Tag => 2,
            Malformed::Ip => 3,
            Malformed::Transport => 4,
        }
    }
}

/// No two faults have one number.
#[tactic(auto, using(crate::proofs::FaultNumbers::own_numbers))]
pub fn fault_numbers_law()
    ensures { FaultsHaveOwnNumbers }
{}
