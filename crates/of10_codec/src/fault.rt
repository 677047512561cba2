// Why bytes are no message, and why a message has no bytes.
ghost use Rattle.std.specs.Prelude.{◌≡◌};
ghost use Rattle.of10_codec.specs.Faults.{fault_number};

use maple_base::NoMemory;
use thiserror::Error;

/// The first fault of bytes that spell no message.
#[derive(Clone, Copy, Debug, PartialEq, Eq)]
pub enum Bad {
    /// Fewer bytes than a header has, 8 (OpenFlow 1.0, 5.1).
    Short,
    /// The version is not 1, in a message other than HELLO.
    Version,
    /// The length in the header is below 8, or is not the number of bytes.
    Length,
    /// A field of the body of a message of this type, at this offset from the message's first byte,
    /// has no meaning here. Where the length does not suit the type it is the length, at offset 2.
    Body { kind: u8, offset: u16 },
}

impl Bad {
    /// The number by which the fault is told, 1 to 4 in the order of the variants.
    pub fn number(self) -> u8
        ensures { result ≡ fault_number self }
    {
        match self {
            Bad::Short => 1,
            Bad::Version => 2,
            Bad::Length => 3,
            Bad::Body { .. } => 4,
        }
    }
}

/// Why no message was read.
#[derive(Clone, Copy, Debug, PartialEq, Eq, Error)]
pub enum DecodeError {
    #[error("the bytes spell no message")]
    Bad(Bad),
    #[error("memory ran out")]
    NoMemory,
}

/// Why a message was not written.
#[derive(Clone, Copy, Debug, PartialEq, Eq, Error)]
pub enum EncodeError {
    #[error("a message of {0} bytes passes 65,535")]
    TooLong(u128),
    #[error("memory ran out")]
    NoMemory,
}
