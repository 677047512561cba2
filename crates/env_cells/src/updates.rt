// Updates of an environment.
ghost use Rattle.std.specs.Prelude.{◌≡◌};
ghost use Rattle.env_cells.specs.declared.updates.UpdateError.TheVariants.{NoMemory as memory_error, Refused};

use maple_base::{Name, Names, NoMemory, Place, Ports, UpdateRefused};
use thiserror::Error;

/// A change of what is known of the network. A port's number is in 1 to 65,280 (OpenFlow 1.0,
/// 5.2.1), a switch goes by its datapath id, a host by its Ethernet address as a number.
#[derive(Drop)]
pub enum Update {
    /// A switch is known from now on. Of its ports those are up that the list says are up and whose
    /// number is in range; all others are down.
    Switch { switch: u64, ports: Ports },
    /// A port of a switch goes up or down.
    Port { switch: u64, port: u16, up: bool },
    /// A host is at a place.
    Host { mac: u64, place: Place },
    /// A host is nowhere.
    NoHost { mac: u64 },
    /// What leaves by the first place arrives at the second.
    Link { from: Place, to: Place },
    /// No link begins at the place.
    NoLink { from: Place },
    /// A table has this number at this key.
    Set { table: Name, key: u64, value: u64 },
    /// A table has no number at this key.
    Unset { table: Name, key: u64 },
    /// These tables are there and no others. One that was there keeps its numbers, a new one is
    /// empty.
    Tables(Names),
}

/// Why an update isn't made.
#[derive(Clone, Copy, Debug, PartialEq, Eq, Error)]
pub enum UpdateError {
    #[error("{0}")]
    Refused(UpdateRefused),
    #[error("out of memory")]
    NoMemory,
}

impl From<UpdateRefused> for UpdateError {
    ghost from_gives = { λ refusal error. error ≡ Refused refusal };

    fn from(refusal: UpdateRefused) -> UpdateError {
        UpdateError::Refused(refusal)
    }
}

impl From<NoMemory> for UpdateError {
    ghost from_gives = { λ _ error. error ≡ memory_error };

    fn from(_error: NoMemory) -> UpdateError {
        UpdateError::NoMemory
    }
}
