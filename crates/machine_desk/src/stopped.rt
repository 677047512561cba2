// Why a driver stops.
ghost use Rattle.std.specs.Prelude.{OnErr, OnOk};
ghost use Rattle.machine_desk.specs.Tending.{IsWhole};

use crate::tending::Broken;
use crate::{DeskStop, Worn};
use maple_base::NoMemory;
use packet_workers::Worked;

/// Memory ran out, for the driver or for who works beside it, or the hall is worn: the driver's desk tells whether it found it so.
#[derive(Clone, Copy, Debug, PartialEq, Eq)]
pub struct Stopped;

impl From<NoMemory> for Stopped {
    ghost from_gives = { λ _ _. Unit {0} };

    fn from(_error: NoMemory) -> Stopped {
        Stopped
    }
}

impl From<DeskStop> for Stopped {
    ghost from_gives = { λ _ _. Unit {0} };

    fn from(_error: DeskStop) -> Stopped {
        Stopped
    }
}

impl From<Worn> for Stopped {
    ghost from_gives = { λ _ _. Unit {0} };

    fn from(_error: Worn) -> Stopped {
        Stopped
    }
}

impl From<Broken> for Stopped {
    ghost from_gives = { λ _ _. Unit {0} };

    fn from(_error: Broken) -> Stopped {
        Stopped
    }
}

/// Whether the work on a packet came to its end.
///
/// # Errors
///
/// `Stopped`, where memory ran out in it, or the hall is worn.
pub fn answered(worked: Worked) -> Result<(), Stopped>
    ensures whole { OnOk result (IsWhole worked) }
    ensures stopped { OnErr result (IsWhole worked → ⊥) }
{
    match worked {
        Worked::NoMemory | Worked::Worn => Err(Stopped),
        Worked::Answered | Worked::Spent | Worked::NotOpen => Ok(()),
    }
}
