// What a device appended is heard.
ghost use Rattle.std.specs.Prelude.{◌≡◌, ◌≢◌, ◌<◌, false, length, Ok, OnErr, OnOk};
ghost use Rattle.machine_desk.specs.Homes.{LeavesNone};
ghost use Rattle.sim_channels.specs.Channels.{BreaksOffOver, CarriedOver, IsKept, IsSame, WorksAlone, home};
ghost use Rattle.sim_channels.specs.Waiting.{IsHeard, IsOffered, NoneWaits, StaysBut};
ghost use Rattle.sim_channels.specs.Hearing.{KeepsChannels};
ghost use Rattle.sim_turns.specs.declared.hear.Reach.TheVariants.{Anybody, Itself, Nobody};

use machine_desk::Came;
use packet_workers::Gate;
use sim_channels::{Driver, Stopped};
use std::sync::Wait;

/// For which devices the machine may have messages that it had not before.
#[derive(Clone, Copy, Debug, PartialEq, Eq)]
pub(crate) enum Reach {
    /// For none.
    Nobody,
    /// For the one that was heard.
    Itself,
    /// For each.
    Anybody,
}

/// All that came from the device with this index is heard, and each packet among it answered or handed over.
///
/// # Errors
///
/// `Stopped`.
pub(crate) fn hear_all<R: Wait, G: Gate>(
    rt: &R,
    gate: &G,
    driver: &mut Driver<'_>,
    at: usize,
) -> Result<Reach, Stopped>
    requires kept { IsKept driver.old }
    requires within { at < length driver.old.channels.items }
    requires jobs { LeavesNone home driver.old }
    requires offered { IsOffered at driver.old }
    ensures kept { OnOk result (IsKept driver.new) }
    ensures carried { OnOk result (CarriedOver driver.old driver.new) }
    ensures jobs { OnOk result (WorksAlone driver.old → NoneWaits driver.new.desk) }
    ensures heard { OnOk result (IsHeard at driver.new) }
    ensures offered { OnOk result (IsOffered at driver.new) }
    ensures channels { OnOk result (KeepsChannels at driver.old driver.new) }
    ensures nobody { result ≡ Ok Nobody → driver.new.desk ≡ driver.old.desk }
    ensures itself { result ≡ Ok Itself → StaysBut (WorksAlone driver.old) at driver.old driver.new }
    ensures broken { OnErr result (BreaksOffOver driver.old driver.new) }
    ensures same { IsSame driver.old driver.new }
{
    // A packet teaches where a host is without its reply telling that this made a state.
    let learning = driver.learning();
    let mut reach = Reach::Nobody;
    loop {
        match driver.hear_next(rt, gate, at)? {
            Came::Nothing => return Ok(reach),
            Came::Ended => return Ok(further(reach, learning)),
            Came::Message => reach = further(reach, learning),
            Came::State => reach = Reach::Anybody,
        }
    }
}

// The reach of what was heard, and of one message more.
fn further(reach: Reach, learning: bool) -> Reach
    ensures some { result ≢ Nobody }
    ensures itself { result ≡ Itself → (learning ≡ false) × (reach ≢ Anybody) }
{
    if learning || reach == Reach::Anybody {
        Reach::Anybody
    } else {
        Reach::Itself
    }
}
