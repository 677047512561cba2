// What a line of a script asks for.
ghost use Rattle.std.specs.Prelude.{◌≡◌, true, ◌≤◌, length, IfErr, IfOk};
ghost use Rattle.script_text.specs.Frames.{frame};
ghost use Rattle.script_text.specs.Grammar.{most_bytes};
ghost use Rattle.script_text.specs.Orders.{order_by, order_of};
ghost use Rattle.script_text.specs.Steps.{Asks, IsAmong, IsKept, IsShort, IsStop, has_frame, place_among, takes_memory};

use crate::command::{Command, LineError};
use crate::frame::frame_of;
use crate::packet_spec::PacketSpec;
use crate::reading::read_line;
use env_cells::Update;
use maple_base::{Bytes, NoMemory};
use report_text::ScriptRefusal;
use std::alloc::Global;

/// What a line of a script asks for. Devices stand at places, from 1 on; switches go by their
/// datapath ids.
#[derive(Drop)]
pub enum Step {
    /// Nothing: the line is empty or a comment.
    Nothing,
    /// The device at this place is plugged in.
    Plug(u32),
    /// The device at this place is taken out.
    Unplug(u32),
    /// A frame comes to the device at this place by this port.
    Arrival { place: u32, port: u16, frame: Bytes },
    /// The device at this place takes so many turns.
    Turn { place: u32, turns: u32 },
    /// Devices take turns until none has a message to answer.
    Settle,
    /// What is known of the network changes.
    Change(Update),
    /// Another policy is put in force. Its text comes behind the line.
    NewPolicy,
    /// The rules of this switch are listed.
    Rules(u64),
}

/// Why a line asks for nothing.
#[derive(Clone, Copy, Debug, PartialEq, Eq)]
pub enum StepStop {
    /// The script ends.
    End,
    /// The line is refused.
    Refused(ScriptRefusal),
    /// Memory ran out.
    NoMemory,
}

/// What a line of a script, without its line feed, asks for, where there are devices at the places
/// from 1 to `places`.
///
/// # Errors
///
/// `End` where the line is `quit`. `Refused` where it has more than 8,192 bytes, isn't in the
/// grammar, or names a place that is none. `NoMemory`, which comes at lines of frames and of packets
/// alone.
pub fn step_of(alloc: Global, line: &[u8], places: u32) -> Result<Step, StepStop>
    ensures step { IfOk result (Asks (order_of places line.now)) }
    ensures stop { IfErr result (IsStop (order_of places line.now)) }
    ensures memory { result ≡ Err StepStop.NoMemory → takes_memory line.now ≡ true }
    ensures kept { IfOk result (IsKept places) }
{
    match read_line(alloc, line) {
        Ok(command) => step_by(alloc, command, places),
        Err(LineError::TooLong) => Err(StepStop::Refused(ScriptRefusal::TooLong)),
        Err(LineError::Grammar) => Err(StepStop::Refused(ScriptRefusal::Grammar)),
        Err(LineError::NoMemory) => Err(StepStop::NoMemory),
    }
}

fn step_by(alloc: Global, command: Command, places: u32) -> Result<Step, StepStop>
    requires { IsShort command }
    ensures step { IfOk result (Asks (order_by places command)) }
    ensures stop { IfErr result (IsStop (order_by places command)) }
    ensures memory { result ≡ Err StepStop.NoMemory → has_frame command ≡ true }
    ensures kept { IfOk result (IsKept places) }
{
    match command {
        Command::Nothing => Ok(Step::Nothing),
        Command::Plug(place) => Ok(Step::Plug(place_among(places, place)?)),
        Command::Unplug(place) => Ok(Step::Unplug(place_among(places, place)?)),
        Command::Packet(place, packet) => {
            let place = place_among(places, place)?;
            let Ok(frame) = frame(alloc, &packet) else {
                return Err(StepStop::NoMemory);
            };
            let port = packet.key().in_port;
            Ok(Step::Arrival { place, port, frame })
        }
        Command::Frame(place, port, frame) => {
            let place = place_among(places, place)?;
            Ok(Step::Arrival { place, port, frame })
        }
        Command::Turn(place, turns) => {
            let place = place_among(places, place)?;
            Ok(Step::Turn { place, turns })
        }
        Command::Settle => Ok(Step::Settle),
        Command::Host(mac, place) => Ok(Step::Change(Update::Host { mac, place })),
        Command::NoHost(mac) => Ok(Step::Change(Update::NoHost { mac })),
        Command::Link(from, to) => Ok(Step::Change(Update::Link { from, to })),
        Command::NoLink(from) => Ok(Step::Change(Update::NoLink { from })),
        Command::Set(table, key, value) => Ok(Step::Change(Update::Set { table, key, value })),
        Command::Unset(table, key) => Ok(Step::Change(Update::Unset { table, key })),
        Command::NewPolicy => Ok(Step::NewPolicy),
        Command::Rules(switch) => Ok(Step::Rules(switch)),
        Command::Quit => Err(StepStop::End),
    }
}

#[tactic(auto, using(crate::proofs::Sizes::frame_short))]
fn frame(alloc: Global, packet: &PacketSpec) -> Result<Bytes, NoMemory>
    ensures frame { IfOk result (λ bytes. bytes ≡ frame packet.now) }
    ensures short { IfOk result (λ bytes. length bytes ≤ most_bytes) }
{
    let mut bytes = Vec::new(alloc);
    frame_of(packet, &mut bytes)?;
    Ok(Bytes::new(bytes))
}

// A place that is one of so many.
fn place_among(places: u32, place: u64) -> Result<u32, StepStop>
    ensures place { result ≡ place_among places place }
    ensures among { IfOk result (IsAmong places) }
{
    if 1 <= place && place <= places as u64 {
        Ok(place as u32)
    } else {
        Err(StepStop::Refused(ScriptRefusal::Switch))
    }
}
