// What a switch does with a frame.
ghost use Rattle.std.specs.Prelude.{◌≡◌, ◌≤◌, [], ◌∷◌, length, Decides};
ghost use Rattle.maple_base.specs.Ports.{controller_port};
ghost use Rattle.device_port.specs.Devices.{Appends};
ghost use Rattle.model_switch.specs.Answers.{Sees};
ghost use Rattle.model_switch.specs.Parts.{SendsFrame};

use flow_table::Table;
use maple_base::openflow::{ACTION, NO_BUFFER, NO_MATCH};
use maple_base::{CONTROLLER_PORT, Rule, Seen};
use of10_codec::{BodyRef, EncodeError, MessageRef, encode_ref};
use packet_key::key_of;

/// Looks a frame up: a rule that may be chosen is hit, unless it sends to the controller alone.
pub fn look_up(table: &Table, port: u16, frame: &[u8], out: &mut Vec<u8>) -> Seen
    requires { length frame.now ≤ 65517 }
    ensures { Appends out.old.items out.new.items (λ bytes. Sees port frame.now table.now result bytes) }
{
    let Ok(key) = key_of(port, frame) else {
        return send_up(port, frame, NO_MATCH, out);
    };
    let Some(rule) = table.choose(&key) else {
        return send_up(port, frame, NO_MATCH, out);
    };
    if sends_up(rule) {
        send_up(port, frame, ACTION, out)
    } else {
        Seen::Hit(rule.actions)
    }
}

/// Whether a rule sends to the controller alone.
pub fn sends_up(rule: &Rule) -> bool
    ensures { Decides result (rule.now.actions ≡ controller_port ∷ []) }
{
    rule.actions.items() == [CONTROLLER_PORT].as_slice()
}

// Appends the packet for the controller.
fn send_up(port: u16, frame: &[u8], reason: u8, out: &mut Vec<u8>) -> Seen
    requires { length frame.now ≤ 65517 }
    ensures { Appends out.old.items out.new.items (λ bytes. SendsFrame port frame.now reason result bytes) }
{
    let body = BodyRef::PacketIn {
        buffer: NO_BUFFER,
        total: frame.len() as u16,
        in_port: port,
        reason,
        bytes: frame,
    };
    match encode_ref(&MessageRef { xid: 0, body }, out) {
        Ok(()) => Seen::Miss { reason },
        Err(EncodeError::TooLong(_)) => unreachable!(),
        Err(EncodeError::NoMemory) => Seen::NoMemory,
    }
}
