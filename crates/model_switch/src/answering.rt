// What a switch answers to a message.
ghost use Rattle.std.specs.Prelude.{◌≡◌, ◌≤◌, true, length, IfOk, Some};
ghost use Rattle.maple_base.specs.declared.decision.TableMod.{TableMod};
ghost use Rattle.of10_codec.specs.Types.{most_bytes};
ghost use Rattle.of10_codec.specs.Lent.{body_of, message_of};
ghost use Rattle.of10_codec.specs.Written.{written, sent, fits_fields};
ghost use Rattle.device_port.specs.Switches.{change_of, message};
ghost use Rattle.device_port.specs.Devices.{Appends, IsOfController};
ghost use Rattle.model_switch.specs.Answers.{ports_up, Deals};
ghost use Rattle.model_switch.specs.Parts.{Says, Changes, Refuses};
ghost use Rattle.of10_codec.specs.declared.message.Body.TheVariants.{FeaturesReply};

use crate::changes::change_of;
use flow_table::{Applied, Table};
use maple_base::openflow::{ALL_TABLES_FULL, FLOW_MOD_FAILED};
use maple_base::{NoMemory, Port, Ports, TableMod, Turned};
use of10_codec::{Body, BodyRef, EncodeError, Message, MessageRef, VERSION, encode, encode_ref};
use std::alloc::Global;

/// Does what a message asks for, and appends its answer.
pub fn carry_out(
    alloc: Global,
    dpid: u64,
    ports: u16,
    message: &Message,
    table: &mut Table,
    out: &mut Vec<u8>,
) -> Turned
    requires ports { ports ≤ 1364 }
    requires sent { IsOfController message.now.body }
    ensures { Appends out.old.items out.new.items (λ bytes. Deals dpid ports message.now table.old result bytes table.new) }
{
    let xid = message.xid;
    match &message.body {
        Body::Hello { .. } => {
            let body = BodyRef::Hello { version: VERSION };
            say(&MessageRef { xid, body }, out)
        }
        Body::EchoRequest(bytes) => {
            let body = BodyRef::EchoReply(bytes.items());
            say(&MessageRef { xid, body }, out)
        }
        Body::FeaturesRequest => say_features(alloc, dpid, ports, xid, out),
        Body::BarrierRequest => {
            let body = BodyRef::BarrierReply;
            say(&MessageRef { xid, body }, out)
        }
        body => match change_of(body) {
            Some(change) => apply(xid, &change, table, out),
            None => Turned::Processed { xid },
        },
    }
}

// Appends a message.
fn say(message: &MessageRef<'_>, out: &mut Vec<u8>) -> Turned
    requires fits { fits_fields (body_of message.now.body) ≡ true }
    requires same { sent (message_of message.now) ≡ message_of message.now }
    requires short { length (written (message_of message.now)) ≤ most_bytes }
    ensures { Appends out.old.items out.new.items (λ bytes. Says (message_of message.now) result bytes) }
{
    match encode_ref(message, out) {
        Ok(()) => Turned::Processed { xid: message.xid },
        Err(EncodeError::TooLong(_)) => unreachable!(),
        Err(EncodeError::NoMemory) => Turned::NoMemory,
    }
}

fn say_features(alloc: Global, dpid: u64, ports: u16, xid: u32, out: &mut Vec<u8>) -> Turned
    requires { ports ≤ 1364 }
    ensures { Appends out.old.items out.new.items (λ bytes. Says (message xid (FeaturesReply dpid (ports_up ports))) result bytes) }
{
    let Ok(ports) = ports_up(alloc, ports) else {
        return Turned::NoMemory;
    };
    let message = Message {
        xid,
        body: Body::FeaturesReply {
            dpid,
            ports: Ports::new(ports),
        },
    };
    match encode(&message, out) {
        Ok(()) => Turned::Processed { xid },
        Err(EncodeError::TooLong(_)) => unreachable!(),
        Err(EncodeError::NoMemory) => Turned::NoMemory,
    }
}

// The ports 1 to n, all up.
fn ports_up(alloc: Global, count: u16) -> Result<Vec<Port>, NoMemory>
    ensures { IfOk result (λ ports. ports.items ≡ ports_up count) }
{
    let mut ports = Vec::new(alloc);
    for i in 0..count {
        ports.push(Port {
            number: i + 1,
            up: true,
        })?;
    }
    Ok(ports)
}

// Changes the table; where it is full, that is said.
fn apply(xid: u32, change: &TableMod, table: &mut Table, out: &mut Vec<u8>) -> Turned
    ensures { Appends out.old.items out.new.items (λ bytes. Changes xid change.now table.old result bytes table.new) }
{
    match table.apply(change) {
        Applied::Added | Applied::Replaced | Applied::Deleted(_) => Turned::Processed { xid },
        Applied::Full => refuse(xid, out),
        Applied::NoMemory => Turned::NoMemory,
    }
}

/// Appends that there is no room.
pub fn refuse(xid: u32, out: &mut Vec<u8>) -> Turned
    ensures { Appends out.old.items out.new.items (λ bytes. Refuses xid result bytes) }
{
    let body = BodyRef::Error {
        kind: FLOW_MOD_FAILED,
        code: ALL_TABLES_FULL,
        bytes: &[],
    };
    match say(&MessageRef { xid, body }, out) {
        Turned::Processed { .. } => Turned::Refused { xid },
        answer => answer,
    }
}
