// What a switch here sends.
ghost use Rattle.std.specs.Prelude.{◌≡◌, [], Decides};
ghost use Rattle.of10_codec.specs.declared.message.Body.TheVariants.{Error, FeaturesReply};
ghost use Rattle.device_port.specs.Switches.{IsFree};
ghost use Rattle.model_switch.specs.Answers.{ports_up};
ghost use Rattle.world_places.specs.Said.{body_said, message_sent};

use maple_base::openflow::{ALL_TABLES_FULL, FLOW_MOD_FAILED};
use maple_base::{Bytes, Port};
use of10_codec::{Body, Message, VERSION};

/// What a switch here sends.
#[derive(Drop)]
pub enum Said {
    /// A HELLO.
    Hello,
    /// Its features: its number, and so many ports, all up.
    Features { dpid: u64, ports: u16 },
    /// The bytes of an echo.
    Echo(Bytes),
    /// That there is no room for a rule.
    NoRoom,
    /// The reply to a barrier.
    Barrier,
}

/// A message that a switch here sent.
#[derive(Drop)]
pub struct Sent {
    /// The id of the message that it answers.
    pub xid: u32,
    /// What it says.
    pub said: Said,
}

/// Whether a message is the one that was sent.
pub fn is_sent(sent: &Sent, message: &Message) -> bool
    ensures { Decides result (message.now ≡ message_sent sent.now) }
{
    sent.xid == message.xid && is_said(&sent.said, &message.body)
}

fn is_said(said: &Said, body: &Body) -> bool
    ensures { Decides result (body.now ≡ body_said said.now) }
{
    match said {
        Said::Hello => matches!(body, Body::Hello { version } if *version == VERSION),
        Said::Features { dpid, ports } => are_features(*dpid, *ports, body),
        Said::Echo(bytes) => {
            matches!(body, Body::EchoReply(echoed) if echoed.items() == bytes.items())
        }
        Said::NoRoom => is_no_room(body),
        Said::Barrier => matches!(body, Body::BarrierReply),
    }
}

fn are_features(dpid: u64, count: u16, body: &Body) -> bool
    ensures { Decides result (body.now ≡ FeaturesReply dpid (ports_up count)) }
{
    match body {
        Body::FeaturesReply { dpid: told, ports } => {
            *told == dpid && are_up(ports.items(), count)
        }
        _ => false,
    }
}

fn is_no_room(body: &Body) -> bool
    ensures { Decides result (body.now ≡ Error 3 0 []) }
{
    match body {
        Body::Error { kind, code, bytes } => {
            *kind == FLOW_MOD_FAILED && *code == ALL_TABLES_FULL && bytes.items().is_empty()
        }
        _ => false,
    }
}

// Whether these are the ports 1 to n, all up.
fn are_up(ports: &[Port], count: u16) -> bool
    ensures { Decides result (ports.now ≡ ports_up count) }
{
    if ports.len() != count as usize {
        return false;
    }
    for i in 0..count {
        let port = Port {
            number: i + 1,
            up: true,
        };
        if ports[i as usize] != port {
            return false;
        }
    }
    true
}

/// Whether a message is one that a switch may send at any moment.
pub fn is_free(message: &Message) -> bool
    ensures { Decides result (IsFree message.now) }
{
    match &message.body {
        Body::Hello { .. }
        | Body::PacketIn { .. }
        | Body::PortStatus { .. }
        | Body::EchoRequest(_)
        | Body::EchoReply(_)
        | Body::FlowRemoved { .. }
        | Body::Other { .. } => true,
        Body::Error { .. } => message.xid == 0,
        _ => false,
    }
}
