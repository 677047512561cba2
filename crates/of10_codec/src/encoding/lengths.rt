// How long what is written is.
ghost use Rattle.std.specs.Prelude.{◌≡◌, ◌^◌, ◌<◌, length};
ghost use Rattle.of10_codec.specs.Lent.{body_of};
ghost use Rattle.of10_codec.specs.Written.{written_body};

use crate::{Body, BodyRef};

// How many bytes stand behind the header.
pub(crate) fn len_of(body: &Body) -> u128
    ensures value { result ≡ length (written_body body.now) }
    ensures most { result < 2 ^ 70 }
{
    match body {
        Body::Hello { .. }
        | Body::FeaturesRequest
        | Body::BarrierRequest
        | Body::BarrierReply
        | Body::Other { .. } => 0,
        Body::Error { bytes, .. } => 4 + bytes.items().len() as u128,
        Body::EchoRequest(bytes) | Body::EchoReply(bytes) => bytes.items().len() as u128,
        Body::FeaturesReply { ports, .. } => 24 + 48 * ports.items().len() as u128,
        Body::SetConfig { .. } => 4,
        Body::PacketIn { bytes, .. } => 10 + bytes.items().len() as u128,
        Body::FlowRemoved { .. } => 80,
        Body::PortStatus { .. } => 56,
        Body::PacketOut { actions, bytes, .. } => {
            8 + 8 * actions.items().len() as u128 + bytes.items().len() as u128
        }
        Body::FlowMod { actions, .. } => 64 + 8 * actions.items().len() as u128,
    }
}

// The same of a body that is lent.
pub(crate) fn lent_len(body: &BodyRef<'_>) -> u128
    ensures value { result ≡ length (written_body (body_of body.now)) }
    ensures most { result < 2 ^ 70 }
{
    match *body {
        BodyRef::Hello { .. }
        | BodyRef::FeaturesRequest
        | BodyRef::BarrierRequest
        | BodyRef::BarrierReply
        | BodyRef::Other { .. } => 0,
        BodyRef::Error { bytes, .. } => 4 + count(bytes),
        BodyRef::EchoRequest(bytes) | BodyRef::EchoReply(bytes) => count(bytes),
        BodyRef::FeaturesReply { ports, .. } => 24 + 48 * (count(ports) / 48),
        BodyRef::SetConfig { .. } => 4,
        BodyRef::PacketIn { bytes, .. } => 10 + count(bytes),
        BodyRef::FlowRemoved { .. } => 80,
        BodyRef::PortStatus { .. } => 56,
        BodyRef::PacketOut { actions, bytes, .. } => {
            8 + 8 * actions.items().len() as u128 + count(bytes)
        }
        BodyRef::FlowMod { actions, .. } => 64 + 8 * actions.items().len() as u128,
    }
}

// How many bytes there are, which is below 2^64.
fn count(bytes: &[u8]) -> u128
    ensures value { result ≡ length bytes.now }
    ensures most { result < 2 ^ 64 }
{
    bytes.len() as u128
}
