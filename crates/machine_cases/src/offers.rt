// Bytes that may be offered.
ghost use Rattle.std.specs.Prelude.{◌≡◌, true, None};
ghost use Rattle.device_port.specs.Switches.{change_of};
ghost use Rattle.of10_codec.specs.declared.message.Message.{Message};
ghost use Rattle.of10_codec.specs.Written.{is_address, match_fits_fields, fits_fields};
ghost use Rattle.device_port.specs.Devices.{IsOffer, IsOfController};

use maple_base::Match;
use model_switch::change_of;
use of10_codec::{Body, decode, encode};
use std::alloc::Global;

/// Whether the bytes are one message of a controller, as it is written.
pub fn is_offer(alloc: Global, bytes: &[u8]) -> bool
    ensures { result ≡ true → (x : Message) × IsOffer x bytes.now }
{
    let Ok(message) = decode(alloc, bytes) else {
        return false;
    };
    if !may_be_sent(&message.body) {
        return false;
    }
    let mut again = Vec::new(alloc);
    if encode(&message, &mut again).is_err() {
        return false;
    }
    again.as_slice() == bytes
}

// Whether a controller sends such a message, and its addresses have 48 bits.
fn may_be_sent(body: &Body) -> bool
    ensures { result ≡ true → IsOfController body.now × (fits_fields body.now ≡ true) }
{
    match body {
        Body::Hello { .. } => true,
        Body::Error { .. } => true,
        Body::EchoReply(_) => true,
        Body::FeaturesRequest => true,
        Body::SetConfig { .. } => true,
        Body::PacketOut { .. } => true,
        Body::FlowMod { of, .. } => has_addresses(of) && asks_change(body),
        Body::BarrierRequest => true,
        _ => false,
    }
}

fn has_addresses(of: &Match) -> bool
    ensures { result ≡ match_fits_fields of.now }
{
    is_address(of.dl_src) && is_address(of.dl_dst)
}

fn is_address(number: Option<u64>) -> bool
    ensures { result ≡ is_address number }
{
    match number {
        None => true,
        Some(value) => value < 1 << 48,
    }
}

fn asks_change(body: &Body) -> bool
    ensures { result ≡ true → change_of body.now ≡ None → ⊥ }
{
    change_of(body).is_some()
}
