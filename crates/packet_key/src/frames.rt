ghost use Rattle.std.specs.Prelude.{◌≡◌, true, IfOk};
ghost use Rattle.maple_base.specs.Keys.{valid_key};
ghost use Rattle.packet_key.specs.Frames.{key_of};

use crate::Malformed;
use crate::ip::with_packet;
use crate::link::link;
use maple_base::{IP_TYPE, Key};

/// The key of a frame that came in by this port: what a switch matches on (OpenFlow 1.0, 3.4), of
/// Ethernet with at most one 802.1Q tag, SNAP, IPv4, TCP, UDP and ICMP. A fragment's ports are 0.
///
/// # Errors
///
/// The first header that is cut short or is no such header.
pub fn key_of(in_port: u16, frame: &[u8]) -> Result<Key, Malformed>
    ensures key { result ≡ key_of in_port frame.now }
    ensures valid { IfOk result (λ k. valid_key k ≡ true) }
{
    let (key, packet) = link(in_port, frame)?;
    if key.dl_type == IP_TYPE {
        with_packet(key, packet)
    } else {
        Ok(key)
    }
}
