// The frame of a packet line.
ghost use Rattle.std.specs.Prelude.{◌≡◌, true, ◌+◌, ◌<◌, ◌≤◌, ◌++◌, ◌==◌, length, vec_len, vec_capacity, OnOk, OnErr};
ghost use Rattle.script_text.specs.PacketFields.{is_packet};
ghost use Rattle.script_text.specs.Frames.{addresses, tag, tcp, udp, icmp, segment, ip_header, ip_packet, frame};

use crate::PacketSpec;
use maple_base::{ICMP, IP_TYPE, Key, NO_VLAN, NoMemory, TAG_TYPE, TCP, UDP, append};

// A frame with a tag and a TCP segment.
const LONGEST: usize = 58;

/// Appends the frame of a packet: its Ethernet addresses, a tag of priority 0 where it has a VLAN
/// id, its type; behind the type of IP a header of 20 bytes, and behind that the 20 bytes of a TCP
/// header, the 8 of a UDP header or the 8 of an ICMP message, for these protocols.
///
/// # Errors
///
/// Where memory runs out; never where `out` has room for 58 bytes more. Then `out` has what it had.
pub fn frame_of(spec: &PacketSpec, out: &mut Vec<u8>) -> Result<(), NoMemory>
    ensures frame { OnOk result (out.new.items ≡ out.old.items ++ frame spec.now) }
    ensures kept { OnErr result (out.new.items ≡ out.old.items) }
    ensures room { OnErr result (vec_capacity out.old < vec_len out.old + 58) }
{
    let key = spec.key();
    // All room at once, so that nothing fails once `out` has changed.
    out.reserve(LONGEST)?;
    append(&addresses(key), out);
    append_tag(key, out);
    append(&key.dl_type.to_be_bytes(), out);
    append_packet(key, out);
    Ok(())
}

#[tactic(auto, unfolding(crate::specs::Frames::addresses))]
fn addresses(key: &Key) -> [u8; 12]
    ensures { result ≡ addresses key.now }
{
    let [_, _, d0, d1, d2, d3, d4, d5] = key.dl_dst.to_be_bytes();
    let [_, _, s0, s1, s2, s3, s4, s5] = key.dl_src.to_be_bytes();
    [d0, d1, d2, d3, d4, d5, s0, s1, s2, s3, s4, s5]
}

// IEEE 802.1Q, 9.6.
#[tactic(auto, unfolding(crate::specs::Frames::tag))]
fn append_tag(key: &Key, out: &mut Vec<u8>)
    requires { vec_len out.old + 4 ≤ vec_capacity out.old }
    ensures items { out.new.items ≡ out.old.items ++ tag key.now }
    ensures len { vec_len out.new ≤ vec_len out.old + 4 }
    ensures capacity { vec_capacity out.old ≤ vec_capacity out.new }
{
    if key.dl_vlan != NO_VLAN {
        append(&TAG_TYPE.to_be_bytes(), out);
        append(&key.dl_vlan.to_be_bytes(), out);
    }
}

#[tactic(auto, unfolding(crate::specs::Frames::ip_packet))]
fn append_packet(key: &Key, out: &mut Vec<u8>)
    requires packet { is_packet key.now ≡ true }
    requires room { vec_len out.old + 40 ≤ vec_capacity out.old }
    ensures { out.new.items ≡ out.old.items ++ ip_packet key.now }
{
    if key.dl_type == IP_TYPE {
        append(&ip_header(key, 20 + segment_len(key)), out);
        append_segment(key, out);
    }
}

// RFC 791, 3.1.
#[tactic(auto, unfolding(crate::specs::Frames::ip_header))]
fn ip_header(key: &Key, total: u16) -> [u8; 20]
    ensures { result ≡ ip_header key.now total }
{
    let [tos] = key.nw_tos.to_be_bytes();
    let [l0, l1] = total.to_be_bytes();
    let [proto] = key.nw_proto.to_be_bytes();
    let [s0, s1, s2, s3] = key.nw_src.to_be_bytes();
    let [d0, d1, d2, d3] = key.nw_dst.to_be_bytes();
    [
        0x45, tos, l0, l1, 0, 0, 0, 0, 0x40, proto, 0, 0, s0, s1, s2, s3, d0, d1, d2, d3,
    ]
}

#[tactic(auto, unfolding(crate::specs::Frames::segment))]
fn segment_len(key: &Key) -> u16
    ensures len { result ≡ length (segment key.now) }
    ensures most { result ≤ 20 }
{
    match key.nw_proto {
        TCP => 20,
        UDP | ICMP => 8,
        _ => 0,
    }
}

#[tactic(auto, unfolding(crate::specs::Frames::segment))]
fn append_segment(key: &Key, out: &mut Vec<u8>)
    requires packet { is_packet key.now ≡ true }
    requires room { vec_len out.old + 20 ≤ vec_capacity out.old }
    ensures { out.new.items ≡ out.old.items ++ segment key.now }
{
    match key.nw_proto {
        TCP => append(&tcp(key), out),
        UDP => append(&udp(key), out),
        ICMP => append(&icmp(key), out),
        _ => {}
    }
}

// RFC 793, 3.1.
fn tcp(key: &Key) -> [u8; 20]
    ensures { result ≡ tcp key.now }
{
    let [s0, s1] = key.tp_src.to_be_bytes();
    let [d0, d1] = key.tp_dst.to_be_bytes();
    [
        s0, s1, d0, d1, 0, 0, 0, 0, 0, 0, 0, 0, 0x50, 0, 0, 0, 0, 0, 0, 0,
    ]
}

// RFC 768.
fn udp(key: &Key) -> [u8; 8]
    ensures { result ≡ udp key.now }
{
    let [s0, s1] = key.tp_src.to_be_bytes();
    let [d0, d1] = key.tp_dst.to_be_bytes();
    [s0, s1, d0, d1, 0, 8, 0, 0]
}

// RFC 792.
fn icmp(key: &Key) -> [u8; 8]
    requires kind { key.now.tp_src < 256 }
    requires code { key.now.tp_dst < 256 }
    ensures { result ≡ icmp key.now }
{
    [key.tp_src as u8, key.tp_dst as u8, 0, 0, 0, 0, 0, 0]
}
