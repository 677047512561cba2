// The headers of an IPv4 packet: its own (RFC 791, 3.1), and the ports of TCP, UDP and ICMP.
ghost use Rattle.std.specs.Prelude.{◌≡◌, ◌*◌, ◌/◌, true, false, IfOk};
ghost use Rattle.std.specs.Option.{IfSome, IfNone};
ghost use Rattle.maple_base.specs.Assigned.{ip_type};
ghost use Rattle.maple_base.specs.NetworkOrder.{number_at};
ghost use Rattle.maple_base.specs.Keys.{link_valid, valid_key};
ghost use Rattle.packet_key.specs.Frames.{has_header, is_fragment, segment, ip_key, port_width};
ghost use Rattle.packet_key.specs.Readings.{ports_of};

use crate::Malformed;
use crate::bytes::{read_u8, read_u16, read_u32};
use maple_base::{ICMP, Key, TCP, UDP};

#[derive(Drop)]
struct IpHeader<'a> {
    tos: u8,
    is_fragment: bool,
    proto: u8,
    src: u32,
    dst: u32,
    segment: &'a [u8],
}

// The key with the numbers of an IP header and with the ports.
pub(crate) fn with_packet(key: Key, packet: &[u8]) -> Result<Key, Malformed>
    requires { (link_valid key ≡ true) × (key.dl_type ≡ ip_type) }
    ensures key { result ≡ ip_key key packet.now }
    ensures valid { IfOk result (λ k. valid_key k ≡ true) }
{
    let header = ip_header(packet).ok_or(Malformed::Ip)?;
    let (tp_src, tp_dst) = if header.is_fragment {
        (0, 0)
    } else {
        ports(header.proto, header.segment).ok_or(Malformed::Transport)?
    };
    Ok(Key {
        nw_tos: header.tos,
        nw_proto: header.proto,
        nw_src: header.src,
        nw_dst: header.dst,
        tp_src,
        tp_dst,
        ..key
    })
}

fn ip_header(packet: &[u8]) -> Option<IpHeader<'_>>
    ensures absent { IfNone result (has_header packet.now ≡ false) }
    ensures present { IfSome result (λ h. has_header packet.now ≡ true) }
    ensures tos { IfSome result (λ h. h.tos ≡ 4 * (number_at 1 1 packet.now / 4)) }
    ensures fragment { IfSome result (λ h. h.is_fragment ≡ is_fragment packet.now) }
    ensures proto { IfSome result (λ h. h.proto ≡ number_at 9 1 packet.now) }
    ensures src { IfSome result (λ h. h.src ≡ number_at 12 4 packet.now) }
    ensures dst { IfSome result (λ h. h.dst ≡ number_at 16 4 packet.now) }
    ensures segment { IfSome result (λ h. h.segment.now ≡ segment packet.now) }
{
    let (version_and_length, rest) = read_u8(packet)?;
    let (tos, rest) = read_u8(rest)?;
    let (_total_length, rest) = read_u16(rest)?;
    let (_identification, rest) = read_u16(rest)?;
    let (flags_and_offset, rest) = read_u16(rest)?;
    let (_time_to_live, rest) = read_u8(rest)?;
    let (proto, rest) = read_u8(rest)?;
    let (_checksum, rest) = read_u16(rest)?;
    let (src, rest) = read_u32(rest)?;
    let (dst, _) = read_u32(rest)?;
    let length = 4 * usize::from(version_and_length & 0x0f);
    if version_and_length >> 4 != 4 || length < 20 {
        return None;
    }
    let segment = packet.get(length..)?;
    Some(IpHeader {
        tos: tos & 0xfc,
        is_fragment: flags_and_offset & 0x3fff != 0,
        proto,
        src,
        dst,
        segment,
    })
}

// The ports of a segment; the type and the code of ICMP stand for them (OpenFlow 1.0, 3.4).
fn ports(proto: u8, segment: &[u8]) -> Option<(u16, u16)>
    ensures { result ≡ ports_of (port_width proto) segment.now }
{
    match proto {
        TCP | UDP => {
            let (src, rest) = read_u16(segment)?;
            let (dst, _) = read_u16(rest)?;
            Some((src, dst))
        }
        ICMP => {
            let (kind, rest) = read_u8(segment)?;
            let (code, _) = read_u8(rest)?;
            Some((u16::from(kind), u16::from(code)))
        }
        _ => Some((0, 0)),
    }
}
