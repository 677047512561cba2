// The headers ahead of a packet: Ethernet, an 802.1Q tag and SNAP.
ghost use Rattle.std.specs.Prelude.{◌≡◌, ◌+◌, ◌<◌, ◌^◌, ◌/◌, ◌%◌, true, false, length, drop, if◌then◌else◌, ◌==◌, IfOk};
ghost use Rattle.std.specs.Option.{IfSome, IfNone};
ghost use Rattle.std.specs.Result.{result_err};
ghost use Rattle.maple_base.specs.Assigned.{tag_type, no_vlan};
ghost use Rattle.maple_base.specs.NetworkOrder.{number_at};
ghost use Rattle.maple_base.specs.Keys.{link_valid};
ghost use Rattle.packet_key.specs.Frames.{link_key, packet_in};
ghost use Rattle.packet_key.specs.Readings.{cut_short, is_snap, type_in, behind_snap};

use crate::Malformed;
use crate::bytes::{read_u16, read_u48};
use maple_base::{FIRST_TYPE, Key, NO_VLAN, TAG_TYPE};

// The type of a frame without a type (OpenFlow 1.0, 3.4).
const NO_TYPE: u16 = 0x05ff;

// The LLC header and the organization that stand ahead of a type (RFC 1042).
const SNAP: u64 = 0xaaaa_0300_0000;

#[derive(Drop)]
struct EthernetHeader<'a> {
    dst: u64,
    src: u64,
    type_or_length: u16,
    rest: &'a [u8],
}

#[derive(Drop)]
struct VlanHeader<'a> {
    id: u16,
    priority: u8,
    type_or_length: u16,
    payload: &'a [u8],
}

// The key of the headers ahead of a frame's packet, and the packet.
pub(crate) fn link(in_port: u16, frame: &[u8]) -> Result<(Key, &[u8]), Malformed>
    ensures fault { result_err result ≡ cut_short frame.now }
    ensures key { IfOk result (λ r. r.0 ≡ link_key in_port frame.now) }
    ensures packet { IfOk result (λ r. r.1.now ≡ packet_in frame.now) }
    ensures valid { IfOk result (λ r. link_valid r.0 ≡ true) }
{
    let header = ethernet(frame).ok_or(Malformed::Ethernet)?;
    let vlan = vlan(header.type_or_length, header.rest).ok_or(Malformed::Tag)?;
    let (dl_type, packet) = typed(vlan.type_or_length, vlan.payload);
    let key = Key {
        in_port,
        dl_src: header.src,
        dl_dst: header.dst,
        dl_vlan: vlan.id,
        dl_pcp: vlan.priority,
        dl_type,
        nw_tos: 0,
        nw_proto: 0,
        nw_src: 0,
        nw_dst: 0,
        tp_src: 0,
        tp_dst: 0,
    };
    Ok((key, packet))
}

fn ethernet(frame: &[u8]) -> Option<EthernetHeader<'_>>
    ensures short { IfNone result (length frame.now < 14) }
    ensures whole { IfSome result (λ e. length e.rest.now + 14 ≡ length frame.now) }
    ensures dst { IfSome result (λ e. (e.dst ≡ number_at 0 6 frame.now) × (e.dst < 2 ^ 48)) }
    ensures src { IfSome result (λ e. (e.src ≡ number_at 6 6 frame.now) × (e.src < 2 ^ 48)) }
    ensures type_or_length { IfSome result (λ e. e.type_or_length ≡ number_at 12 2 frame.now) }
    ensures rest { IfSome result (λ e. e.rest.now ≡ drop 14 frame.now) }
{
    let (dst, rest) = read_u48(frame)?;
    let (src, rest) = read_u48(rest)?;
    let (type_or_length, rest) = read_u16(rest)?;
    Some(EthernetHeader {
        dst,
        src,
        type_or_length,
        rest,
    })
}

// What an Ethernet header's type says of the tag behind it.
fn vlan(type_or_length: u16, rest: &[u8]) -> Option<VlanHeader<'_>>
    ensures short { IfNone result ((type_or_length ≡ tag_type) × (length rest.now < 4)) }
    ensures whole { IfSome result (λ v. type_or_length ≡ tag_type → length v.payload.now + 4 ≡ length rest.now) }
    ensures id { IfSome result (λ v. v.id ≡ (if type_or_length == tag_type then number_at 0 2 rest.now % 2 ^ 12 else no_vlan)) }
    ensures priority { IfSome result (λ v. (v.priority ≡ (if type_or_length == tag_type then number_at 0 2 rest.now / 2 ^ 13 else 0)) × (v.priority < 8)) }
    ensures type_or_length { IfSome result (λ v. v.type_or_length ≡ (if type_or_length == tag_type then number_at 2 2 rest.now else type_or_length)) }
    ensures payload { IfSome result (λ v. v.payload.now ≡ (if type_or_length == tag_type then drop 4 rest.now else rest.now)) }
{
    if type_or_length != TAG_TYPE {
        return Some(VlanHeader {
            id: NO_VLAN,
            priority: 0,
            type_or_length,
            payload: rest,
        });
    }
    let (control, rest) = read_u16(rest)?;
    let (type_or_length, payload) = read_u16(rest)?;
    Some(VlanHeader {
        id: control & 0x0fff,
        priority: (control >> 13) as u8,
        type_or_length,
        payload,
    })
}

// The type of a payload, and the packet that has it.
fn typed(type_or_length: u16, payload: &[u8]) -> (u16, &[u8])
    ensures dl_type { result.0 ≡ type_in type_or_length payload.now }
    ensures packet { result.1.now ≡ behind_snap type_or_length payload.now }
{
    if type_or_length >= FIRST_TYPE {
        return (type_or_length, payload);
    }
    match snap(payload) {
        Some(typed) => typed,
        None => (NO_TYPE, payload),
    }
}

fn snap(payload: &[u8]) -> Option<(u16, &[u8])>
    ensures absent { IfNone result (is_snap 0 payload.now ≡ false) }
    ensures present { IfSome result (λ r. is_snap 0 payload.now ≡ true) }
    ensures dl_type { IfSome result (λ r. r.0 ≡ number_at 6 2 payload.now) }
    ensures packet { IfSome result (λ r. r.1.now ≡ drop 8 payload.now) }
{
    let (header, rest) = read_u48(payload)?;
    let (dl_type, packet) = read_u16(rest)?;
    if header == SNAP && dl_type >= FIRST_TYPE {
        Some((dl_type, packet))
    } else {
        None
    }
}
