// Writing matches.
ghost use Rattle.std.specs.Prelude.{◌≡◌, ◌≤◌, true, if◌then◌else◌};
ghost use Rattle.of10_codec.specs.Written.{value_or_zero, wildcards, written_match};
ghost use Rattle.of10_codec.specs.Laws.{fixed_has_bits, match_has_bits};

use crate::wildcards::{
    DL_DST, DL_PCP, DL_SRC, DL_TYPE, DL_VLAN, IN_PORT, NW_DST, NW_PROTO, NW_SRC, NW_TOS, TP_DST,
    TP_SRC,
};
use maple_base::Match;

fn u8_or_zero(fixed: Option<u8>) -> u8
    ensures value { result ≡ value_or_zero fixed }
    ensures bits { fixed_has_bits 8 fixed ≡ true }
{
    match fixed {
        None => 0,
        Some(value) => value,
    }
}

fn u16_or_zero(fixed: Option<u16>) -> u16
    ensures value { result ≡ value_or_zero fixed }
    ensures bits { fixed_has_bits 16 fixed ≡ true }
{
    match fixed {
        None => 0,
        Some(value) => value,
    }
}

fn u32_or_zero(fixed: Option<u32>) -> u32
    ensures value { result ≡ value_or_zero fixed }
    ensures bits { fixed_has_bits 32 fixed ≡ true }
{
    match fixed {
        None => 0,
        Some(value) => value,
    }
}

fn u64_or_zero(fixed: Option<u64>) -> u64
    ensures { result ≡ value_or_zero fixed }
{
    match fixed {
        None => 0,
        Some(value) => value,
    }
}

fn bits_if(free: bool, bits: u32) -> u32
    ensures value { result ≡ (if free then bits else 0) }
    ensures most { result ≤ bits }
{
    if free { bits } else { 0 }
}

// The bits of what is not fixed (OpenFlow 1.0, 5.2.3, ofp_flow_wildcards); of an address, 32.
fn wildcards(of: &Match) -> u32
    ensures { result ≡ wildcards of.now }
{
    bits_if(of.in_port.is_none(), 1 << IN_PORT)
        + bits_if(of.dl_vlan.is_none(), 1 << DL_VLAN)
        + bits_if(of.dl_src.is_none(), 1 << DL_SRC)
        + bits_if(of.dl_dst.is_none(), 1 << DL_DST)
        + bits_if(of.dl_type.is_none(), 1 << DL_TYPE)
        + bits_if(of.nw_proto.is_none(), 1 << NW_PROTO)
        + bits_if(of.tp_src.is_none(), 1 << TP_SRC)
        + bits_if(of.tp_dst.is_none(), 1 << TP_DST)
        + bits_if(of.nw_src.is_none(), 32 << NW_SRC)
        + bits_if(of.nw_dst.is_none(), 32 << NW_DST)
        + bits_if(of.dl_pcp.is_none(), 1 << DL_PCP)
        + bits_if(of.nw_tos.is_none(), 1 << NW_TOS)
}

// The 40 bytes of a match (OpenFlow 1.0, 5.2.3, ofp_match).
pub(crate) fn bytes_of(of: &Match) -> [u8; 40]
    ensures value { result ≡ written_match of.now }
    ensures bits { match_has_bits of.now ≡ true }
{
    let [w0, w1, w2, w3] = wildcards(of).to_be_bytes();
    let [in0, in1] = u16_or_zero(of.in_port).to_be_bytes();
    let [_, _, s0, s1, s2, s3, s4, s5] = u64_or_zero(of.dl_src).to_be_bytes();
    let [_, _, d0, d1, d2, d3, d4, d5] = u64_or_zero(of.dl_dst).to_be_bytes();
    let [v0, v1] = u16_or_zero(of.dl_vlan).to_be_bytes();
    let pcp = u8_or_zero(of.dl_pcp);
    let [t0, t1] = u16_or_zero(of.dl_type).to_be_bytes();
    let tos = u8_or_zero(of.nw_tos);
    let proto = u8_or_zero(of.nw_proto);
    let [ns0, ns1, ns2, ns3] = u32_or_zero(of.nw_src).to_be_bytes();
    let [nd0, nd1, nd2, nd3] = u32_or_zero(of.nw_dst).to_be_bytes();
    let [ts0, ts1] = u16_or_zero(of.tp_src).to_be_bytes();
    let [td0, td1] = u16_or_zero(of.tp_dst).to_be_bytes();
    [
        w0, w1, w2, w3, in0, in1, s0, s1, s2, s3, s4, s5, d0, d1, d2, d3, d4, d5, v0, v1, pcp, 0,
        t0, t1, tos, proto, 0, 0, ns0, ns1, ns2, ns3, nd0, nd1, nd2, nd3, ts0, ts1, td0, td1,
    ]
}
