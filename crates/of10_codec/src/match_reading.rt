// Reading a match.
ghost use Rattle.std.specs.Prelude.{◌≡◌, ◌+◌, ◌<◌, ◌≤◌, ◌&&◌, ◌==◌, false, length, IfSome, IfNone};
ghost use Rattle.std.specs.Int.{bit_at};
ghost use Rattle.maple_base.specs.NetworkOrder.{number_at};
ghost use Rattle.of10_codec.specs.Matches.{SpellsMatch, unless, is_whole, is_all, wild_bits, nw_src_bit, nw_dst_bit};
ghost use Rattle.of10_codec.specs.Reading.{bits_from};

use crate::number::{u8_at, u16_at, u32_at, u48_at};
use crate::wildcards::{
    DL_DST, DL_PCP, DL_SRC, DL_TYPE, DL_VLAN, IN_PORT, NW_DST, NW_PROTO, NW_SRC, NW_TOS, TP_DST,
    TP_SRC,
};
use maple_base::Match;

/// The match that the first 40 bytes spell (OpenFlow 1.0, 5.2.3, ofp_match), or `None` where they
/// wildcard an address in part.
pub fn read_match(bytes: &[u8]) -> Option<Match>
    requires { 40 ≤ length bytes.now }
    ensures found { IfSome result (λ of. SpellsMatch of bytes.now) }
    ensures part { IfNone result ((is_whole (wild_bits nw_src_bit bytes.now) && is_whole (wild_bits nw_dst_bit bytes.now)) ≡ false) }
{
    let wild = u32_at(bytes, 0);
    let src = wild_count(wild, NW_SRC);
    let dst = wild_count(wild, NW_DST);
    if !is_whole(src) || !is_whole(dst) {
        return None;
    }
    Some(Match {
        in_port: u16_unless(is_set(wild, IN_PORT), bytes, 4),
        dl_src: u48_unless(is_set(wild, DL_SRC), bytes, 6),
        dl_dst: u48_unless(is_set(wild, DL_DST), bytes, 12),
        dl_vlan: u16_unless(is_set(wild, DL_VLAN), bytes, 18),
        dl_pcp: u8_unless(is_set(wild, DL_PCP), bytes, 20),
        dl_type: u16_unless(is_set(wild, DL_TYPE), bytes, 22),
        nw_tos: u8_unless(is_set(wild, NW_TOS), bytes, 24),
        nw_proto: u8_unless(is_set(wild, NW_PROTO), bytes, 25),
        nw_src: u32_unless(is_all(src), bytes, 28),
        nw_dst: u32_unless(is_all(dst), bytes, 32),
        tp_src: u16_unless(is_set(wild, TP_SRC), bytes, 36),
        tp_dst: u16_unless(is_set(wild, TP_DST), bytes, 38),
    })
}

fn is_set(wildcards: u32, bit: u32) -> bool
    requires { bit < 32 }
    ensures { result ≡ (bit_at wildcards bit == 1) }
{
    (wildcards >> bit) % 2 == 1
}

// how many low bits of an address are wildcarded
fn wild_count(wildcards: u32, bit: u32) -> u32
    requires { bit < 32 }
    ensures { result ≡ bits_from bit wildcards }
{
    (wildcards >> bit) % 64
}

fn is_all(count: u32) -> bool
    ensures { result ≡ is_all count }
{
    32 <= count
}

fn is_whole(count: u32) -> bool
    ensures { result ≡ is_whole count }
{
    count == 0 || is_all(count)
}

fn u8_unless(wild: bool, bytes: &[u8], place: usize) -> Option<u8>
    requires { place + 1 ≤ length bytes.now }
    ensures { result ≡ unless wild (number_at place 1 bytes.now) }
{
    if wild {
        None
    } else {
        Some(u8_at(bytes, place))
    }
}

fn u16_unless(wild: bool, bytes: &[u8], place: usize) -> Option<u16>
    requires { place + 2 ≤ length bytes.now }
    ensures { result ≡ unless wild (number_at place 2 bytes.now) }
{
    if wild {
        None
    } else {
        Some(u16_at(bytes, place))
    }
}

fn u32_unless(wild: bool, bytes: &[u8], place: usize) -> Option<u32>
    requires { place + 4 ≤ length bytes.now }
    ensures { result ≡ unless wild (number_at place 4 bytes.now) }
{
    if wild {
        None
    } else {
        Some(u32_at(bytes, place))
    }
}

fn u48_unless(wild: bool, bytes: &[u8], place: usize) -> Option<u64>
    requires { place + 6 ≤ length bytes.now }
    ensures { result ≡ unless wild (number_at place 6 bytes.now) }
{
    if wild {
        None
    } else {
        Some(u48_at(bytes, place))
    }
}
