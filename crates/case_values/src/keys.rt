// Keys: `BASE FIELD=NUMBER ..`, a base and the fields in which the key differs from it.
use crate::matches::{fields, push_part, with_part};
use case_text::{CaseStop, Words};
use maple_base::{Field, IP_TYPE, Key, Match, NO_VLAN};
use std::alloc::AllocError;

/// The key without a tag, and with 0 in each other field.
pub const BLANK: Key = Key {
    in_port: 0,
    dl_src: 0,
    dl_dst: 0,
    dl_vlan: NO_VLAN,
    dl_pcp: 0,
    dl_type: 0,
    nw_tos: 0,
    nw_proto: 0,
    nw_src: 0,
    nw_dst: 0,
    tp_src: 0,
    tp_dst: 0,
};

// TCP to port 80.
const WEB: Key = Key {
    in_port: 1,
    dl_src: 0x0200_0000_0001,
    dl_dst: 0x0200_0000_0002,
    dl_vlan: NO_VLAN,
    dl_pcp: 0,
    dl_type: IP_TYPE,
    nw_tos: 8,
    nw_proto: 6,
    nw_src: 0x0a00_0001,
    nw_dst: 0x0a00_0002,
    tp_src: 1024,
    tp_dst: 80,
};

// IP without ports.
const OSPF: Key = Key {
    nw_proto: 89,
    tp_src: 0,
    tp_dst: 0,
    ..WEB
};

const ARP: Key = Key {
    dl_type: 0x0806,
    nw_tos: 0,
    nw_proto: 0,
    nw_src: 0,
    nw_dst: 0,
    ..OSPF
};

/// The key that a base (`blank`, `web`, `ospf`, `arp`) and all further words, each `field=number`, are.
pub fn key_of(mut words: Words<'_>) -> Result<Key, CaseStop> {
    let base = match words.word() {
        "blank" => BLANK,
        "web" => WEB,
        "ospf" => OSPF,
        "arp" => ARP,
        _ => return Err(CaseStop::Unread),
    };
    with_fields(base, words)
}

/// A key with the numbers that all words, each `field=number`, give.
pub fn with_fields(base: Key, words: Words<'_>) -> Result<Key, CaseStop> {
    let mut of = Match::any();
    for word in words.rest().split_whitespace() {
        of = with_part(of, word)?;
    }
    Ok(Key {
        in_port: of.in_port.unwrap_or(base.in_port),
        dl_src: of.dl_src.unwrap_or(base.dl_src),
        dl_dst: of.dl_dst.unwrap_or(base.dl_dst),
        dl_vlan: of.dl_vlan.unwrap_or(base.dl_vlan),
        dl_pcp: of.dl_pcp.unwrap_or(base.dl_pcp),
        dl_type: of.dl_type.unwrap_or(base.dl_type),
        nw_tos: of.nw_tos.unwrap_or(base.nw_tos),
        nw_proto: of.nw_proto.unwrap_or(base.nw_proto),
        nw_src: of.nw_src.unwrap_or(base.nw_src),
        nw_dst: of.nw_dst.unwrap_or(base.nw_dst),
        tp_src: of.tp_src.unwrap_or(base.tp_src),
        tp_dst: of.tp_dst.unwrap_or(base.tp_dst),
    })
}

/// Appends a key as a match is written, without a number that is 0 and a VLAN that says that there is none; `blank`, where
/// nothing is left.
pub fn push_key(key: &Key, out: &mut String) -> Result<(), AllocError> {
    let begin = out.len();
    for field in fields() {
        let number = key.get(*field);
        let is_told = match *field {
            Field::DlVlan => key.dl_vlan != NO_VLAN,
            _ => number != 0,
        };
        if is_told {
            push_part(field.name(), number, begin, out)?;
        }
    }
    if key.dl_pcp != 0 {
        push_part("dl_pcp", key.dl_pcp as u64, begin, out)?;
    }
    if out.len() == begin {
        out.push_str("blank")?;
    }
    Ok(())
}
