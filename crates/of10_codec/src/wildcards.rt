// The bits of a match's wildcards (OpenFlow 1.0, 5.2.3, ofp_flow_wildcards). Of an address it is the
// lowest of six bits that count how many of its low bits are wildcarded.

pub const IN_PORT: u32 = 0;

pub const DL_VLAN: u32 = 1;

pub const DL_SRC: u32 = 2;

pub const DL_DST: u32 = 3;

pub const DL_TYPE: u32 = 4;

pub const NW_PROTO: u32 = 5;

pub const TP_SRC: u32 = 6;

pub const TP_DST: u32 = 7;

pub const NW_SRC: u32 = 8;

pub const NW_DST: u32 = 14;

pub const DL_PCP: u32 = 20;

pub const NW_TOS: u32 = 21;
