// Numbers that are assigned: types of frames, protocols, and the VLAN id that stands for no tag.

/// The type of a frame that has an IPv4 packet (RFC 894).
pub const IP_TYPE: u16 = 0x0800;

/// The type of a frame that has a tag (IEEE 802.1Q, 9.6).
pub const TAG_TYPE: u16 = 0x8100;

/// The least type; a number below it is a length (IEEE 802.3, 3.2.6).
pub const FIRST_TYPE: u16 = 0x0600;

/// The VLAN id that stands for a packet without a tag (OpenFlow 1.0, 3.4).
pub const NO_VLAN: u16 = 0xffff;

/// The protocol number of ICMP (RFC 790).
pub const ICMP: u8 = 1;

/// The protocol number of TCP (RFC 790).
pub const TCP: u8 = 6;

/// The protocol number of UDP (RFC 790).
pub const UDP: u8 = 17;
