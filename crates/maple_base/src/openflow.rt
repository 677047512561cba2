// Numbers that OpenFlow 1.0 gives a meaning, beside those of ports.

/// The buffer of a packet that the switch keeps no bytes of: its bytes stand in the message
/// (OpenFlow 1.0, 5.3.3, 5.3.6, 5.4.1).
pub const NO_BUFFER: u32 = 0xffff_ffff;

/// The port of a change that is restricted to no port, OFPP_NONE (OpenFlow 1.0, 5.2.1, 5.3.3).
pub const NO_PORT: u16 = 0xffff;

/// As many bytes of a packet as it has, where it goes to the controller (OpenFlow 1.0, 5.2.4
/// `max_len`, 5.3.2 `miss_send_len`).
pub const WHOLE: u16 = 0xffff;

/// The command that adds a rule, or puts it in place of the one of its match and priority,
/// OFPFC_ADD (OpenFlow 1.0, 5.3.3, ofp_flow_mod_command).
pub const ADD: u16 = 0;

/// The command that deletes all rules that a match covers, OFPFC_DELETE (OpenFlow 1.0, 5.3.3,
/// ofp_flow_mod_command).
pub const DELETE: u16 = 3;

/// The command that deletes the rule of just this match and priority, OFPFC_DELETE_STRICT (OpenFlow
/// 1.0, 5.3.3, ofp_flow_mod_command).
pub const DELETE_STRICT: u16 = 4;

/// The reason of a PACKET_IN that no rule fits, OFPR_NO_MATCH (OpenFlow 1.0, 5.4.1,
/// ofp_packet_in_reason).
pub const NO_MATCH: u8 = 0;

/// The reason of a PACKET_IN that a rule sends to the controller, OFPR_ACTION (OpenFlow 1.0, 5.4.1,
/// ofp_packet_in_reason).
pub const ACTION: u8 = 1;

/// The reason of a PORT_STATUS for a port that was deleted, OFPPR_DELETE (OpenFlow 1.0, 5.4.3,
/// ofp_port_reason).
pub const PORT_DELETED: u8 = 1;

/// The greatest reason of a PORT_STATUS: the port changed, OFPPR_MODIFY (OpenFlow 1.0, 5.4.3,
/// ofp_port_reason).
pub const PORT_MODIFIED: u8 = 2;

/// The kind of an ERROR that answers a HELLO, OFPET_HELLO_FAILED (OpenFlow 1.0, 5.4.4,
/// ofp_error_type).
pub const HELLO_FAILED: u16 = 0;

/// The code of such an ERROR where no version is common to both sides, OFPHFC_INCOMPATIBLE
/// (OpenFlow 1.0, 5.4.4, ofp_hello_failed_code).
pub const INCOMPATIBLE: u16 = 0;

/// The kind of an ERROR that answers a FLOW_MOD, OFPET_FLOW_MOD_FAILED (OpenFlow 1.0, 5.4.4,
/// ofp_error_type).
pub const FLOW_MOD_FAILED: u16 = 3;

/// The code of such an ERROR where the table has no room for a rule, OFPFMFC_ALL_TABLES_FULL
/// (OpenFlow 1.0, 5.4.4, ofp_flow_mod_failed_code).
pub const ALL_TABLES_FULL: u16 = 0;
