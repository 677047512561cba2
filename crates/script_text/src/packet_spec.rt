// The packet of a packet line.
ghost use Rattle.std.specs.Prelude.{◌≡◌, true};
ghost use Rattle.script_text.specs.FieldReading.{packet_of};
ghost use Rattle.script_text.specs.PacketFields.{is_packet};

use maple_base::{FIRST_TYPE, ICMP, Key, TAG_TYPE};
use std::marker::Model;

/// A packet of a script, by its key: a valid one of VLAN priority 0, with a type that is no length
/// (at least 0x0600) and no tag (not 0x8100), whose ICMP type and code are bytes. Only `read_line`
/// makes one.
#[derive(Drop)]
pub struct PacketSpec {
    key: Key,
}

impl Model for PacketSpec {
    ghost use Rattle.std.specs.Prelude.{◌≡◌, true};
    ghost use Rattle.maple_base.specs.declared.key.Key.{Key as PacketKey};
    ghost use Rattle.script_text.specs.PacketFields.{is_packet};

    ghost Value = { PacketKey };

    ghost view = { λ a. a.key };

    ghost invariant = { λ a. is_packet a.key ≡ true };
}

impl PacketSpec {
    // The packet of a key, where a line may have it.
    pub(crate) fn new(key: Key) -> Option<PacketSpec>
        ensures { result ≡ packet_of key }
    {
        if is_packet(&key) {
            Some(PacketSpec { key })
        } else {
            None
        }
    }

    /// The packet's key. Its port is that of the line.
    pub fn key(&self) -> &Key
        ensures key { result.now ≡ self.now }
        ensures packet { is_packet result.now ≡ true }
    {
        &self.key
    }
}

fn is_packet(key: &Key) -> bool
    ensures { result ≡ is_packet key.now }
{
    key.valid()
        && key.dl_pcp == 0
        && FIRST_TYPE <= key.dl_type
        && key.dl_type != TAG_TYPE
        && (key.nw_proto != ICMP || (key.tp_src < 256 && key.tp_dst < 256))
}
