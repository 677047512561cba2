// Writing ports.
ghost use Rattle.std.specs.Prelude.{◌≡◌, ◌+◌, ◌*◌, ◌/◌, ◌≤◌, ◌++◌, true, length, vec_len, vec_capacity};
ghost use Rattle.std.specs.List.{flat_map, list_all};
ghost use Rattle.of10_codec.specs.Lent.{all_ports};
ghost use Rattle.of10_codec.specs.Written.{written_port};
ghost use Rattle.of10_codec.specs.Laws.{port_has_bits};

use super::append::{append_u16, append_u32};
use crate::port_reading::{PORT_LEN, read_port};
use maple_base::{Port, append};

// OpenFlow 1.0, 5.2.1, ofp_phy_port.
pub(super) fn append_port(port: Port, out: &mut Vec<u8>)
    requires { vec_len out.old + 48 ≤ vec_capacity out.old }
    ensures items { out.new.items ≡ out.old.items ++ written_port port }
    ensures len { vec_len out.new ≡ vec_len out.old + 48 }
    ensures capacity { vec_capacity out.old ≤ vec_capacity out.new }
    ensures bits { port_has_bits port ≡ true }
{
    append_u16(port.number, out);
    // The address, the name and the config.
    append(&[0; 26], out);
    append_u32(if port.up { 0 } else { 1 }, out);
    // The features.
    append(&[0; 16], out);
}

pub(super) fn append_ports(ports: &[Port], out: &mut Vec<u8>)
    requires { vec_len out.old + 48 * length ports.now ≤ vec_capacity out.old }
    ensures items { out.new.items ≡ out.old.items ++ flat_map written_port ports.now }
    ensures len { vec_len out.new ≡ vec_len out.old + 48 * length ports.now }
    ensures capacity { vec_capacity out.old ≤ vec_capacity out.new }
    ensures bits { list_all port_has_bits ports.now ≡ true }
{
    for port in ports {
        append_port(*port, out);
    }
}

// The ports that these bytes show, each as it is written: with pads of 0.
pub(super) fn append_lent_ports(ports: &[u8], out: &mut Vec<u8>)
    requires { vec_len out.old + 48 * (length ports.now / 48) ≤ vec_capacity out.old }
    ensures items { out.new.items ≡ out.old.items ++ flat_map written_port (all_ports ports.now) }
    ensures capacity { vec_capacity out.old ≤ vec_capacity out.new }
    ensures bits { list_all port_has_bits (all_ports ports.now) ≡ true }
{
    for i in 0..ports.len() / PORT_LEN {
        append_port(read_port(&ports[PORT_LEN * i..]), out);
    }
}
