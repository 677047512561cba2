// Reading ports.
ghost use Rattle.std.specs.Prelude.{◌≡◌, ◌%◌, ◌≤◌, ◌==◌, length, IfOk};
ghost use Rattle.of10_codec.specs.Lent.{all_ports};
ghost use Rattle.of10_codec.specs.Messages.{is_up};
ghost use Rattle.of10_codec.specs.Reading.{port_in};

use crate::number::{u16_at, u32_at};
use maple_base::{NoMemory, Port, Ports};
use std::alloc::Global;

/// How many bytes a port has (OpenFlow 1.0, 5.2.1, ofp_phy_port).
pub const PORT_LEN: usize = 48;

/// The port that the bytes begin with.
pub fn read_port(bytes: &[u8]) -> Port
    requires { 32 ≤ length bytes.now }
    ensures { result ≡ port_in bytes.now }
{
    Port {
        number: u16_at(bytes, 0),
        up: is_up(bytes),
    }
}

fn is_up(bytes: &[u8]) -> bool
    requires { 32 ≤ length bytes.now }
    ensures { result ≡ is_up bytes.now }
{
    is_clear(u32_at(bytes, 24)) && is_clear(u32_at(bytes, 28))
}

// bit 0 is not set: of config OFPPC_PORT_DOWN, and of state OFPPS_LINK_DOWN
fn is_clear(flags: u32) -> bool
    ensures { result ≡ (flags % 2 == 0) }
{
    flags % 2 == 0
}

/// All ports of the bytes, in order.
pub fn read_ports(alloc: Global, bytes: &[u8]) -> Result<Ports, NoMemory>
    ensures { IfOk result (λ ports. ports ≡ all_ports bytes.now) }
{
    let count = bytes.len() / PORT_LEN;
    let mut ports = Vec::with_capacity(alloc, count)?;
    for i in 0..count {
        ports.push(read_port(&bytes[PORT_LEN * i..]))?;
    }
    Ok(Ports::new(ports))
}
