// The numbers of a switch's physical ports, and those that stand for others.
ghost use Rattle.std.specs.Prelude.{◌≡◌};
ghost use Rattle.maple_base.specs.Ports.{is_port};

/// The last number of a physical port, OFPP_MAX (OpenFlow 1.0, 5.2.1). The first is 1.
pub const LAST_PORT: u64 = 65_280;

/// The number that stands for all ports but the one that a packet came in by, OFPP_FLOOD (OpenFlow
/// 1.0, 5.2.1).
pub const FLOOD_PORT: u16 = 0xfffb;

/// The number that stands for the controller, OFPP_CONTROLLER (OpenFlow 1.0, 5.2.1).
pub const CONTROLLER_PORT: u16 = 0xfffd;

/// Whether a packet can be sent out of the port of this number: 1 to 65,280.
pub fn is_port(number: u64) -> bool
    ensures { result ≡ is_port number }
{
    1 <= number && number <= LAST_PORT
}
