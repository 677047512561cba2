// The messages that wait in the machine.
ghost use Rattle.std.specs.Prelude.{◌≡◌, ◌+◌, ◌^◌, ◌<◌};
ghost use Rattle.world_steps.specs.Worlds.{messages_for};
ghost use Rattle.sim_channels.specs.Delivering.{ahead_of_last};

use machine_desk::Desk;
use maple_base::Witness;
use message_blocks::Messages;

/// The number of the connection of the device with this index.
pub fn connection_of(at: usize) -> u32
    requires { at + 1 < 2 ^ 32 }
    ensures { result ≡ at + 1 }
{
    at as u32 + 1
}

// The messages that wait in the machine for a connection. It does nothing when it runs.
pub fn messages_for<'h>(desk: &Desk<'h>, connection: &u32) -> Messages
    ensures { result.value ≡ messages_for connection.now desk.now.now }
{
    Witness::picked(&(desk, connection))
}

// The messages that waited for a connection ahead of the machine's last turn. It does nothing when it runs.
pub fn messages_ahead<'h>(desk: &Desk<'h>, connection: &u32) -> Messages
    ensures { result.value ≡ messages_for connection.now (ahead_of_last desk.now.past desk.now.now) }
{
    Witness::picked(&(desk, connection))
}
