// A packet that arrives.
ghost use Rattle.std.specs.Prelude.{◌≡◌};
ghost use Rattle.machine_desk.specs.Arriving.{is_packet};

use core_machine::Input;
use of10_codec::{Body, Message};

/// Whether a packet comes with this input.
pub fn is_packet(input: &Input) -> bool
    ensures { result ≡ is_packet input.now }
{
    matches!(
        input,
        Input::Message(Message {
            body: Body::PacketIn { .. },
            ..
        })
    )
}
