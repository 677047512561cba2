// A switch behind its connection.
ghost use Rattle.std.specs.Prelude.{◌≡◌, ◌≤◌, length};
ghost use Rattle.of10_codec.specs.declared.message.Message.{Message};
ghost use Rattle.device_port.specs.Devices.{Meaning, Appends, IsOffer, Offers, Turns, Packets};

use maple_base::{Seen, Turned};

/// What an offer of a message did.
#[derive(Clone, Copy, Debug, PartialEq, Eq)]
pub enum Took {
    /// The message is pending, behind all others.
    Taken,
    /// The device failed.
    Failed,
    /// Memory ran out.
    NoMemory,
}

/// A switch behind its connection. Its calls append what the switch sends. A call that answers
/// `Failed` or `NoMemory` leaves its table and its pending messages as they were and appends nothing.
pub trait Device: Drop {
    ghost meaning: { Self → Meaning };

    /// Gives the device one message of a controller, as `encode` writes it: it waits behind the
    /// others.
    fn offer(&mut self, message: &[u8]) -> Took
        requires { (x : Message) × IsOffer x message.now }
        ensures { Offers message.now result (meaning self.old) (meaning self.new) };

    /// Lets the device deal with one pending message, and appends what it answers.
    fn turn(&mut self, out: &mut Vec<u8>) -> Turned
        ensures { Appends out.old.items out.new.items (λ bytes. Turns result bytes (meaning self.old) (meaning self.new)) };

    /// A frame of at most 65,517 bytes comes in by a port: it is looked up, and at a miss a packet
    /// for the controller is appended.
    fn packet(&mut self, port: u16, frame: &[u8], out: &mut Vec<u8>) -> Seen
        requires { length frame.now ≤ 65517 }
        ensures { Appends out.old.items out.new.items (λ bytes. Packets port frame.now result bytes (meaning self.old) (meaning self.new)) };

    /// How often the device failed; at 2^64 - 1 the count stands still.
    fn faults(&self) -> u64
        ensures { result ≡ (meaning self.now).faults };
}

/// A boxed device is a device.
impl Device for Box<dyn Device + Send> {
    ghost meaning = { λ b. (Device-box b).meaning b.value };

    fn offer(&mut self, message: &[u8]) -> Took {
        (**self).offer(message)
    }

    fn turn(&mut self, out: &mut Vec<u8>) -> Turned {
        (**self).turn(out)
    }

    fn packet(&mut self, port: u16, frame: &[u8], out: &mut Vec<u8>) -> Seen {
        (**self).packet(port, frame, out)
    }

    fn faults(&self) -> u64 {
        (**self).faults()
    }
}
