// A model switch that turns the order of its messages round between barriers.
ghost use Rattle.std.specs.Prelude.{◌≡◌, ◌≤◌, length, None};
ghost use Rattle.device_port.specs.Devices.{Appends};
ghost use Rattle.model_switch.specs.Answers.{Sees};
ghost use Rattle.model_switch.specs.Meanings.{of_backward};
ghost use Rattle.model_switch.specs.States.{meaning_of, opened, last_free, IsOffered, TurnsAt};

use crate::model::ModelSwitch;
use device_port::{Device, Took};
use maple_base::{Seen, Turned};
use std::alloc::Global;

/// A switch in memory that deals with the last message ahead of the first barrier, and with a
/// barrier where it stands first.
#[derive(Drop)]
pub struct Backward {
    pub(crate) switch: ModelSwitch,
}

impl Backward {
    /// As `Orderly::new`.
    pub fn new(alloc: Global, dpid: u64, ports: u16, capacity: u32) -> Backward
        requires ports { (1 ≤ ports) × (ports ≤ 1364) }
        requires capacity { capacity ≤ 65535 }
        ensures switch { result.switch ≡ opened dpid ports capacity }
        ensures meaning { of_backward result ≡ meaning_of 0 None (opened dpid ports capacity) }
    {
        Backward {
            switch: ModelSwitch::new(alloc, dpid, ports, capacity),
        }
    }
}

impl Device for Backward {
    ghost use Rattle.of10_codec.specs.declared.message.Message.{Message};
    ghost use Rattle.device_port.specs.Devices.{IsOffer, Offers, Turns, Packets};

    ghost meaning = { of_backward };

    fn offer(&mut self, message: &[u8]) -> Took
        requires { (x : Message) × IsOffer x message.now }
        ensures meets { Offers message.now result (of_backward self.old) (of_backward self.new) }
        ensures just { IsOffered message.now result self.old.switch self.new.switch }
    {
        self.switch.offer(message)
    }

    fn turn(&mut self, out: &mut Vec<u8>) -> Turned
        ensures meets { Appends out.old.items out.new.items (λ bytes. Turns result bytes (of_backward self.old) (of_backward self.new)) }
        ensures just { Appends out.old.items out.new.items (λ bytes. TurnsAt (last_free self.old.switch.pending) self.old.switch result bytes self.new.switch) }
    {
        let place = self.switch.free().max(1) - 1;
        self.switch.turn_at(place, out)
    }

    fn packet(&mut self, port: u16, frame: &[u8], out: &mut Vec<u8>) -> Seen
        requires { length frame.now ≤ 65517 }
        ensures meets { Appends out.old.items out.new.items (λ bytes. Packets port frame.now result bytes (of_backward self.old) (of_backward self.new)) }
        ensures just { Appends out.old.items out.new.items (λ bytes. Sees port frame.now self.old.switch.table result bytes) }
        ensures kept { self.new.switch ≡ self.old.switch }
    {
        self.switch.packet(port, frame, out)
    }

    fn faults(&self) -> u64 {
        0
    }
}
