// A model switch that draws the next of its messages.
ghost use Rattle.std.specs.Prelude.{◌≡◌, ◌≤◌, length, None};
ghost use Rattle.device_port.specs.Devices.{Appends};
ghost use Rattle.model_switch.specs.Answers.{Sees};
ghost use Rattle.model_switch.specs.Meanings.{of_shuffled};
ghost use Rattle.model_switch.specs.States.{meaning_of, opened, IsOffered, TurnsAt};
ghost use Rattle.model_switch.specs.Draws.{drawn_place, seeded, DrawsOnce};

use crate::model::ModelSwitch;
use device_port::{Device, Took};
use maple_base::{Seen, Turned};
use rand_core::utils::NextWord;
use rand_pcg::Pcg32;
use std::alloc::Global;

// The stream of the generator.
const STREAM: u64 = 0;

/// A switch in memory that deals with a message drawn from those ahead of the first barrier, and
/// with a barrier where it stands first.
#[derive(Drop)]
pub struct Shuffled {
    pub(crate) switch: ModelSwitch,
    random: u64,
}

impl Shuffled {
    /// As `Orderly::new`; equal seeds draw equally.
    pub fn new(alloc: Global, dpid: u64, ports: u16, capacity: u32, seed: u64) -> Shuffled
        requires ports { (1 ≤ ports) × (ports ≤ 1364) }
        requires capacity { capacity ≤ 65535 }
        ensures switch { result.switch ≡ opened dpid ports capacity }
        ensures seeded { result.random ≡ seeded seed }
        ensures meaning { of_shuffled result ≡ meaning_of 0 None (opened dpid ports capacity) }
    {
        Shuffled {
            switch: ModelSwitch::new(alloc, dpid, ports, capacity),
            random: Pcg32::new(seed, STREAM).state(),
        }
    }
}

impl Device for Shuffled {
    ghost use Rattle.of10_codec.specs.declared.message.Message.{Message};
    ghost use Rattle.device_port.specs.Devices.{IsOffer, Offers, Turns, Packets};

    ghost meaning = { of_shuffled };

    fn offer(&mut self, message: &[u8]) -> Took
        requires { (x : Message) × IsOffer x message.now }
        ensures meets { Offers message.now result (of_shuffled self.old) (of_shuffled self.new) }
        ensures just { IsOffered message.now result self.old.switch self.new.switch }
        ensures undrawn { self.new.random ≡ self.old.random }
    {
        self.switch.offer(message)
    }

    fn turn(&mut self, out: &mut Vec<u8>) -> Turned
        ensures meets { Appends out.old.items out.new.items (λ bytes. Turns result bytes (of_shuffled self.old) (of_shuffled self.new)) }
        ensures just { Appends out.old.items out.new.items (λ bytes. TurnsAt (drawn_place self.old.random self.old.switch.pending) self.old.switch result bytes self.new.switch) }
        ensures draws { DrawsOnce result self.old.random self.new.random }
    {
        let mut generator = Pcg32::from_state(self.random, STREAM);
        let place = generator.next_word() as usize % self.switch.free().max(1);
        let turned = self.switch.turn_at(place, out);
        if let Turned::NoMemory = turned {
            return turned;
        }
        self.random = generator.state();
        turned
    }

    fn packet(&mut self, port: u16, frame: &[u8], out: &mut Vec<u8>) -> Seen
        requires { length frame.now ≤ 65517 }
        ensures meets { Appends out.old.items out.new.items (λ bytes. Packets port frame.now result bytes (of_shuffled self.old) (of_shuffled self.new)) }
        ensures just { Appends out.old.items out.new.items (λ bytes. Sees port frame.now self.old.switch.table result bytes) }
        ensures kept { self.new.switch ≡ self.old.switch }
        ensures undrawn { self.new.random ≡ self.old.random }
    {
        self.switch.packet(port, frame, out)
    }

    fn faults(&self) -> u64 {
        0
    }
}
