// A model switch that refuses some of its flow mods.
ghost use Rattle.std.specs.Prelude.{◌≡◌, ◌≤◌, true, length, None};
ghost use Rattle.device_port.specs.Devices.{Appends};
ghost use Rattle.model_switch.specs.Answers.{Sees};
ghost use Rattle.model_switch.specs.Meanings.{of_refusing};
ghost use Rattle.model_switch.specs.States.{is_mod_first, meaning_of, IsOffered};
ghost use Rattle.model_switch.specs.Refusals.{refuses_next, TurnsRefusing, CountsMods};

use crate::Orderly;
use device_port::{Device, Took};
use maple_base::{Seen, Turned};

/// A switch in memory that deals with the first pending message, and refuses the flow mods of these
/// numbers.
#[derive(Drop)]
pub struct Refusing {
    pub(crate) inner: Orderly,
    refuses: Vec<u64>,
    mods: u64,
}

impl Refusing {
    /// A device that does as the inner one, but for the flow mods whose numbers stand in the list: it
    /// refuses them, as where the table is full, by ERROR 3, 0 with their id, and leaves the table as
    /// it was. All flow mods are counted from 1 as they are dealt with, of each command and refused or
    /// not; a turn for which memory runs out counts none.
    pub fn new(inner: Orderly, refuses: Vec<u64>) -> Refusing
        ensures inner { result.inner ≡ inner }
        ensures refuses { result.refuses.items ≡ refuses.items }
        ensures mods { result.mods ≡ 0 }
        ensures meaning { of_refusing result ≡ meaning_of 0 None inner.switch }
    {
        Refusing {
            inner,
            refuses,
            mods: 0,
        }
    }

    // Whether the next flow mod is refused for its number.
    fn is_due(&self) -> bool
        ensures { result ≡ refuses_next self.now.refuses.items self.now.mods }
    {
        let number = self.mods.saturating_add(1);
        self.refuses.iter().any(|n| *n == number)
    }

    // Deals with the first message, which is a flow mod.
    fn turn_mod(&mut self, out: &mut Vec<u8>) -> Turned
        requires { is_mod_first self.old.inner.switch.pending ≡ true }
        ensures just { Appends out.old.items out.new.items (λ bytes. TurnsRefusing self.old result bytes self.new) }
        ensures refuses { self.new.refuses.items ≡ self.old.refuses.items }
        ensures mods { self.new.mods ≡ self.old.mods }
    {
        if self.is_due() {
            return self.inner.switch.refuse_first(out);
        }
        self.inner.turn(out)
    }
}

impl Device for Refusing {
    ghost use Rattle.of10_codec.specs.declared.message.Message.{Message};
    ghost use Rattle.device_port.specs.Devices.{IsOffer, Offers, Turns, Packets};
    ghost use Rattle.model_switch.specs.Refusals.{SameMods};

    ghost meaning = { of_refusing };

    fn offer(&mut self, message: &[u8]) -> Took
        requires { (x : Message) × IsOffer x message.now }
        ensures meets { Offers message.now result (of_refusing self.old) (of_refusing self.new) }
        ensures just { IsOffered message.now result self.old.inner.switch self.new.inner.switch }
        ensures uncounted { SameMods self.old self.new }
    {
        self.inner.offer(message)
    }

    fn turn(&mut self, out: &mut Vec<u8>) -> Turned
        ensures meets { Appends out.old.items out.new.items (λ bytes. Turns result bytes (of_refusing self.old) (of_refusing self.new)) }
        ensures just { Appends out.old.items out.new.items (λ bytes. TurnsRefusing self.old result bytes self.new) }
        ensures counted { CountsMods result self.old self.new }
    {
        if !self.inner.switch.is_mod_first() {
            return self.inner.turn(out);
        }
        let turned = self.turn_mod(out);
        if let Turned::NoMemory = turned {
            return turned;
        }
        self.mods = self.mods.saturating_add(1);
        turned
    }

    fn packet(&mut self, port: u16, frame: &[u8], out: &mut Vec<u8>) -> Seen
        requires { length frame.now ≤ 65517 }
        ensures meets { Appends out.old.items out.new.items (λ bytes. Packets port frame.now result bytes (of_refusing self.old) (of_refusing self.new)) }
        ensures just { Appends out.old.items out.new.items (λ bytes. Sees port frame.now self.old.inner.switch.table result bytes) }
        ensures kept { self.new.inner.switch ≡ self.old.inner.switch }
        ensures uncounted { SameMods self.old self.new }
    {
        self.inner.packet(port, frame, out)
    }

    fn faults(&self) -> u64 {
        0
    }
}
