// A model switch some of whose calls fail.
ghost use Rattle.std.specs.Prelude.{◌≡◌, ◌≤◌, length, None};
ghost use Rattle.maple_base.specs.Counts.{next_count};
ghost use Rattle.maple_base.specs.declared.device.Turned.TheVariants as turned;
ghost use Rattle.maple_base.specs.declared.device.Seen.TheVariants as seen;
ghost use Rattle.device_port.specs.declared.device.Took.TheVariants as took;
ghost use Rattle.device_port.specs.Devices.{Appends};
ghost use Rattle.model_switch.specs.Meanings.{of_failing};
ghost use Rattle.model_switch.specs.States.{meaning_of, IsOffered};
ghost use Rattle.model_switch.specs.Faults.{fails_next, FailsJust, TurnsUnlessFailed, SeesUnlessFailed};

use crate::Orderly;
use device_port::{Device, Took};
use maple_base::{Seen, Turned};

/// A switch in memory that deals with the first pending message, and whose calls of these numbers
/// fail.
#[derive(Drop)]
pub struct Failing {
    pub(crate) inner: Orderly,
    fails: Vec<u64>,
    calls: u64,
    faults: u64,
}

impl Failing {
    /// A device that does as the inner one, but for the calls whose numbers stand in the list: they
    /// fail. `offer`, `turn` and `packet` are counted together from 1, without those for which
    /// memory runs out.
    pub fn new(inner: Orderly, fails: Vec<u64>) -> Failing
        ensures inner { result.inner ≡ inner }
        ensures fails { result.fails.items ≡ fails.items }
        ensures calls { result.calls ≡ 0 }
        ensures meaning { of_failing result ≡ meaning_of 0 None inner.switch }
    {
        Failing {
            inner,
            fails,
            calls: 0,
            faults: 0,
        }
    }

    // Whether the next call fails.
    fn is_due(&self) -> bool
        ensures { result ≡ fails_next self.now.fails.items self.now.calls }
    {
        let number = self.calls.saturating_add(1);
        self.fails.iter().any(|n| *n == number)
    }

    // Counts a call that fails.
    fn fail(&mut self)
        ensures inner { self.new.inner ≡ self.old.inner }
        ensures list { self.new.fails.items ≡ self.old.fails.items }
        ensures calls { self.new.calls ≡ next_count self.old.calls }
        ensures faults { self.new.faults ≡ next_count self.old.faults }
        ensures grown { self.old.faults ≤ self.new.faults }
    {
        self.calls = self.calls.saturating_add(1);
        self.faults = self.faults.saturating_add(1);
    }
}

impl Device for Failing {
    ghost use Rattle.of10_codec.specs.declared.message.Message.{Message};
    ghost use Rattle.device_port.specs.Devices.{IsOffer, Offers, Turns, Packets};

    ghost meaning = { of_failing };

    fn offer(&mut self, message: &[u8]) -> Took
        requires { (x : Message) × IsOffer x message.now }
        ensures meets { Offers message.now result (of_failing self.old) (of_failing self.new) }
        ensures just { (result ≡ took.Failed → ⊥) → IsOffered message.now result self.old.inner.switch self.new.inner.switch }
        ensures kept { result ≡ took.Failed → self.new.inner.switch ≡ self.old.inner.switch }
        ensures fails { FailsJust result took.Failed took.NoMemory self.old.fails.items self.old.calls self.new.calls }
        ensures list { self.new.fails.items ≡ self.old.fails.items }
        ensures counted { result ≡ took.Failed → self.new.faults ≡ next_count self.old.faults }
    {
        if self.is_due() {
            self.fail();
            return Took::Failed;
        }
        let took = self.inner.offer(message);
        if let Took::NoMemory = took {
            return took;
        }
        self.calls = self.calls.saturating_add(1);
        took
    }

    fn turn(&mut self, out: &mut Vec<u8>) -> Turned
        ensures meets { Appends out.old.items out.new.items (λ bytes. Turns result bytes (of_failing self.old) (of_failing self.new)) }
        ensures just { Appends out.old.items out.new.items (λ bytes. TurnsUnlessFailed self.old.inner.switch result bytes self.new.inner.switch) }
        ensures fails { FailsJust result turned.Failed turned.NoMemory self.old.fails.items self.old.calls self.new.calls }
        ensures list { self.new.fails.items ≡ self.old.fails.items }
        ensures counted { result ≡ turned.Failed → self.new.faults ≡ next_count self.old.faults }
    {
        if self.is_due() {
            self.fail();
            return Turned::Failed;
        }
        let turned = self.inner.turn(out);
        if let Turned::NoMemory = turned {
            return turned;
        }
        self.calls = self.calls.saturating_add(1);
        turned
    }

    fn packet(&mut self, port: u16, frame: &[u8], out: &mut Vec<u8>) -> Seen
        requires { length frame.now ≤ 65517 }
        ensures meets { Appends out.old.items out.new.items (λ bytes. Packets port frame.now result bytes (of_failing self.old) (of_failing self.new)) }
        ensures just { Appends out.old.items out.new.items (λ bytes. SeesUnlessFailed port frame.now self.old.inner.switch.table result bytes) }
        ensures kept { self.new.inner.switch ≡ self.old.inner.switch }
        ensures fails { FailsJust result seen.Failed seen.NoMemory self.old.fails.items self.old.calls self.new.calls }
        ensures list { self.new.fails.items ≡ self.old.fails.items }
        ensures counted { result ≡ seen.Failed → self.new.faults ≡ next_count self.old.faults }
    {
        if self.is_due() {
            self.fail();
            return Seen::Failed;
        }
        let seen = self.inner.packet(port, frame, out);
        if let Seen::NoMemory = seen {
            return seen;
        }
        self.calls = self.calls.saturating_add(1);
        seen
    }

    fn faults(&self) -> u64 {
        self.faults
    }
}
