// A model switch that says what it should not.
ghost use Rattle.std.specs.Prelude.{◌≡◌, ◌+◌, ◌≤◌, ◌++◌, length, vec_len, vec_capacity};
ghost use Rattle.device_port.specs.Devices.{Appends};
ghost use Rattle.model_switch.specs.Answers.{Sees};
ghost use Rattle.model_switch.specs.Meanings.{of_liar};
ghost use Rattle.model_switch.specs.States.{IsOffered};
ghost use Rattle.model_switch.specs.Lies.{lying, lie_of, TurnsWith, CountsTurns, SameTurns};

use crate::Orderly;
use device_port::{Device, Took};
use maple_base::{Seen, Turned, append};

// The most bytes that a turn of the inner device appends.
const MOST_BYTES: usize = 65_535;

/// A switch in memory that deals with the first pending message, and one of whose turns appends
/// bytes of any kind behind its answer.
#[derive(Drop)]
pub struct Liar {
    pub(crate) inner: Orderly,
    at: u64,
    bytes: Vec<u8>,
    turns: u64,
}

impl Liar {
    /// A device that does as the inner one, but its turn of this number appends these bytes behind
    /// what the inner one answers. Turns are counted from 1, also those that find no message; a turn
    /// for which memory runs out, also that for the bytes, counts as none and changes nothing. It
    /// doesn't keep the specification of a switch.
    pub fn new(inner: Orderly, at: u64, bytes: Vec<u8>) -> Liar
        ensures inner { result.inner ≡ inner }
        ensures at { result.at ≡ at }
        ensures bytes { result.bytes.items ≡ bytes.items }
        ensures turns { result.turns ≡ 0 }
        ensures meaning { of_liar result ≡ lying inner.switch }
    {
        Liar {
            inner,
            at,
            bytes,
            turns: 0,
        }
    }

    // A turn with the bytes behind its answer.
    fn turn_lying(&mut self, out: &mut Vec<u8>) -> Turned
        ensures just { Appends out.old.items out.new.items (λ bytes. TurnsWith self.old.bytes.items self.old.inner.switch result bytes self.new.inner.switch) }
        ensures same { SameTurns self.old self.new }
    {
        if out.reserve(MOST_BYTES + self.bytes.len()).is_err() {
            return Turned::NoMemory;
        }
        let mut answer = Vec::new(self.inner.switch.alloc());
        let turned = self.inner.turn(&mut answer);
        if let Turned::NoMemory = turned {
            return turned;
        }
        append_both(&answer, &self.bytes, out);
        turned
    }

    // The next turn, which isn't counted yet.
    fn next_turn(&mut self, out: &mut Vec<u8>) -> Turned
        ensures just { Appends out.old.items out.new.items (λ bytes. TurnsWith (lie_of self.old) self.old.inner.switch result bytes self.new.inner.switch) }
        ensures same { SameTurns self.old self.new }
    {
        if self.turns.saturating_add(1) == self.at {
            return self.turn_lying(out);
        }
        self.inner.turn(out)
    }
}

impl Device for Liar {
    ghost use Rattle.of10_codec.specs.declared.message.Message.{Message};
    ghost use Rattle.device_port.specs.Devices.{IsOffer, Offers, Turns, Packets};

    ghost meaning = { of_liar };

    fn offer(&mut self, message: &[u8]) -> Took
        requires { (x : Message) × IsOffer x message.now }
        ensures meets { Offers message.now result (of_liar self.old) (of_liar self.new) }
        ensures just { IsOffered message.now result self.old.inner.switch self.new.inner.switch }
        ensures uncounted { SameTurns self.old self.new }
    {
        self.inner.offer(message)
    }

    fn turn(&mut self, out: &mut Vec<u8>) -> Turned
        ensures meets { Appends out.old.items out.new.items (λ bytes. Turns result bytes (of_liar self.old) (of_liar self.new)) }
        ensures just { Appends out.old.items out.new.items (λ bytes. TurnsWith (lie_of self.old) self.old.inner.switch result bytes self.new.inner.switch) }
        ensures counted { CountsTurns result self.old self.new }
    {
        let turned = self.next_turn(out);
        if let Turned::NoMemory = turned {
            return turned;
        }
        self.turns = self.turns.saturating_add(1);
        turned
    }

    fn packet(&mut self, port: u16, frame: &[u8], out: &mut Vec<u8>) -> Seen
        requires { length frame.now ≤ 65517 }
        ensures meets { Appends out.old.items out.new.items (λ bytes. Packets port frame.now result bytes (of_liar self.old) (of_liar self.new)) }
        ensures just { Appends out.old.items out.new.items (λ bytes. Sees port frame.now self.old.inner.switch.table result bytes) }
        ensures kept { self.new.inner.switch ≡ self.old.inner.switch }
        ensures uncounted { SameTurns self.old self.new }
    {
        self.inner.packet(port, frame, out)
    }

    fn faults(&self) -> u64 {
        0
    }
}

// Appends bytes, and others behind them.
fn append_both(first: &[u8], second: &[u8], out: &mut Vec<u8>)
    requires { vec_len out.old + length first.now + length second.now ≤ vec_capacity out.old }
    ensures { out.new.items ≡ out.old.items ++ first.now ++ second.now }
{
    append(first, out);
    append(second, out);
}
