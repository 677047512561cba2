// A model switch that tells its calls.
ghost use Rattle.std.specs.Prelude.{◌≡◌, ◌≤◌, [], length, Some};
ghost use Rattle.device_port.specs.Devices.{Appends};
ghost use Rattle.model_switch.specs.Answers.{Sees};
ghost use Rattle.model_switch.specs.Meanings.{of_logged};
ghost use Rattle.model_switch.specs.States.{meaning_of, IsOffered, TurnsAt};
ghost use Rattle.model_switch.specs.Logs.{call_of};
ghost use Rattle.device_port.specs.Devices.Call.{Looking};

use crate::Orderly;
use crate::entry::Entry;
use device_port::{Device, Took};
use maple_base::{Bytes, Seen, Turned, append};
use std::alloc::Global;

// The most bytes that a call appends.
const MOST_BYTES: usize = 65_535;

/// A switch in memory that deals with the first pending message, and keeps its calls.
#[derive(Drop)]
pub struct Logged {
    alloc: Global,
    pub(crate) inner: Orderly,
    calls: Vec<Entry>,
}

impl Logged {
    /// A device that does as the inner one and keeps each call, of which there is none yet.
    pub fn new(alloc: Global, inner: Orderly) -> Logged
        ensures inner { result.inner ≡ inner }
        ensures meaning { of_logged result ≡ meaning_of 0 (Some []) inner.switch }
    {
        Logged {
            alloc,
            inner,
            calls: Vec::new(alloc),
        }
    }
}

impl Device for Logged {
    ghost use Rattle.of10_codec.specs.declared.message.Message.{Message};
    ghost use Rattle.device_port.specs.Devices.{IsOffer, Offers, Turns, Packets};

    ghost meaning = { of_logged };

    fn offer(&mut self, message: &[u8]) -> Took
        requires { (x : Message) × IsOffer x message.now }
        ensures meets { Offers message.now result (of_logged self.old) (of_logged self.new) }
        ensures just { IsOffered message.now result self.old.inner.switch self.new.inner.switch }
    {
        let Ok(copy) = Vec::from_slice(self.alloc, message) else {
            return Took::NoMemory;
        };
        if self.calls.reserve(1).is_err() {
            return Took::NoMemory;
        }
        let took = self.inner.offer(message);
        if let Took::NoMemory = took {
            return took;
        }
        self.calls
            .push_reserved(Entry::Offer(Bytes::new(copy), took));
        took
    }

    fn turn(&mut self, out: &mut Vec<u8>) -> Turned
        ensures meets { Appends out.old.items out.new.items (λ bytes. Turns result bytes (of_logged self.old) (of_logged self.new)) }
        ensures just { Appends out.old.items out.new.items (λ bytes. TurnsAt 0 self.old.inner.switch result bytes self.new.inner.switch) }
    {
        if self.calls.reserve(1).is_err() || out.reserve(MOST_BYTES).is_err() {
            return Turned::NoMemory;
        }
        let mut bytes = Vec::new(self.alloc);
        let turned = self.inner.turn(&mut bytes);
        if let Turned::NoMemory = turned {
            return turned;
        }
        append(&bytes, out);
        self.calls
            .push_reserved(Entry::Turn(turned, Bytes::new(bytes)));
        turned
    }

    fn packet(&mut self, port: u16, frame: &[u8], out: &mut Vec<u8>) -> Seen
        requires { length frame.now ≤ 65517 }
        ensures meets { Appends out.old.items out.new.items (λ bytes. Packets port frame.now result bytes (of_logged self.old) (of_logged self.new)) }
        ensures just { Appends out.old.items out.new.items (λ bytes. Sees port frame.now self.old.inner.switch.table result bytes) }
        ensures kept { self.new.inner.switch ≡ self.old.inner.switch }
    {
        let Ok(copy) = Vec::from_slice(self.alloc, frame) else {
            return Seen::NoMemory;
        };
        if self.calls.reserve(1).is_err() || out.reserve(MOST_BYTES).is_err() {
            return Seen::NoMemory;
        }
        let mut bytes = Vec::new(self.alloc);
        let seen = self.inner.packet(port, frame, &mut bytes);
        if let Seen::NoMemory = seen {
            return seen;
        }
        append(&bytes, out);
        self.calls.push_reserved(looked(port, copy, &seen, bytes));
        seen
    }

    fn faults(&self) -> u64 {
        0
    }
}

// The entry of a look-up.
fn looked(port: u16, frame: Vec<u8>, seen: &Seen, bytes: Vec<u8>) -> Entry
    ensures { call_of result ≡ Looking port frame.items seen.now bytes.items }
{
    Entry::Packet(port, Bytes::new(frame), *seen, Bytes::new(bytes))
}
