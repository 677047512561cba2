// The messages of a stream.
ghost use Rattle.std.specs.Prelude.{◌≡◌, ◌≤◌, ◌+◌, ◌^◌, ◌<◌, nat_lt, None, OnOk, OnErr, All, length};
ghost use Rattle.of10_stream.specs.declared.reassembly.Next.TheVariants as answers;
ghost use Rattle.of10_stream.specs.Front.{broken_off, passed};
ghost use Rattle.of10_stream.specs.Steps.{beginning, fed, stored, Tells};

use crate::front::whole_len;
use maple_base::NoMemory;
use of10_codec::{Bad, DecodeError, Message, decode};
use std::alloc::Global;
use std::marker::Model;

/// The next message of a stream, or why there is none.
#[derive(Drop)]
pub enum Next {
    /// A message, which is taken from the stream.
    Message(Message),
    /// The rest is no whole message, and shows no fault in its header.
    More,
    /// The bytes from this place on, counted from the stream's first byte, spell no message: the
    /// first fault. It is answered for ever from then on.
    Bad { place: u64, bad: Bad },
    /// Memory ran out for a message whose bytes are all there and have no fault; nothing was taken.
    NoMemory,
}

/// A stream of messages, which comes in pieces.
#[derive(Drop)]
pub struct Reassembly {
    /// The bytes behind the messages that were taken, from `start` on. Those before it are done
    /// with.
    bytes: Vec<u8>,
    start: usize,
    /// How many bytes the messages had that were taken.
    place: u64,
    broken: Option<(u64, Bad)>,
}

impl Model for Reassembly {
    ghost use Rattle.std.specs.Prelude.{◌+◌, ◌^◌, ◌<◌, ◌≤◌, length, drop};
    ghost use Rattle.of10_stream.specs.Steps.{Held};

    ghost Value = { Held };

    ghost view = { λ a. record { stream = record { place = a.place; rest = drop a.start a.bytes.items; broken = a.broken }; done = a.start } };

    ghost invariant = { λ a. (a.start ≤ length a.bytes.items) × (a.place + length (drop a.start a.bytes.items) < 2 ^ 64) };
}

impl Reassembly {
    /// A stream without bytes.
    pub fn new(alloc: Global) -> Reassembly
        ensures { result ≡ record { stream = beginning; done = 0 } }
    {
        Reassembly {
            bytes: Vec::new(alloc),
            start: 0,
            place: 0,
            broken: None,
        }
    }

    /// Appends a piece. Behind a fault it is dropped.
    ///
    /// # Errors
    ///
    /// `NoMemory`, also where the stream would have 2^64 bytes or more; it is as before.
    pub fn feed(&mut self, piece: &[u8]) -> Result<(), NoMemory>
        ensures ok { OnOk result (self.new.stream ≡ fed piece.now self.old.stream) }
        ensures given_back { OnOk result (self.new.done ≤ length self.new.stream.rest) }
        ensures err { OnErr result (self.new.stream ≡ self.old.stream) }
        ensures whole { OnErr result (self.old.stream.broken ≡ None) }
        ensures stored { OnErr result (stored self.new ≤ stored self.old) }
    {
        self.give_back();
        if self.broken.is_some() {
            return Ok(());
        }
        if !self.has_places_for(piece) {
            return Err(NoMemory);
        }
        self.bytes.extend_from_slice(piece)?;
        Ok(())
    }

    /// Takes the next message, once all its bytes were fed.
    pub fn next(&mut self) -> Next
        ensures told { Tells result self.old.stream self.new.stream }
        ensures stored { stored self.new ≤ stored self.old }
    {
        if let Some((place, bad)) = self.broken {
            return Next::Bad { place, bad };
        }
        let rest = self.rest();
        let len = match whole_len(rest) {
            Ok(Some(len)) => len,
            Ok(None) => return Next::More,
            Err(bad) => return self.break_off(bad),
        };
        let front = &rest[..len];
        bytes_law(front);
        match decode(*self.bytes.allocator(), front) {
            Ok(message) => {
                self.pass(len);
                Next::Message(message)
            }
            Err(DecodeError::Bad(bad)) => self.break_off(bad),
            Err(DecodeError::NoMemory) => Next::NoMemory,
        }
    }

    /// Each byte of the stream, this piece too, has a place below 2^64.
    fn has_places_for(&self, piece: &[u8]) -> bool
        ensures { result ≡ nat_lt (self.now.stream.place + length self.now.stream.rest + length piece.now) (2 ^ 64) }
    {
        let held = (self.bytes.len() - self.start) as u64;
        piece.len() as u64 <= u64::MAX - self.place - held
    }

    /// Gives back the bytes that are done with, where they are half of all that is kept or more: so
    /// no more bytes are moved than were done with.
    fn give_back(&mut self)
        ensures stream { self.new.stream ≡ self.old.stream }
        ensures fewer { self.new.done ≤ self.old.done }
        ensures most { self.new.done ≤ length self.new.stream.rest }
    {
        let len = self.bytes.len();
        if self.start >= len - self.start {
            self.bytes.copy_within(self.start..len, 0);
            self.bytes.truncate(len - self.start);
            self.start = 0;
        }
    }

    /// The bytes behind the messages that were taken.
    fn rest(&self) -> &[u8]
        ensures { result.now ≡ self.now.stream.rest }
    {
        &self.bytes[self.start..]
    }

    /// So many bytes are done with.
    fn pass(&mut self, len: usize)
        requires { len ≤ length self.old.stream.rest }
        ensures stream { self.new.stream ≡ passed len self.old.stream }
        ensures stored { stored self.new ≡ stored self.old }
    {
        self.start += len;
        self.place += len as u64;
    }

    /// The first fault is met.
    fn break_off(&mut self, bad: Bad) -> Next
        ensures answer { result ≡ answers.Bad self.old.stream.place bad }
        ensures after { self.new.stream ≡ broken_off bad self.old.stream }
        ensures stored { stored self.new ≡ stored self.old }
    {
        self.broken = Some((self.place, bad));
        Next::Bad {
            place: self.place,
            bad,
        }
    }
}

// What holds of any bytes.
fn bytes_law(bytes: &[u8])
    ensures { All (λ b. b < 256) bytes.now }
{}
