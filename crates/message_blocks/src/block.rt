// The messages of a block of bytes.
ghost use Rattle.std.specs.Prelude.{◌≡◌, ◌+◌, ◌<◌, ◌≤◌, ◌==◌, List, ◌∷◌, length, drop, IfOk};
ghost use Rattle.std.specs.List.{flat_map, AllByRecursion};
ghost use Rattle.maple_base.specs.NetworkOrder.{number_at};
ghost use Rattle.of10_codec.specs.declared.message.Message.{Message};
ghost use Rattle.of10_codec.specs.Written.{written};
ghost use Rattle.message_blocks.specs.Spelling.{IsSpelled};

use maple_base::{Bytes, GhostList, NoMemory};
use of10_codec::{DecodeError, Message, decode};
use std::alloc::Global;
use std::marker::Model;

/// Messages in order, which only proofs read.
pub type Messages = GhostList<Message>;

/// A block of bytes, and the messages that it spells and that weren't taken yet.
#[derive(Drop)]
pub struct Block {
    bytes: Bytes,
    /// Where the next message begins.
    place: usize,
    /// All that the bytes spell.
    messages: Messages,
}

impl Model for Block {
    ghost use Rattle.std.specs.Prelude.{List};
    ghost use Rattle.of10_codec.specs.declared.message.Message.{Message};
    ghost use Rattle.message_blocks.specs.Kept.{behind, IsKept};

    ghost Value = { List Message };

    ghost view = { λ a. behind a.place a.messages.value };

    ghost invariant = { λ a. IsKept a.place a.bytes a.messages.value };
}

impl Block {
    /// A block that spells these messages, none of which was taken.
    pub fn new(bytes: Bytes, messages: Messages) -> Block
        requires written { bytes ≡ flat_map written messages.value }
        requires spelled { AllByRecursion IsSpelled messages.value }
        ensures { result ≡ messages.value }
    {
        Block {
            bytes,
            place: 0,
            messages,
        }
    }

    /// Whether all messages were taken.
    pub fn is_empty(&self) -> bool
        ensures { result ≡ (length self.now == 0) }
    {
        self.place >= self.bytes.items().len()
    }

    /// The next message.
    ///
    /// # Errors
    ///
    /// `NoMemory`, where the message's own bytes or ports find no room.
    pub fn first(&self, alloc: Global) -> Result<Message, NoMemory>
        requires { 0 < length self.now }
        ensures { IfOk result (λ m. (later : List Message) × (self.now ≡ m ∷ later)) }
    {
        let bytes = self.bytes.items();
        let end = end_of_message(bytes, self.place);
        match decode(alloc, &bytes[self.place..end]) {
            Ok(message) => Ok(message),
            Err(DecodeError::NoMemory) => Err(NoMemory),
            Err(DecodeError::Bad(_)) => unreachable!(),
        }
    }

    /// The bytes of the next message, lent where they stand.
    pub fn next(&self) -> &[u8]
        requires { 0 < length self.now }
        ensures { (m : Message) × (later : List Message) × (self.now ≡ m ∷ later) × (result.now ≡ written m) }
    {
        let place = self.place;
        let bytes = self.bytes.items();
        let end = end_of_message(bytes, place);
        &bytes[place..end]
    }

    /// The next message is taken. It takes no memory.
    pub fn drop_first(&mut self)
        requires { 0 < length self.old }
        ensures { self.new ≡ drop 1 self.old }
    {
        self.place = end_of_message(self.bytes.items(), self.place);
    }
}

// Where the message ends that begins at this place, as its header tells (OpenFlow 1.0, 5.1).
fn end_of_message(bytes: &[u8], place: usize) -> usize
    requires header { place + 4 ≤ length bytes.now }
    requires whole { place + number_at (place + 2) 2 bytes.now ≤ length bytes.now }
    ensures { result ≡ place + number_at (place + 2) 2 bytes.now }
{
    place + usize::from(u16::from_be_bytes([bytes[place + 2], bytes[place + 3]]))
}
