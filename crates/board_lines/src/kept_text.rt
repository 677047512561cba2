// What is kept of the text of a policy.
ghost use Rattle.std.specs.Prelude.{◌≡◌, ◌≤◌, ◌<◌, length, OnErr, OnOk};
ghost use Rattle.maple_text.specs.Numbers.{is_digit};
ghost use Rattle.policy_tokens.specs.Bytes.{is_letter, is_word_byte};
ghost use Rattle.board_lines.specs.KeptTexts.{keep, keep_behind, keep_digit, keep_other, most_kept, nothing_kept};
ghost use Rattle.board_lines.specs.Readings.{line_kept, text_ahead};

use maple_base::policy_limit::MOST_BYTES;
use maple_base::{Bytes, NoMemory};
use std::alloc::Global;
use std::marker::Model;
use std::mem;

// A word of so many bytes is a number or no token.
const LONG_WORD: u8 = 39;

/// The text of a policy as it comes, byte by byte: all of it up to 65,536 bytes, and of a longer one no
/// more than its refusal needs, which depends on the word that goes on behind byte 65,537, a number of
/// any length, maybe.
#[derive(Drop)]
pub struct KeptText {
    bytes: Vec<u8>,
    /// How many of the bytes stand ahead of the line that goes on.
    ahead: usize,
    /// Of a word that goes on behind byte 65,537: how many more bytes are kept that are no digits, how
    /// many zeros begin its last digits, and how many digits stand behind these.
    spare: u8,
    zeros: u8,
    digits: u8,
}

impl Model for KeptText {
    ghost use Rattle.board_lines.specs.KeptTexts.{IsKept, Kept};

    ghost Value = { Kept };

    ghost view = { λ k. record { bytes = k.bytes.items; ahead = k.ahead; spare = k.spare; zeros = k.zeros; digits = k.digits } };

    ghost invariant = { λ k. IsKept (record { bytes = k.bytes.items; ahead = k.ahead; spare = k.spare; zeros = k.zeros; digits = k.digits }) };
}

impl KeptText {
    /// No text yet.
    pub fn new(alloc: Global) -> KeptText
        ensures { result ≡ nothing_kept }
    {
        KeptText {
            bytes: Vec::new(alloc),
            ahead: 0,
            spare: LONG_WORD,
            zeros: 0,
            digits: 0,
        }
    }

    /// What is kept, which is at most 68,696 bytes.
    pub fn bytes(&self) -> &[u8]
        ensures bytes { result.now ≡ self.now.bytes }
        ensures few { length result.now ≤ most_kept }
    {
        &self.bytes
    }

    /// A further byte of the text comes.
    ///
    /// # Errors
    ///
    /// `NoMemory`. The text is as before.
    pub fn keep(&mut self, byte: u8) -> Result<(), NoMemory>
        ensures ok { OnOk result (self.new ≡ keep self.old byte) }
        ensures err { OnErr result (self.new ≡ self.old) }
    {
        if self.bytes.len() > MOST_BYTES {
            return self.keep_behind(byte);
        }
        self.bytes.push(byte)?;
        Ok(())
    }

    /// The bytes so far stand ahead of the line that begins.
    pub(crate) fn end_line(&mut self)
        ensures { self.new ≡ line_kept self.old }
    {
        self.ahead = self.bytes.len();
    }

    /// Gives what is kept of the lines ahead of the one that goes on, and is without a text.
    pub(crate) fn give_ahead(&mut self) -> Bytes
        ensures text { result ≡ text_ahead self.old }
        ensures empty { self.new ≡ nothing_kept }
    {
        let ahead = self.ahead;
        let mut bytes = self.give_bytes();
        bytes.truncate(ahead);
        Bytes::new(bytes)
    }

    /// Gives what is kept, and is without a text.
    pub(crate) fn give_all(&mut self) -> Bytes
        ensures text { result ≡ self.old.bytes }
        ensures empty { self.new ≡ nothing_kept }
    {
        Bytes::new(self.give_bytes())
    }

    fn give_bytes(&mut self) -> Vec<u8>
        ensures text { result.items ≡ self.old.bytes }
        ensures empty { self.new ≡ nothing_kept }
    {
        let alloc = *self.bytes.allocator();
        let bytes = mem::replace(&mut self.bytes, Vec::new(alloc));
        self.ahead = 0;
        self.spare = LONG_WORD;
        self.zeros = 0;
        self.digits = 0;
        bytes
    }

    fn keep_behind(&mut self, byte: u8) -> Result<(), NoMemory>
        ensures ok { OnOk result (self.new ≡ keep_behind self.old byte) }
        ensures err { OnErr result (self.new ≡ self.old) }
    {
        if self.spare == 0 {
            Ok(())
        } else if is_digit(byte) {
            self.keep_digit(byte)
        } else {
            self.keep_other(byte)
        }
    }

    fn keep_digit(&mut self, byte: u8) -> Result<(), NoMemory>
        ensures ok { OnOk result (self.new ≡ keep_digit self.old byte) }
        ensures err { OnErr result (self.new ≡ self.old) }
    {
        if byte == b'0' && self.digits == 0 {
            if self.zeros < LONG_WORD {
                self.bytes.push(byte)?;
                self.zeros += 1;
            }
        } else if self.digits < LONG_WORD {
            self.bytes.push(byte)?;
            self.digits += 1;
        }
        Ok(())
    }

    fn keep_other(&mut self, byte: u8) -> Result<(), NoMemory>
        requires { 0 < self.old.spare }
        ensures ok { OnOk result (self.new ≡ keep_other self.old byte) }
        ensures err { OnErr result (self.new ≡ self.old) }
    {
        self.bytes.push(byte)?;
        self.spare = if is_word_byte(byte) {
            self.spare - 1
        } else {
            0
        };
        self.zeros = 0;
        self.digits = 0;
        Ok(())
    }
}

fn is_digit(byte: u8) -> bool
    ensures { result ≡ is_digit byte }
{
    48 <= byte && byte < 58
}

fn is_word_byte(byte: u8) -> bool
    ensures { result ≡ is_word_byte byte }
{
    is_letter(byte)
        || (b'0' <= byte && byte <= b'9')
        || byte == b'_'
        || byte == b'.'
        || byte == b':'
}

fn is_letter(byte: u8) -> bool
    ensures { result ≡ is_letter byte }
{
    (b'a' <= byte && byte <= b'z') || (b'A' <= byte && byte <= b'Z')
}
