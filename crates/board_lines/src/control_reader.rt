// Reads control text byte by byte.
ghost use Rattle.std.specs.Prelude.{◌≡◌, IfOk, None, OnErr, OnOk, Some};
ghost use Rattle.board_lines.specs.ControlItems.{is_new_policy, line_item};
ghost use Rattle.board_lines.specs.KeptTexts.{nothing_kept};
ghost use Rattle.board_lines.specs.Readings.{IsBounded, beginning, beginning_at, behind, behind_end, going_on, is_end, item_at, item_at_end};
ghost use Rattle.board_lines.specs.Readings.{item_of_rest, last_item, last_text, next_line, stored};

use crate::{ControlItem, KeptText};
use maple_base::{Bytes, NoMemory};
use std::alloc::Global;
use std::marker::Model;
use std::mem;

const MOST_BYTES: usize = 8_192;

/// Reads a control text byte by byte, and gives what it has, one after the other. However the bytes were
/// cut, it gives what the whole text has. It stores at most 8,193 bytes of a line, and 68,696 of the text
/// of a policy.
///
///     for byte in &into[..count] {
///         if let Some(item) = reader.push(*byte)? { .. }
///     }
///     if let Some(item) = reader.end() { .. }
#[derive(Drop)]
pub struct ControlReader {
    /// The number of the line that goes on.
    number: u32,
    /// Its bytes so far: of a line of more than 8,192 one more than these.
    line: Vec<u8>,
    /// The number of the line `newpolicy`, where the line belongs to the text of a policy.
    policy: Option<u32>,
    /// What is kept of that text, with this line.
    kept: KeptText,
}

impl Model for ControlReader {
    ghost use Rattle.std.specs.Prelude.{◌≤◌, ◌+◌, length};
    ghost use Rattle.script_text.specs.Grammar.{most_bytes};
    ghost use Rattle.board_lines.specs.Readings.{Reading};

    ghost Value = { Reading };

    ghost view = { λ r. record { number = r.number; line = r.line.items; policy = r.policy; kept = r.kept } };

    ghost invariant = { λ r. length r.line.items ≤ most_bytes + 1 };
}

impl ControlReader {
    /// A reader of a text of which nothing was read yet.
    pub fn new(alloc: Global) -> ControlReader
        ensures { result ≡ beginning }
    {
        ControlReader::new_at(alloc, 1)
    }

    /// One of a text whose first line has this number.
    pub fn new_at(alloc: Global, number: u32) -> ControlReader
        ensures { result ≡ beginning_at number }
    {
        ControlReader {
            number,
            line: Vec::new(alloc),
            policy: None,
            kept: KeptText::new(alloc),
        }
    }

    /// Reads a further byte. Where it ends what stands next in the text, that is given.
    ///
    /// # Errors
    ///
    /// `NoMemory`. The byte isn't read, and the reader is as before.
    pub fn push(&mut self, byte: u8) -> Result<Option<ControlItem>, NoMemory>
        ensures item { IfOk result (λ item. item ≡ item_at self.old byte) }
        ensures behind { OnOk result (self.new ≡ behind self.old byte) }
        ensures err { OnErr result (self.new ≡ self.old) }
    {
        if byte == b'\n' {
            self.end_line()
        } else {
            self.go_on(byte)?;
            Ok(None)
        }
    }

    /// The text ends. What stands last in it without a line feed is given, and the reader is as new.
    pub fn end(&mut self) -> Option<ControlItem>
        ensures item { result ≡ last_item self.old }
        ensures new { self.new ≡ beginning }
    {
        let number = self.number;
        let policy = self.policy;
        let line = self.give_line();
        self.number = 1;
        self.policy = None;
        match policy {
            None => {
                let _ = self.kept.give_all();
                item_of_rest(number, line)
            }
            Some(number) => {
                let text = last_text(&mut self.kept, &line);
                Some(ControlItem::Policy { number, text })
            }
        }
    }

    /// How many bytes it stores, which are at most 76,889, whatever was read.
    pub fn stored(&self) -> usize
        ensures stored { result ≡ stored self.now }
        ensures bounded { IsBounded self.now }
    {
        self.line.len() + self.kept.bytes().len()
    }

    // A byte that is no line feed.
    fn go_on(&mut self, byte: u8) -> Result<(), NoMemory>
        ensures behind { OnOk result (self.new ≡ going_on self.old byte) }
        ensures err { OnErr result (self.new ≡ self.old) }
    {
        self.line.reserve(1)?;
        if self.policy.is_some() {
            self.kept.keep(byte)?;
        }
        if self.line.len() <= MOST_BYTES {
            self.line.push_reserved(byte);
        }
        Ok(())
    }

    fn end_line(&mut self) -> Result<Option<ControlItem>, NoMemory>
        ensures item { IfOk result (λ item. item ≡ item_at_end self.old.policy self.old) }
        ensures behind { OnOk result (self.new ≡ behind_end self.old.policy self.old) }
        ensures err { OnErr result (self.new ≡ self.old) }
    {
        match self.policy {
            None => Ok(self.end_control_line()),
            Some(number) => self.end_policy_line(number),
        }
    }

    fn end_control_line(&mut self) -> Option<ControlItem>
        ensures item { result ≡ item_at_end None self.old }
        ensures behind { self.new ≡ behind_end None self.old }
    {
        let number = self.number;
        let line = self.give_line();
        if is_new_policy(&line) {
            let _ = self.kept.give_all();
            self.policy = Some(number);
            return None;
        }
        Some(line_item(number, line))
    }

    fn end_policy_line(&mut self, number: u32) -> Result<Option<ControlItem>, NoMemory>
        ensures item { IfOk result (λ item. item ≡ item_at_end (Some number) self.old) }
        ensures behind { OnOk result (self.new ≡ behind_end (Some number) self.old) }
        ensures err { OnErr result (self.new ≡ self.old) }
    {
        if is_end(&self.line) {
            let text = self.kept.give_ahead();
            self.policy = None;
            self.begin_line();
            return Ok(Some(ControlItem::Policy { number, text }));
        }
        self.kept.keep(b'\n')?;
        self.kept.end_line();
        self.begin_line();
        Ok(None)
    }

    // Gives the line, behind which the next one begins.
    fn give_line(&mut self) -> Vec<u8>
        ensures line { result.items ≡ self.old.line }
        ensures next { self.new ≡ next_line self.old }
    {
        let alloc = *self.line.allocator();
        let line = mem::replace(&mut self.line, Vec::new(alloc));
        self.number = self.number.saturating_add(1);
        line
    }

    // The next line begins.
    fn begin_line(&mut self)
        ensures { self.new ≡ next_line self.old }
    {
        self.line.clear();
        self.number = self.number.saturating_add(1);
    }
}

fn is_new_policy(line: &[u8]) -> bool
    ensures { result ≡ is_new_policy line.now }
{
    line == b"newpolicy".as_slice()
}

fn is_end(line: &[u8]) -> bool
    ensures { result ≡ is_end line.now }
{
    line == b"%%".as_slice()
}

fn line_item(number: u32, line: Vec<u8>) -> ControlItem
    ensures { result ≡ line_item number line.items }
{
    if line.len() > MOST_BYTES {
        return ControlItem::TooLong { number };
    }
    ControlItem::Line {
        number,
        text: Bytes::new(line),
    }
}

// What the end of the text gives of a line without a line feed.
fn item_of_rest(number: u32, line: Vec<u8>) -> Option<ControlItem>
    ensures { result ≡ item_of_rest number line.items }
{
    if line.is_empty() {
        return None;
    }
    if is_new_policy(&line) {
        let text = Bytes::new(Vec::new(*line.allocator()));
        return Some(ControlItem::Policy { number, text });
    }
    Some(line_item(number, line))
}

// The text of a policy that the end of the text ends, within this line.
fn last_text(kept: &mut KeptText, line: &[u8]) -> Bytes
    ensures text { result ≡ last_text line.now kept.old }
    ensures empty { kept.new ≡ nothing_kept }
{
    if is_end(line) {
        kept.give_ahead()
    } else {
        kept.give_all()
    }
}
