// The words of a call.
use crate::CaseStop;
use crate::texts::{bytes_of, text_of};
use maple_base::Place;
use maple_text::value_of;
use std::alloc::Global;

/// The words of a call that are still to be read, with a blank between them.
#[derive(Clone, Copy)]
pub struct Words<'a> {
    rest: &'a str,
}

impl<'a> Words<'a> {
    /// The words of a text.
    pub fn new(text: &'a str) -> Words<'a> {
        Words { rest: text }
    }

    /// Whether no word is left.
    pub fn is_empty(&self) -> bool {
        self.rest.is_empty()
    }

    /// The next word: empty, where none is left.
    pub fn word(&mut self) -> &'a str {
        let (word, rest) = self.rest.split_once(' ').unwrap_or((self.rest, ""));
        self.rest = rest;
        word
    }

    /// All that is left, as it is written.
    pub fn rest(&self) -> &'a str {
        self.rest
    }

    /// All that is left, with `\n` for the end of a line and `\\` for `\`.
    pub fn text(&self, alloc: Global) -> Result<String, CaseStop> {
        text_of(alloc, self.rest)
    }

    /// The bytes that the pairs of hexadecimal digits in all that is left spell.
    pub fn bytes(&self, alloc: Global) -> Result<Vec<u8>, CaseStop> {
        bytes_of(alloc, self.rest.as_bytes())
    }

    /// All words that are left, as numbers.
    pub fn numbers(&self, alloc: Global) -> Result<Vec<u64>, CaseStop> {
        let mut numbers = Vec::new(alloc);
        for word in self.rest.split_whitespace() {
            numbers.push(Words::new(word).number()?)?;
        }
        Ok(numbers)
    }

    /// The next word as a number.
    pub fn number(&mut self) -> Result<u64, CaseStop> {
        value_of(self.word().as_bytes()).ok_or(CaseStop::Unread)
    }

    /// The next word as a number of 32 bits.
    pub fn number_u32(&mut self) -> Result<u32, CaseStop> {
        Ok(u32::try_from(self.number()?)?)
    }

    /// The next word as a number of 16 bits.
    pub fn number_u16(&mut self) -> Result<u16, CaseStop> {
        Ok(u16::try_from(self.number()?)?)
    }

    /// The next word as a number of 8 bits.
    pub fn number_u8(&mut self) -> Result<u8, CaseStop> {
        Ok(u8::try_from(self.number()?)?)
    }

    /// The next word as `yes` or `no`.
    pub fn flag(&mut self) -> Result<bool, CaseStop> {
        match self.word() {
            "yes" => Ok(true),
            "no" => Ok(false),
            _ => Err(CaseStop::Unread),
        }
    }

    /// The next two words as a place.
    pub fn place(&mut self) -> Result<Place, CaseStop> {
        Ok(Place {
            switch: self.number()?,
            port: self.number()?,
        })
    }
}
