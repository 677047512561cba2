// Calls that have no state.
use crate::decoding::{filled, read};
use crate::encoding::{push_match, push_message};
use crate::frames::{bytes, key, reread};
use crate::lines::line_of;
use crate::numbers::{push_cut, push_number, push_numeral};
use crate::reports::{push_room, short, text};
use crate::scripts::{comment, push_read};
use crate::writing::Form;
use case_text::{CaseStop, Subject, Words};
use maple_base::NoMemory;
use maple_text::{number_of, numeral_of, value_of};
use std::alloc::Global;

/// What is read of bytes, frames, scripts and numerals, and what is written of messages and reports.
#[derive(Drop)]
pub struct Calls {
    alloc: Global,
}

impl Subject for Calls {
    fn new(alloc: Global) -> Result<Calls, NoMemory> {
        Ok(Calls { alloc })
    }

    fn answer(&mut self, mut call: Words<'_>, out: &mut String) -> Result<(), CaseStop> {
        match call.word() {
            "decimal" => Ok(push_number(number_of(call.rest().as_bytes()), out)?),
            "numeral" => Ok(push_numeral(numeral_of(call.rest().as_bytes()), out)?),
            "value" => Ok(push_number(value_of(call.rest().as_bytes()), out)?),
            "cut" => Ok(push_cut(call.rest().as_bytes(), out)?),
            "read" => read(self.alloc, call, out),
            "filled" => filled(self.alloc, call, out),
            "lent" => push_message(self.alloc, Form::Lent, call, out),
            "own" => push_message(self.alloc, Form::Own, call, out),
            "grown" => push_message(self.alloc, Form::Grown, call, out),
            "match" => push_match(call, out),
            "key" => key(self.alloc, call, out),
            "bytes" => bytes(self.alloc, call, out),
            "reread" => reread(self.alloc, call, out),
            "line" => push_read(self.alloc, call.rest().as_bytes(), out),
            "line_bytes" => push_read(self.alloc, &call.bytes(self.alloc)?, out),
            "comment" => comment(self.alloc, call, out),
            "text" => text(self.alloc, call, out),
            "room" => push_room(self.alloc, &line_of(self.alloc, call)?, out),
            "short" => short(self.alloc, call, out),
            _ => Err(CaseStop::Unread),
        }
    }
}
