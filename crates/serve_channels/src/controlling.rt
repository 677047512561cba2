// The control text as it comes.
ghost use Rattle.std.specs.Prelude.{◌≡◌, IfOk, List, OnErr, OnOk, false};
ghost use Rattle.std.specs.Option.{option_to_list};
ghost use Rattle.maple_io.specs.declared.act.Act.{Act};
ghost use Rattle.board_lines.specs.Laws.{given_by};
ghost use Rattle.board_lines.specs.Readings.{beginning, last_item};
ghost use Rattle.serve_steps.specs.Texts.{asks_of, quits};
ghost use Rattle.serve_channels.specs.Controlling.{Answers, ReadsOn, ReadsSome};
ghost use Rattle.serve_channels.specs.Keeping.{Goes};
ghost use Rattle.serve_channels.specs.Servers.{IsSame};

use crate::Server;
use board_lines::{ControlItem, ControlReader};
use machine_desk::Stopped;
use serve_steps::text_laws;
use std::sync::Wait;

impl<'h> Server<'h> {
    /// Further bytes of a control text are read, and what the lines ask for that end in them is done, up to `quit`. Tells
    /// whether a line was `quit`: behind it nothing is read.
    ///
    /// # Errors
    ///
    /// `Stopped`: the reader has read some first of these bytes.
    pub fn control<R: Wait>(
        &mut self,
        rt: &R,
        reader: &mut ControlReader,
        bytes: &[u8],
    ) -> Result<bool, Stopped>
        ensures gives { OnOk result ((log : List Act) → Goes (Answers (asks_of (given_by reader.old bytes.now))) self.old log self.new log) }
        ensures reads { IfOk result (λ ended. ReadsOn bytes.now ended reader.old reader.new) }
        ensures stopped { OnErr result (ReadsSome bytes.now reader.old reader.new) }
        ensures connections { self.new.connections ≡ self.old.connections }
        ensures same { IsSame self.old self.new }
    {
        text_laws();
        for byte in bytes {
            let item = reader.push(*byte)?;
            if self.obey_next(rt, item)? {
                return Ok(true);
            }
        }
        Ok(false)
    }

    /// The control text comes to its end: what stands last in it without a line feed is done.
    ///
    /// # Errors
    ///
    /// `Stopped`.
    pub fn control_end<R: Wait>(
        &mut self,
        rt: &R,
        reader: &mut ControlReader,
    ) -> Result<(), Stopped>
        ensures gives { OnOk result
            ((log : List Act) → Goes (Answers (asks_of (option_to_list (last_item reader.old)))) self.old log self.new log) }
        ensures reader { reader.new ≡ beginning }
        ensures connections { self.new.connections ≡ self.old.connections }
        ensures same { IsSame self.old self.new }
    {
        let item = reader.end();
        self.obey_next(rt, item)?;
        Ok(())
    }

    // What the reader gave next, if it gave anything, is done.
    fn obey_next<R: Wait>(&mut self, rt: &R, item: Option<ControlItem>) -> Result<bool, Stopped>
        ensures goes { OnOk result ((log : List Act) → Goes (Answers (asks_of (option_to_list item))) self.old log self.new log) }
        ensures quit { IfOk result (λ ended. ended ≡ quits (option_to_list item)) }
        ensures stopped { OnErr result (quits (option_to_list item) ≡ false) }
        ensures connections { self.new.connections ≡ self.old.connections }
        ensures same { IsSame self.old self.new }
    {
        match item {
            Some(item) => self.obey(rt, &item),
            None => Ok(false),
        }
    }
}
