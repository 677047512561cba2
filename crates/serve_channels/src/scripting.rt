// The start script.
ghost use Rattle.std.specs.Prelude.{◌≡◌, IfOk, List, OnOk};
ghost use Rattle.std.specs.Option.{option_to_list};
ghost use Rattle.maple_io.specs.declared.act.Act.{Act};
ghost use Rattle.serve_steps.specs.Texts.{asks_of, first_refused, quits, script_asks};
ghost use Rattle.serve_channels.specs.Controlling.{AnswersAhead, end_with, script_end};
ghost use Rattle.serve_channels.specs.Keeping.{Goes};
ghost use Rattle.serve_channels.specs.Servers.{IsSame};

use crate::Server;
use board_lines::{ControlItem, ControlReader, control_laws};
use machine_desk::Stopped;
use script_text::ScriptRefusal;
use std::sync::Wait;

/// How a script ends.
#[derive(Clone, Copy, Debug, PartialEq, Eq)]
pub enum ScriptEnd {
    /// As its text comes to the end.
    Whole,
    /// By `quit`.
    Quit,
    /// At a line that is refused.
    Refused { line: u32, kind: ScriptRefusal },
}

impl<'h> Server<'h> {
    /// What the lines of a script ask for is done, up to `quit` or to a line that is refused. Its first line has this number.
    ///
    /// # Errors
    ///
    /// `Stopped`.
    pub fn script<R: Wait>(
        &mut self,
        rt: &R,
        text: &[u8],
        first_line: u32,
    ) -> Result<ScriptEnd, Stopped>
        ensures goes { OnOk result ((log : List Act) → Goes (AnswersAhead (script_asks first_line text.now)) self.old log self.new log) }
        ensures end { IfOk result (λ end. end ≡ script_end first_line text.now) }
        ensures connections { self.new.connections ≡ self.old.connections }
        ensures same { IsSame self.old self.new }
    {
        control_laws();
        let mut reader = ControlReader::new_at(self.alloc, first_line);
        for byte in text {
            let item = reader.push(*byte)?;
            match self.carry_out_next(rt, item)? {
                ScriptEnd::Whole => {}
                end => return Ok(end),
            }
        }
        let item = reader.end();
        self.carry_out_next(rt, item)
    }

    // What the reader gave next, if it gave anything, is done.
    fn carry_out_next<R: Wait>(
        &mut self,
        rt: &R,
        item: Option<ControlItem>,
    ) -> Result<ScriptEnd, Stopped>
        ensures goes { OnOk result ((log : List Act) → Goes (AnswersAhead (asks_of (option_to_list item))) self.old log self.new log) }
        ensures end { IfOk result (λ end. end ≡ end_with (first_refused (asks_of (option_to_list item))) (quits (option_to_list item))) }
        ensures connections { self.new.connections ≡ self.old.connections }
        ensures same { IsSame self.old self.new }
    {
        match item {
            Some(item) => self.carry_out(rt, &item),
            None => Ok(ScriptEnd::Whole),
        }
    }
}
