// What a control text, or the start script, asks for.
ghost use Rattle.std.specs.Prelude.{◌≡◌, ◌∷◌, [], Err, IfOk, List, OnErr, OnOk, false};
ghost use Rattle.maple_io.specs.declared.act.Act.{Act};
ghost use Rattle.machine_steps.specs.Admitting.{IsOperators};
ghost use Rattle.script_text.specs.Orders.Halt.{Refuses as RefusesLine};
ghost use Rattle.script_text.specs.Steps.{IsKept as IsKeptStep};
ghost use Rattle.serve_steps.specs.Texts.{asked_by, asked_by_order, ends_by_order, is_quit, serve_order, without_places};
ghost use Rattle.serve_steps.specs.Texts.Ask.{Changes, ReadsRules, Refuses, Renews};
ghost use Rattle.serve_channels.specs.Controlling.{Answers, AnswersAhead, item_end, order_end, order_here};
ghost use Rattle.serve_channels.specs.Hearing.{Obeys};
ghost use Rattle.serve_channels.specs.Keeping.{Goes};
ghost use Rattle.serve_channels.specs.Servers.{IsSame};

use crate::{ScriptEnd, Server, serving_laws};
use board_lines::ControlItem;
use core_machine::{Entry, Note};
use env_cells::Update;
use machine_desk::Stopped;
use script_text::{ScriptRefusal, Step, StepStop, step_of};
use std::sync::Wait;

impl<'h> Server<'h> {
    /// What an item of a control text asks for is done: an update, another policy, the rules of a switch; a line that is
    /// refused is told in the report. An empty line and a comment ask for nothing, nor does `quit`. Tells whether it is that.
    ///
    /// # Errors
    ///
    /// `Stopped`.
    pub(crate) fn obey<R: Wait>(&mut self, rt: &R, item: &ControlItem) -> Result<bool, Stopped>
        ensures goes { OnOk result ((log : List Act) → Goes (Obeys item.now) self.old log self.new log) }
        ensures quit { IfOk result (λ ended. ended ≡ is_quit item.now) }
        ensures stopped { OnErr result (is_quit item.now ≡ false) }
        ensures connections { self.new.connections ≡ self.old.connections }
        ensures same { IsSame self.old self.new }
    {
        match self.carry_out(rt, item)? {
            ScriptEnd::Whole => Ok(false),
            ScriptEnd::Quit => Ok(true),
            ScriptEnd::Refused { line, kind } => {
                self.refuse(rt, line, kind)?;
                Ok(false)
            }
        }
    }

    // What an item asks for is done. Tells whether a script ends at it, by `quit` or as the line is refused, which isn't told in
    // the report.
    pub(crate) fn carry_out<R: Wait>(
        &mut self,
        rt: &R,
        item: &ControlItem,
    ) -> Result<ScriptEnd, Stopped>
        ensures goes { OnOk result ((log : List Act) → Goes (AnswersAhead (asked_by item.now)) self.old log self.new log) }
        ensures end { IfOk result (λ end. end ≡ item_end item.now) }
        ensures stopped { OnErr result (is_quit item.now ≡ false) }
        ensures connections { self.new.connections ≡ self.old.connections }
        ensures same { IsSame self.old self.new }
    {
        match item {
            ControlItem::Line { number, text } => self.carry_out_line(rt, *number, text.items()),
            ControlItem::TooLong { number } => Ok(ScriptEnd::Refused {
                line: *number,
                kind: ScriptRefusal::TooLong,
            }),
            ControlItem::Policy { text, .. } => {
                self.renew(rt, text.items())?;
                Ok(ScriptEnd::Whole)
            }
        }
    }

    fn carry_out_line<R: Wait>(
        &mut self,
        rt: &R,
        line: u32,
        text: &[u8],
    ) -> Result<ScriptEnd, Stopped>
        ensures goes { OnOk result ((log : List Act) → Goes (AnswersAhead (asked_by_order line (serve_order text.now))) self.old log self.new log) }
        ensures end { IfOk result (λ end. end ≡ order_end line (serve_order text.now)) }
        ensures stopped { OnErr result (ends_by_order (serve_order text.now) ≡ false) }
        ensures connections { self.new.connections ≡ self.old.connections }
        ensures same { IsSame self.old self.new }
    {
        match step_of(self.alloc, text, 0) {
            Ok(step) => self.carry_out_step(rt, line, step),
            Err(StepStop::End) => Ok(ScriptEnd::Quit),
            Err(StepStop::Refused(kind)) => Ok(ScriptEnd::Refused {
                line,
                kind: without_places(kind),
            }),
            Err(StepStop::NoMemory) => Err(Stopped),
        }
    }

    // No step is at a place, since there is none. `settle` is no command here.
    fn carry_out_step<R: Wait>(
        &mut self,
        rt: &R,
        line: u32,
        step: Step,
    ) -> Result<ScriptEnd, Stopped>
        requires { IsKeptStep 0 step }
        ensures goes { OnOk result ((log : List Act) → Goes (AnswersAhead (asked_by_order line (order_here step))) self.old log self.new log) }
        ensures end { IfOk result (λ end. end ≡ order_end line (order_here step)) }
        ensures connections { self.new.connections ≡ self.old.connections }
        ensures same { IsSame self.old self.new }
    {
        match step {
            Step::Change(update) => {
                self.change(rt, update)?;
                Ok(ScriptEnd::Whole)
            }
            Step::Rules(switch) => {
                self.list_rules(rt, switch)?;
                Ok(ScriptEnd::Whole)
            }
            Step::Settle => Ok(ScriptEnd::Refused {
                line,
                kind: ScriptRefusal::Grammar,
            }),
            _ => Ok(ScriptEnd::Whole),
        }
    }

    // ---- one entry

    fn change<R: Wait>(&mut self, rt: &R, update: Update) -> Result<(), Stopped>
        requires { IsOperators update }
        ensures goes { OnOk result ((log : List Act) → Goes (Answers (Changes update ∷ [])) self.old log self.new log) }
        ensures connections { self.new.connections ≡ self.old.connections }
        ensures same { IsSame self.old self.new }
    {
        serving_laws();
        self.desk.law();
        self.desk.change(rt, update)?;
        Ok(())
    }

    fn renew<R: Wait>(&mut self, rt: &R, text: &[u8]) -> Result<(), Stopped>
        ensures goes { OnOk result ((log : List Act) → Goes (Answers (Renews text.now ∷ [])) self.old log self.new log) }
        ensures connections { self.new.connections ≡ self.old.connections }
        ensures same { IsSame self.old self.new }
    {
        serving_laws();
        self.desk.law();
        self.desk.renew(rt, self.alloc, text)?;
        Ok(())
    }

    fn list_rules<R: Wait>(&mut self, rt: &R, switch: u64) -> Result<(), Stopped>
        ensures goes { OnOk result ((log : List Act) → Goes (Answers (ReadsRules switch ∷ [])) self.old log self.new log) }
        ensures connections { self.new.connections ≡ self.old.connections }
        ensures same { IsSame self.old self.new }
    {
        serving_laws();
        self.desk.law();
        self.desk.list_rules(rt, switch)?;
        Ok(())
    }

    fn refuse<R: Wait>(&mut self, rt: &R, line: u32, kind: ScriptRefusal) -> Result<(), Stopped>
        ensures goes { OnOk result ((log : List Act) → Goes (Answers (Refuses line kind ∷ [])) self.old log self.new log) }
        ensures connections { self.new.connections ≡ self.old.connections }
        ensures same { IsSame self.old self.new }
    {
        serving_laws();
        self.desk.law();
        let kind = kind.number();
        self.desk
            .ask(rt, Entry::Note(Note::LineRefused { line, kind }))?;
        Ok(())
    }
}

// A command that needs a place is no command where there is none.
fn without_places(kind: ScriptRefusal) -> ScriptRefusal
    ensures { without_places (Err (RefusesLine kind)) ≡ Err (RefusesLine result) }
{
    match kind {
        ScriptRefusal::Switch => ScriptRefusal::Grammar,
        kind => kind,
    }
}
