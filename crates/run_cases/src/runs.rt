// Runs of the top call.
use crate::given::Given;
use crate::outcome::{Outcome, outcome_of};
use crate::summing::push_sums;
use case_text::{CaseStop, Words};
use maple_base::NoMemory;
use std::alloc::Global;
use std::sync::Wait;
use std::thread::Threads;

// The first device is plugged in, and becomes ready.
const BOOT: &str = "plug 1\nsettle\n";

// What is reported of it.
const BOOTED: &str = "open c1\nstate 1 pruned 0\nready c1 s1\nsettled 5\n";

/// What a run is given, and what it is to write.
#[derive(Drop)]
pub struct Runs<R: Threads + Wait + Copy + Send + Sync> {
    rt: R,
    alloc: Global,
    given: Given,
    input: String,
    output: String,
}

impl<R: Threads + Wait + Copy + Send + Sync> Runs<R> {
    /// A new one, at the head of each run.
    pub fn new(rt: R, alloc: Global) -> Runs<R> {
        Runs {
            rt,
            alloc,
            given: Given::new(alloc),
            input: String::new(alloc),
            output: String::new(alloc),
        }
    }

    /// Appends the answer to a call.
    pub fn answer(&mut self, mut call: Words<'_>, out: &mut String) -> Result<(), CaseStop> {
        match call.word() {
            "run" => self.run(call, out),
            "sim" => self.give("sim", call, out),
            "check" => self.give("check", call, out),
            "both" => self.both(call, out),
            "form" => self.form(call, out),
            "gen" => self.sums(call, out),
            word => {
                self.set(word, call)?;
                Ok(out.push_str("ok")?)
            }
        }
    }

    fn set(&mut self, word: &str, mut call: Words<'_>) -> Result<(), CaseStop> {
        match word {
            "device" => self.given.device(call),
            "devices" => self.given.devices(call),
            "fail" => self.given.fault(call),
            "boot" => self.boot(),
            "input" => push_line(&mut self.input, call),
            "input_part" => Ok(self.input.push_str(&call.text(self.alloc)?)?),
            "input_code" => Ok(self.input.push(char::from(call.number_u8()?))?),
            "input_each" => push_each(self.alloc, &mut self.input, call),
            "output" => push_line(&mut self.output, call),
            "output_part" => Ok(self.output.push_str(&call.text(self.alloc)?)?),
            "output_each" => push_each(self.alloc, &mut self.output, call),
            _ => Err(CaseStop::Unread),
        }
    }

    fn boot(&mut self) -> Result<(), CaseStop> {
        self.input.push_str(BOOT)?;
        self.output.push_str(BOOTED)?;
        Ok(())
    }

    fn came(&self, words: &str, input: &str) -> Result<Outcome, NoMemory> {
        outcome_of(&self.rt, self.alloc, &self.given, words, input)
    }

    // Runs the words of the call.
    fn run(&self, call: Words<'_>, out: &mut String) -> Result<(), CaseStop> {
        let came = self.came(call.rest(), self.input.as_str())?;
        Ok(came.push(self.output.as_str(), out)?)
    }

    // Runs a word, where the text of the call stands in the place of `@`.
    fn give(&self, word: &str, call: Words<'_>, out: &mut String) -> Result<(), CaseStop> {
        let input = self.input_with(call)?;
        let came = self.came(word, input.as_str())?;
        Ok(came.push(self.output.as_str(), out)?)
    }

    // The same of both commands, which are to write the same.
    fn both(&self, call: Words<'_>, out: &mut String) -> Result<(), CaseStop> {
        self.give("sim", call, out)?;
        let mut other = String::new(self.alloc);
        self.give("check", call, &mut other)?;
        if out.as_str() != other.as_str() {
            write!(out, ", and at check {other}")?;
        }
        Ok(())
    }

    // Prints a policy, and then what was printed, of which the same is to come.
    fn form(&self, call: Words<'_>, out: &mut String) -> Result<(), CaseStop> {
        let input = self.input_with(call)?;
        let came = self.came("check", input.as_str())?;
        came.push(self.output.as_str(), out)?;
        let again = self.came("check", came.text())?;
        if again.status != came.status || again.text() != came.text() {
            out.push_str(", and of that ")?;
            again.push(self.output.as_str(), out)?;
        }
        Ok(())
    }

    // Runs `gen` with these words, twice, and appends the sums of its summary.
    fn sums(&self, call: Words<'_>, out: &mut String) -> Result<(), CaseStop> {
        let mut words = String::from_str(self.alloc, "gen ")?;
        words.push_str(call.rest())?;
        let came = self.came(&words, "")?;
        let again = self.came(&words, "")?;
        push_sums(&came, out)?;
        if came.status != again.status || came.text() != again.text() {
            out.push_str(", and again ")?;
            push_sums(&again, out)?;
        }
        Ok(())
    }

    fn input_with(&self, call: Words<'_>) -> Result<String, CaseStop> {
        let Some((ahead, behind)) = self.input.split_once('@') else {
            return Err(CaseStop::Unread);
        };
        let text = call.text(self.alloc)?;
        let mut input = String::from_str(self.alloc, ahead)?;
        input.push_str(&text)?;
        input.push_str(behind)?;
        Ok(input)
    }
}

fn push_line(text: &mut String, call: Words<'_>) -> Result<(), CaseStop> {
    text.push_str(call.rest())?;
    text.push_str("\n")?;
    Ok(())
}

// Appends a text for each number from one up to another, which `$` in the text stands for.
fn push_each(alloc: Global, text: &mut String, mut call: Words<'_>) -> Result<(), CaseStop> {
    let first = call.number_u32()?;
    let last = call.number_u32()?;
    let part = call.text(alloc)?;
    let (ahead, behind) = part.split_once('$').unwrap_or((part.as_str(), ""));
    let is_numbered = part.contains('$');
    for number in first..=last {
        text.push_str(ahead)?;
        if is_numbered {
            write!(text, "{number}")?;
        }
        text.push_str(behind)?;
    }
    Ok(())
}
