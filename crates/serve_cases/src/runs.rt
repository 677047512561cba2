// Runs of serving.
use crate::calls::Entry;
use crate::given::{Given, push_line};
use crate::outcome::{Outcome, outcome_of};
use case_text::{CaseStop, Words};
use std::alloc::{AllocError, Global};
use std::sync::Wait;
use std::thread::Threads;

// HELLO, FEATURES_REQUEST, SET_CONFIG, the DELETE of all rules, BARRIER_REQUEST: what is sent to a switch until it is ready.
const GREETING: &str = "0100000800000000 0105000800000000 0109000c000000000000ffff \
    010e004800000001 003820ff000000000000000000000000000000000000000000000000000000000000000000000000 \
    0000000000000000 0003 0000 0000 0000 ffffffff ffff 0000 0112000800000002";

/// What is to be sent to a connection.
#[derive(Drop)]
struct Wanted {
    connection: u32,
    bytes: Vec<u8>,
}

/// What a run is given, what it is to write and to send, and what came of it.
#[derive(Drop)]
pub struct Runs<R: Threads + Wait + Copy + Send + Sync> {
    rt: R,
    alloc: Global,
    given: Given,
    output: String,
    last: String,
    sends: Vec<Wanted>,
    /// Of the bytes as they are given; behind it, if they were cut too, of these.
    came: Vec<Outcome>,
}

impl<R: Threads + Wait + Copy + Send + Sync> Runs<R> {
    /// A new one, at the head of each run.
    pub fn new(rt: R, alloc: Global) -> Runs<R> {
        Runs {
            rt,
            alloc,
            given: Given::new(alloc),
            output: String::new(alloc),
            last: String::new(alloc),
            sends: Vec::new(alloc),
            came: Vec::new(alloc),
        }
    }

    /// Appends the answer to a call.
    pub fn answer(&mut self, mut call: Words<'_>, out: &mut String) -> Result<(), CaseStop> {
        match call.word() {
            "run" => self.run(Entry::Serve, false, out),
            "both" => self.run(Entry::Serve, true, out),
            "top" => self.run(Entry::Top, false, out),
            "top_both" => self.run(Entry::Top, true, out),
            "sent" => self.sent(call, out),
            "count" => self.count(call, out),
            "link" => self.link(call, out),
            "ports" => self.ports(out),
            "tries" => self.tries(out),
            "each" => {
                self.each(call)?;
                Ok(out.push_str("ok")?)
            }
            word => {
                self.set(word, call)?;
                Ok(out.push_str("ok")?)
            }
        }
    }

    fn set(&mut self, word: &str, mut call: Words<'_>) -> Result<(), CaseStop> {
        match word {
            "output" => push_line(&mut self.output, call),
            "last" => push_line(&mut self.last, call),
            "sends" => {
                let connection = call.number_u32()?;
                self.want(connection, call)
            }
            "boot" => self.boot(call),
            _ => self.given.add(word, call),
        }
    }

    fn want(&mut self, connection: u32, call: Words<'_>) -> Result<(), CaseStop> {
        let bytes = call.bytes(self.alloc)?;
        self.sends.push(Wanted { connection, bytes })?;
        Ok(())
    }

    // CONNECTION DPID STATE: a switch becomes ready, which makes this state.
    fn boot(&mut self, mut call: Words<'_>) -> Result<(), CaseStop> {
        let connection = call.number_u32()?;
        let dpid = call.number()?;
        let state = call.number()?;
        self.given.boot(connection, dpid)?;
        write!(self.output, "open c{connection}\nstate {state} pruned 0\n")?;
        write!(self.output, "ready c{connection} s{dpid}\n")?;
        self.want(connection, Words::new(GREETING))
    }

    // FIRST LAST CALL: the call, for each of these numbers, which `$` in it stands for.
    fn each(&mut self, mut call: Words<'_>) -> Result<(), CaseStop> {
        let first = call.number_u32()?;
        let last = call.number_u32()?;
        for number in first..=last {
            let text = numbered(self.alloc, call.rest(), number)?;
            let mut words = Words::new(text.as_str());
            let word = words.word();
            self.set(word, words)?;
        }
        Ok(())
    }

    // A run; where `cut` says so, another one, in which each byte comes alone.
    fn run(&mut self, entry: Entry, cut: bool, out: &mut String) -> Result<(), CaseStop> {
        self.came.clear();
        let whole = outcome_of(&self.rt, self.alloc, &self.given, entry, false)?;
        self.came.push(whole)?;
        if cut {
            let single = outcome_of(&self.rt, self.alloc, &self.given, entry, true)?;
            self.came.push(single)?;
        }
        let report = self.report(entry)?;
        for came in &self.came {
            let mut answer = String::new(self.alloc);
            came.push_finish(report.as_str(), &mut answer)?;
            push_other(answer.as_str(), out)?;
        }
        Ok(())
    }

    // The report that is wanted: the top call writes the last line too.
    fn report(&self, entry: Entry) -> Result<String, AllocError> {
        let mut report = String::from_str(self.alloc, self.output.as_str())?;
        if entry == Entry::Top {
            report.push_str(self.last.as_str())?;
        }
        Ok(report)
    }

    // CONNECTION
    fn sent(&self, mut call: Words<'_>, out: &mut String) -> Result<(), CaseStop> {
        let connection = call.number_u32()?;
        let wanted = self.wanted(connection)?;
        for came in &self.came {
            let mut answer = String::new(self.alloc);
            came.push_sent(self.alloc, connection, &wanted, &mut answer)?;
            push_other(answer.as_str(), out)?;
        }
        Ok(())
    }

    // All that is to be sent to a connection.
    fn wanted(&self, connection: u32) -> Result<Vec<u8>, AllocError> {
        let mut bytes = Vec::new(self.alloc);
        for wanted in &self.sends {
            if wanted.connection == connection {
                bytes.extend_from_slice(&wanted.bytes)?;
            }
        }
        Ok(bytes)
    }

    // CONNECTION
    fn count(&self, mut call: Words<'_>, out: &mut String) -> Result<(), CaseStop> {
        let connection = call.number_u32()?;
        for came in &self.came {
            let mut answer = String::new(self.alloc);
            came.push_count(self.alloc, connection, &mut answer)?;
            push_other(answer.as_str(), out)?;
        }
        Ok(())
    }

    // CONNECTION
    fn link(&self, mut call: Words<'_>, out: &mut String) -> Result<(), CaseStop> {
        let connection = call.number_u32()?;
        for came in &self.came {
            let mut answer = String::new(self.alloc);
            came.push_link(connection, &mut answer)?;
            push_other(answer.as_str(), out)?;
        }
        Ok(())
    }

    fn ports(&self, out: &mut String) -> Result<(), CaseStop> {
        for came in &self.came {
            let mut answer = String::new(self.alloc);
            came.push_ports(&mut answer)?;
            push_other(answer.as_str(), out)?;
        }
        Ok(())
    }

    fn tries(&self, out: &mut String) -> Result<(), CaseStop> {
        for came in &self.came {
            let mut answer = String::new(self.alloc);
            came.push_tries(&mut answer)?;
            push_other(answer.as_str(), out)?;
        }
        Ok(())
    }
}

// Appends the answer of the first run, and that of the second where it is another.
fn push_other(answer: &str, out: &mut String) -> Result<(), AllocError> {
    if out.is_empty() {
        return out.push_str(answer);
    }
    if out.as_str() != answer {
        out.push_str(", and cut ")?;
        out.push_str(answer)?;
    }
    Ok(())
}

// A text in which `$` stands for a number.
fn numbered(alloc: Global, text: &str, number: u32) -> Result<String, AllocError> {
    let mut numbered = String::new(alloc);
    for part in text.chars() {
        if part == '$' {
            write!(numbered, "{number}")?;
        } else {
            numbered.push(part)?;
        }
    }
    Ok(numbered)
}
