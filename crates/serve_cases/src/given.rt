// What a run is given.
use crate::messages::{barrier, features, hello, packet, repeated, spelled};
use crate::settings::usual;
use case_text::{CaseStop, Words};
use maple_base::Settings;
use maple_io::{MemTurn, Piece};
use std::alloc::Global;

/// A policy, a start script, settings, the turns of the board, and what fails.
#[derive(Drop)]
pub struct Given {
    alloc: Global,
    pub policy: String,
    pub start: String,
    pub first_line: u32,
    pub settings: Settings,
    pub turns: Vec<MemTurn>,
    /// The numbers of the board's calls that fail.
    pub calls: Vec<u64>,
    /// The numbers of the reads that fail.
    pub reads: Vec<u64>,
    /// The numbers of the writes that fail.
    pub writes: Vec<u64>,
    /// How often the board answers NotYet ahead of each send that takes bytes, and how many it takes then at most.
    pub slow: Option<(u64, usize)>,
}

impl Given {
    /// No policy, no turn, and nothing that fails.
    pub fn new(alloc: Global) -> Given {
        Given {
            alloc,
            policy: String::new(alloc),
            start: String::new(alloc),
            first_line: 1,
            settings: usual(),
            turns: Vec::new(alloc),
            calls: Vec::new(alloc),
            reads: Vec::new(alloc),
            writes: Vec::new(alloc),
            slow: None,
        }
    }

    /// One thing more that it is given.
    pub fn add(&mut self, word: &str, mut call: Words<'_>) -> Result<(), CaseStop> {
        match word {
            "policy" => push_line(&mut self.policy, call),
            "start" => push_line(&mut self.start, call),
            "start_part" => Ok(self.start.push_str(&call.text(self.alloc)?)?),
            "first_line" => {
                self.first_line = call.number_u32()?;
                Ok(())
            }
            "capacity" | "levels" | "budget" | "workers" => self.limit(word, call),
            "fail" => self.fault(call),
            "slow" => {
                self.slow = Some((call.number()?, usize::try_from(call.number()?)?));
                Ok(())
            }
            word => self.turn(word, call),
        }
    }

    fn limit(&mut self, word: &str, mut call: Words<'_>) -> Result<(), CaseStop> {
        let number = call.number_u32()?;
        match word {
            "capacity" => self.settings.capacity = number,
            "levels" => self.settings.levels = number,
            "budget" => self.settings.budget = number,
            _ => self.settings.workers = number,
        }
        Ok(())
    }

    // A call of the board, a read, or a write, that fails.
    fn fault(&mut self, mut call: Words<'_>) -> Result<(), CaseStop> {
        match call.word() {
            "call" => self.calls.push(call.number()?)?,
            "read" => self.reads.push(call.number()?)?,
            "write" => self.writes.push(call.number()?)?,
            _ => return Err(CaseStop::Unread),
        }
        Ok(())
    }

    // A turn of the board.
    fn turn(&mut self, word: &str, mut call: Words<'_>) -> Result<(), CaseStop> {
        let turn = match word {
            "opened" => MemTurn::Opened(call.number_u32()?),
            "closed" => MemTurn::Closed(call.number_u32()?),
            "broken" => MemTurn::Broken(call.number_u32()?),
            "control" => MemTurn::Control(line_of(self.alloc, call)?),
            "control_part" => MemTurn::Control(part_of(self.alloc, call)?),
            "control_bytes" => MemTurn::Control(spelled(self.alloc, call.rest())?),
            "idle" => MemTurn::Idle,
            "end" => MemTurn::End,
            word => MemTurn::Bytes(call.number_u32()?, message(self.alloc, word, call)?),
        };
        self.turns.push(turn)?;
        Ok(())
    }

    /// A connection is opened, and what its switch sends until it is ready comes.
    pub fn boot(&mut self, connection: u32, dpid: u64) -> Result<(), CaseStop> {
        let hello = hello(self.alloc)?;
        let features = features(self.alloc, dpid)?;
        let barrier = barrier(self.alloc, 2)?;
        self.turns.push(MemTurn::Opened(connection))?;
        self.turns.push(MemTurn::Bytes(connection, hello))?;
        self.turns.push(MemTurn::Bytes(connection, features))?;
        self.turns.push(MemTurn::Bytes(connection, barrier))?;
        Ok(())
    }
}

// A message, or any bytes, that come on a connection.
fn message(alloc: Global, word: &str, mut call: Words<'_>) -> Result<Piece, CaseStop> {
    match word {
        "bytes" => spelled(alloc, call.rest()),
        "repeated" => {
            let count = call.number()?;
            repeated(alloc, count, &call.bytes(alloc)?)
        }
        "hello" => hello(alloc),
        "features" => features(alloc, call.number()?),
        "barrier" => barrier(alloc, call.number_u32()?),
        "packet" => {
            let port = call.number_u16()?;
            packet(alloc, port, &call.bytes(alloc)?)
        }
        _ => Err(CaseStop::Unread),
    }
}

fn line_of(alloc: Global, call: Words<'_>) -> Result<Piece, CaseStop> {
    let mut line = Vec::from_slice(alloc, call.rest().as_bytes())?;
    line.push(b'\n')?;
    Ok(Piece::new(line))
}

fn part_of(alloc: Global, call: Words<'_>) -> Result<Piece, CaseStop> {
    let text = call.text(alloc)?;
    Ok(Piece::new(Vec::from_slice(alloc, text.as_bytes())?))
}

/// Appends the rest of a call, and the end of a line.
pub fn push_line(text: &mut String, call: Words<'_>) -> Result<(), CaseStop> {
    text.push_str(call.rest())?;
    text.push_str("\n")?;
    Ok(())
}
