// What comes of a run.
use crate::calls::{Entry, Finish, finish_of};
use crate::given::Given;
use crate::slow_board::SlowBoard;
use crate::turns::board_of;
use case_text::{CaseStop, push_hex, push_text};
use maple_base::NoMemory;
use maple_io::{MemBoard, MemSink};
use serve_steps::ServeEnd;
use std::alloc::{AllocError, Global};
use std::sync::Wait;
use std::thread::Threads;

/// How it ended, what was written, and the board behind it.
#[derive(Drop)]
pub struct Outcome {
    finish: Finish,
    sink: MemSink,
    board: MemBoard,
    /// Of a slow board: the ports with which it was started, and how many sends were tried.
    seen: Option<(Option<(u16, u16)>, u64)>,
}

impl Outcome {
    /// Appends how it ended. Where the text isn't as it is wanted, all of it.
    pub fn push_finish(&self, wanted: &str, out: &mut String) -> Result<(), AllocError> {
        match self.finish {
            Finish::Served(ServeEnd::Script { line, kind }) => {
                write!(out, "Script {line} {kind:?}")?
            }
            Finish::Served(end) => write!(out, "{end:?}")?,
            Finish::Exited(status) => write!(out, "{status}")?,
        }
        if self.sink.bytes() != wanted.as_bytes() {
            out.push_str(" with ")?;
            push_text(self.sink.bytes(), out)?;
        }
        Ok(())
    }

    /// Appends how many bytes were sent to a connection. Where they aren't as they are wanted, all of them.
    pub fn push_sent(
        &self,
        alloc: Global,
        connection: u32,
        wanted: &[u8],
        out: &mut String,
    ) -> Result<(), NoMemory> {
        let sent = self.sent(alloc, connection)?;
        let count = sent.len();
        write!(out, "{count}")?;
        if sent.as_slice() != wanted {
            out.push_str(" with ")?;
            push_hex(&sent, out)?;
        }
        Ok(())
    }

    /// Appends how many bytes were sent to a connection.
    pub fn push_count(
        &self,
        alloc: Global,
        connection: u32,
        out: &mut String,
    ) -> Result<(), NoMemory> {
        let count = self.sent(alloc, connection)?.len();
        write!(out, "{count}")?;
        Ok(())
    }

    fn sent(&self, alloc: Global, connection: u32) -> Result<Vec<u8>, NoMemory> {
        let mut sent = Vec::new(alloc);
        self.board.sent(connection, &mut sent)?;
        Ok(sent)
    }

    /// Appends what became of a connection.
    pub fn push_link(&self, connection: u32, out: &mut String) -> Result<(), AllocError> {
        let link = match (self.board.opened(connection), self.board.closed(connection)) {
            (false, _) => "none",
            (true, false) => "open",
            (true, true) => "closed",
        };
        out.push_str(link)
    }

    /// Appends with which ports a slow board was started.
    pub fn push_ports(&self, out: &mut String) -> Result<(), CaseStop> {
        let Some((ports, _)) = self.seen else {
            return Err(CaseStop::Unread);
        };
        match ports {
            Some((listen, control)) => write!(out, "{listen} {control}")?,
            None => out.push_str("none")?,
        }
        Ok(())
    }

    /// Appends how many sends were tried over a slow board.
    pub fn push_tries(&self, out: &mut String) -> Result<(), CaseStop> {
        let Some((_, sends)) = self.seen else {
            return Err(CaseStop::Unread);
        };
        write!(out, "{sends}")?;
        Ok(())
    }
}

/// A run of this call. Where `singly` says so, each byte comes alone.
pub fn outcome_of<R: Threads + Wait + Copy + Send + Sync>(
    rt: &R,
    alloc: Global,
    given: &Given,
    entry: Entry,
    singly: bool,
) -> Result<Outcome, CaseStop> {
    let board = board_of(alloc, &given.turns, &given.calls, singly)?;
    let sink = MemSink::new(Vec::from_slice(alloc, &given.writes)?);
    match given.slow {
        None => over_memory(rt, alloc, given, entry, board, sink),
        Some((waits, most)) => {
            let board = SlowBoard::new(board, waits, most);
            over_slow(rt, alloc, given, entry, board, sink)
        }
    }
}

fn over_memory<R: Threads + Wait + Copy + Send + Sync>(
    rt: &R,
    alloc: Global,
    given: &Given,
    entry: Entry,
    mut board: MemBoard,
    mut sink: MemSink,
) -> Result<Outcome, CaseStop> {
    let finish = finish_of(rt, alloc, given, entry, &mut board, &mut sink)?;
    Ok(Outcome {
        finish,
        sink,
        board,
        seen: None,
    })
}

fn over_slow<R: Threads + Wait + Copy + Send + Sync>(
    rt: &R,
    alloc: Global,
    given: &Given,
    entry: Entry,
    mut board: SlowBoard,
    mut sink: MemSink,
) -> Result<Outcome, CaseStop> {
    let finish = finish_of(rt, alloc, given, entry, &mut board, &mut sink)?;
    let seen = board.seen();
    Ok(Outcome {
        finish,
        sink,
        board: board.into_board(),
        seen: Some(seen),
    })
}
