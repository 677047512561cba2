// The calls that serve: `run_serve`, and the top call.
use crate::command::{CONTROL, LISTEN, source_of, words_of};
use crate::given::Given;
use crate::settings::tested;
use case_text::CaseStop;
use device_port::Device;
use maple_io::{Board, MemSink};
use maple_top::maple;
use packet_workers::Open;
use policy_lang::Policy;
use policy_text::{ReadError, read_policy};
use serve_pump::run_serve;
use serve_steps::ServeEnd;
use std::alloc::Global;
use std::sync::Wait;
use std::thread::Threads;

/// Which call serves.
#[derive(Clone, Copy, Debug, PartialEq, Eq)]
pub enum Entry {
    /// `run_serve`.
    Serve,
    /// `maple`, with the words of a command line.
    Top,
}

/// How it ended.
#[derive(Clone, Copy, Debug, PartialEq, Eq)]
pub enum Finish {
    Served(ServeEnd),
    /// With this exit status.
    Exited(u8),
}

/// Makes this call over a board.
pub fn finish_of<R: Threads + Wait + Copy + Send + Sync, B: Board>(
    rt: &R,
    alloc: Global,
    given: &Given,
    entry: Entry,
    board: &mut B,
    sink: &mut MemSink,
) -> Result<Finish, CaseStop> {
    match entry {
        Entry::Serve => served(rt, alloc, given, board, sink),
        Entry::Top => exited(rt, alloc, given, board, sink),
    }
}

fn served<R: Threads + Wait + Copy + Send + Sync, B: Board>(
    rt: &R,
    alloc: Global,
    given: &Given,
    board: &mut B,
    sink: &mut MemSink,
) -> Result<Finish, CaseStop> {
    let policy = policy_of(alloc, given.policy.as_str())?;
    let settings = tested(given.settings)?;
    let end = run_serve(
        rt,
        alloc,
        policy,
        given.start.as_bytes(),
        given.first_line,
        settings,
        LISTEN,
        CONTROL,
        &Open,
        sink,
        board,
    );
    Ok(Finish::Served(end))
}

fn exited<R: Threads + Wait + Copy + Send + Sync, B: Board>(
    rt: &R,
    alloc: Global,
    given: &Given,
    board: &mut B,
    sink: &mut MemSink,
) -> Result<Finish, CaseStop> {
    let words = words_of(alloc, given.settings)?;
    let mut source = source_of(alloc, given)?;
    let mut devices: Vec<Box<dyn Device + Send>> = Vec::new(alloc);
    let status = maple(
        rt,
        alloc,
        &words,
        &mut source,
        sink,
        &mut devices,
        &Open,
        board,
    );
    Ok(Finish::Exited(status.number()))
}

fn policy_of(alloc: Global, text: &str) -> Result<Policy, CaseStop> {
    match read_policy(alloc, text.as_bytes()) {
        Ok(policy) => Ok(policy),
        Err(ReadError::NoMemory) => Err(CaseStop::NoMemory),
        Err(ReadError::Refused { .. }) => Err(CaseStop::Unread),
    }
}
