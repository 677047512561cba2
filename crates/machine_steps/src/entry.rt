// What comes to the machine.
use crate::note::Note;
use env_cells::Update;
use maple_base::Cell;
use of10_codec::{Bad, Message};
use policy_lang::Policy;
use trace_record::Run;

/// An entry: what the machine is told or asked.
#[derive(Drop)]
pub enum Entry {
    /// A connection of this number was opened.
    Open(u32),
    /// A connection's next message came, or bytes that are none.
    Heard(u32, Input),
    /// A connection ended; `fault` where sending or receiving failed.
    Gone { connection: u32, fault: bool },
    /// Something changes in the network: a host, a link or a number of a table.
    Change(Update),
    /// Another policy is in force from now on.
    NewPolicy(Policy),
    /// Asks what a cell has.
    ReadCell(Cell),
    /// Asks for the policy in force.
    ReadPolicy,
    /// Asks for the rules of a switch, as lines of the report.
    ReadRules(u64),
    /// Asks how many jobs are open.
    OpenJobs,
    /// What a run of the policy recorded for a job.
    Commit { job: u64, run: Run },
    /// Asks the machine to run the policy for a job itself.
    Decide(u64),
    /// Takes the messages for a connection.
    TakeOut(u32),
    /// Takes the lines of the report.
    TakeReport,
    /// Something that the driver did, as a line of the report.
    Note(Note),
}

/// What a connection gave.
#[derive(Drop)]
pub enum Input {
    /// A message.
    Message(Message),
    /// At this place of the stream, counted in bytes, no message begins.
    Bad { place: u64, bad: Bad },
}
