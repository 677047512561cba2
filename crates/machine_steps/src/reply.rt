// What the machine answers.
use crate::item::JobItem;
use maple_base::{Bytes, Cell, Decision, UpdateRefused, Value};
use policy_lang::Policy;
use report_text::Learnt;
use std::sync::Arc;
use switch_session::End;

/// The reply to an entry.
#[derive(Drop)]
pub enum Reply {
    /// It was done, and there is nothing to tell.
    Done,
    /// Memory ran out, and nothing changed.
    NoMemory,
    /// The session ended, or none was opened.
    Ended(End),
    /// A packet waits for an answer.
    Job(JobItem),
    /// The headers of a packet can't be read; the number of the fault.
    Malformed(u8),
    /// A packet of so many bytes is too big to be sent back.
    TooBig(u32),
    /// As many packets wait for an answer as may.
    Overload,
    /// A new state, and how many traces went with the old one.
    NewState { state: u64, pruned: u32 },
    /// An update was refused.
    UpdateRefused(UpdateRefused),
    /// What a cell has.
    Value(Value),
    /// The number of the policy in force, and the policy.
    Policy(u64, Arc<Policy>),
    /// How many there are.
    Count(u32),
    /// A packet was answered.
    Answered { decision: Decision, learnt: Learnt },
    /// The policy ran out of steps for a packet.
    Spent,
    /// What was recorded isn't so any more.
    Stale(Differs),
    /// No open job has this number, switch and key.
    NotOpen,
    /// Bytes for a connection.
    Out(Bytes),
    /// Lines of the report.
    Lines(Bytes),
}

/// What isn't any more what was recorded.
#[derive(Clone, Copy, Debug, PartialEq, Eq)]
pub enum Differs {
    /// A cell has another value.
    OfCell {
        cell: Cell,
        recorded: Value,
        current: Value,
    },
    /// Another policy is in force.
    OfPolicy {
        recorded: u64,
        current: u64,
    },
}
