// The lines of a report.
ghost use Rattle.std.specs.Prelude.{◌≡◌};
ghost use Rattle.report_text.specs.ScriptRefusals.{refusal_number, refusal_numbered, RefusalsAreNumbered};

use maple_base::{Actions, Decision, Match, PolicyFault, UpdateRefused};

/// A line of a report. Devices are named by their places among the devices, from 1 on; switches by
/// their datapath ids.
#[derive(Drop)]
pub enum Line {
    /// `open cC`: a connection of this device was opened.
    Open {
        device: u32,
    },
    /// `closed cC WHY`: it ended.
    Closed {
        device: u32,
        why: Why,
    },
    /// `ready cC sS`: the switch answered the first barrier.
    Ready {
        device: u32,
        switch: u64,
    },
    /// `state N pruned K`: a new state of the environment, and how many traces went with the old one.
    State {
        state: u64,
        pruned: u32,
    },
    /// `refused update KIND`.
    RefusedUpdate {
        kind: UpdateRefused,
    },
    /// `refused policy L:C KIND`: a fault of a policy's text at this line and column, from 1 on.
    RefusedPolicy {
        line: u32,
        column: u32,
        kind: PolicyFault,
    },
    /// `refused script L KIND`: a fault of a script at this line, from 1 on.
    RefusedScript {
        line: u32,
        kind: ScriptRefusal,
    },
    /// `error cC TYPE CODE`: an ERROR of these numbers came (OpenFlow 1.0, 5.4.4).
    Error {
        device: u32,
        kind: u16,
        code: u16,
    },
    /// `quiet sS retired K`: the switch gets no more rules, and this many of its traces went.
    Quiet {
        switch: u64,
        retired: u32,
    },
    /// `malformed cC KIND`: a packet whose headers can't be read, with the number of the fault.
    Malformed {
        device: u32,
        kind: u8,
    },
    /// `toobig cC N`: a packet of so many bytes, too many to be sent back.
    TooBig {
        device: u32,
        bytes: u32,
    },
    /// `overload cC`: a packet for which there was no room.
    Overload {
        device: u32,
    },
    /// `answer sS P DECISION LEARNT`: what the controller decided of a packet at this port.
    Answer {
        switch: u64,
        port: u16,
        decision: Decision,
        learnt: Learnt,
    },
    /// `spent sS P`: the policy took more steps than its budget on a packet at this port.
    Spent {
        switch: u64,
        port: u16,
    },
    /// `stale JOB`: an evaluation read what isn't so any more.
    Stale {
        job: u64,
    },
    /// `hit cC P ACTIONS`: a packet at this port hit a rule of the device.
    Hit {
        device: u32,
        port: u16,
        actions: Actions,
    },
    /// `miss cC P REASON`: a packet at this port went to the controller, by a rule for reason 1, by
    /// none for reason 0.
    Miss {
        device: u32,
        port: u16,
        reason: u8,
    },
    /// `turned cC N`: the device took so many turns.
    Turned {
        device: u32,
        turns: u32,
    },
    /// `settled N`: after so many turns no device had a message to answer.
    Settled {
        turns: u32,
    },
    /// `unsettled N`: after so many turns some device had a message to answer.
    Unsettled {
        turns: u32,
    },
    /// `absent cC`: the device isn't plugged in.
    Absent {
        device: u32,
    },
    /// `gone cC`: the device was left.
    Gone {
        device: u32,
    },
    /// `present cC`: the device is plugged in already.
    Present {
        device: u32,
    },
    /// `rule sS PRIORITY ACTIONS MATCH`: a rule of the switch. A VLAN priority in the match isn't
    /// shown; a normal match fixes none.
    Rule {
        switch: u64,
        priority: u16,
        actions: Actions,
        of: Match,
    },
    /// `rules sS N`: how many rules the switch has.
    Rules {
        switch: u64,
        count: u32,
    },
    /// `end`: the run ended well.
    End,
}

/// The most bytes of a line for which room is kept: `ready`, `error`, `quiet` and `closed`.
pub const SHORT_LINE: usize = 48;

/// Why a connection ended.
#[derive(Clone, Copy, Debug, PartialEq, Eq)]
pub enum Why {
    /// `bad PLACE CAUSE`: bytes that are no message, from this place of the stream on, with the
    /// number of the fault.
    Bad { place: u64, cause: u8 },
    /// `version`: a HELLO of version 0.
    Version,
    /// `twice DPID`: another live connection has this datapath id.
    Twice(u64),
    /// `full`: there was no room for it.
    Full,
    /// `clear`: its table couldn't be cleared.
    Clear,
    /// `early XID`: a barrier was answered before it was sent.
    Early(u32),
    /// `xids`: it had no more transaction ids.
    Xids,
    /// `link`: the other side ended it.
    Link,
    /// `fault`: sending or receiving failed.
    Fault,
}

/// Why a line of a script was refused.
#[derive(Clone, Copy, Debug, PartialEq, Eq)]
pub enum ScriptRefusal {
    /// It is no command.
    Grammar,
    /// It has more than 8,192 bytes.
    TooLong,
    /// It names a place that isn't among the devices.
    Switch,
}

impl ScriptRefusal {
    /// The number by which the refusal is told, 1 to 3 in the order of the variants.
    pub fn number(self) -> u8
        ensures { result ≡ refusal_number self }
    {
        match self {
            ScriptRefusal::Grammar => 1,
            ScriptRefusal::TooLong => 2,
            ScriptRefusal::Switch => 3,
        }
    }

    /// The refusal of this number, 1 to 3, or none.
    pub fn numbered(number: u8) -> Option<ScriptRefusal>
        ensures { result ≡ refusal_numbered number }
    {
        match number {
            1 => Some(ScriptRefusal::Grammar),
            2 => Some(ScriptRefusal::TooLong),
            3 => Some(ScriptRefusal::Switch),
            _ => None,
        }
    }
}

/// The number of each refusal leads back to it, so no two have one number.
#[tactic(auto, using(crate::proofs::RefusalNumbers::refusal_back))]
pub fn refusal_numbers_law()
    ensures { RefusalsAreNumbered }
{}

/// What was learned from a packet.
#[derive(Clone, Copy, Debug, PartialEq, Eq)]
pub enum Learnt {
    /// `learned`: its trace.
    Learned,
    /// `known`: its trace was there.
    Known,
    /// `unlearned levels NEED LIMIT`: nothing, since the rules would need more priorities than the
    /// limit.
    Levels { need: u64, limit: u32 },
    /// `unlearned rows NEED CAPACITY`: nothing, since there would be more rules than the switch has
    /// room for.
    Rows { need: u64, capacity: u32 },
    /// `unlearned quiet`: nothing, since the switch gets no more rules.
    Quiet,
}
