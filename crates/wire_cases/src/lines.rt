// The lines of reports, of words.
use crate::decisions::decision_of;
use case_text::{CaseStop, Words};
use case_values::{actions_of, match_of};
use maple_base::{PolicyFault, UpdateRefused};
use report_text::{Learnt, Line, ScriptRefusal, Why};
use std::alloc::Global;

/// The line that words are.
pub fn line_of(alloc: Global, mut words: Words<'_>) -> Result<Line, CaseStop> {
    match words.word() {
        "update" => update(words),
        "policy" => policy(words),
        "script" => script(words),
        "answer" => answer(alloc, words),
        "hit" => Ok(Line::Hit {
            device: words.number_u32()?,
            port: words.number_u16()?,
            actions: actions_of(alloc, words.word())?,
        }),
        "rule" => Ok(Line::Rule {
            switch: words.number()?,
            priority: words.number_u16()?,
            actions: actions_of(alloc, words.word())?,
            of: match_of(words.word())?,
        }),
        "settled" => Ok(Line::Settled {
            turns: words.number_u32()?,
        }),
        "unsettled" => Ok(Line::Unsettled {
            turns: words.number_u32()?,
        }),
        "stale" => Ok(Line::Stale {
            job: words.number()?,
        }),
        "end" => Ok(Line::End),
        verb => numbered(verb, words),
    }
}

// Lines of a switch and a number, or of a state.
fn numbered(verb: &str, mut words: Words<'_>) -> Result<Line, CaseStop> {
    match verb {
        "state" => Ok(Line::State {
            state: words.number()?,
            pruned: words.number_u32()?,
        }),
        "quiet" => Ok(Line::Quiet {
            switch: words.number()?,
            retired: words.number_u32()?,
        }),
        "spent" => Ok(Line::Spent {
            switch: words.number()?,
            port: words.number_u16()?,
        }),
        "rules" => Ok(Line::Rules {
            switch: words.number()?,
            count: words.number_u32()?,
        }),
        _ => of_device(verb, words.number_u32()?, words),
    }
}

// Lines of a device alone, or with one thing more.
fn of_device(verb: &str, device: u32, mut words: Words<'_>) -> Result<Line, CaseStop> {
    match verb {
        "open" => Ok(Line::Open { device }),
        "overload" => Ok(Line::Overload { device }),
        "absent" => Ok(Line::Absent { device }),
        "gone" => Ok(Line::Gone { device }),
        "present" => Ok(Line::Present { device }),
        "ready" => Ok(Line::Ready {
            device,
            switch: words.number()?,
        }),
        "closed" => Ok(Line::Closed {
            device,
            why: why(words)?,
        }),
        _ => heard(verb, device, words),
    }
}

// Lines of a device with what came from it.
fn heard(verb: &str, device: u32, mut words: Words<'_>) -> Result<Line, CaseStop> {
    match verb {
        "error" => Ok(Line::Error {
            device,
            kind: words.number_u16()?,
            code: words.number_u16()?,
        }),
        "malformed" => Ok(Line::Malformed {
            device,
            kind: words.number_u8()?,
        }),
        "toobig" => Ok(Line::TooBig {
            device,
            bytes: words.number_u32()?,
        }),
        "miss" => Ok(Line::Miss {
            device,
            port: words.number_u16()?,
            reason: words.number_u8()?,
        }),
        "turned" => Ok(Line::Turned {
            device,
            turns: words.number_u32()?,
        }),
        _ => Err(CaseStop::Unread),
    }
}

fn why(mut words: Words<'_>) -> Result<Why, CaseStop> {
    match words.word() {
        "Bad" => Ok(Why::Bad {
            place: words.number()?,
            cause: words.number_u8()?,
        }),
        "Version" => Ok(Why::Version),
        "Twice" => Ok(Why::Twice(words.number()?)),
        "Full" => Ok(Why::Full),
        "Clear" => Ok(Why::Clear),
        "Early" => Ok(Why::Early(words.number_u32()?)),
        "Xids" => Ok(Why::Xids),
        "Link" => Ok(Why::Link),
        "Fault" => Ok(Why::Fault),
        _ => Err(CaseStop::Unread),
    }
}

fn update(mut words: Words<'_>) -> Result<Line, CaseStop> {
    let kind = match words.word() {
        "UnknownTable" => UpdateRefused::UnknownTable,
        "UnknownSwitch" => UpdateRefused::UnknownSwitch,
        "PortRange" => UpdateRefused::PortRange,
        "Full" => UpdateRefused::Full {
            count: words.number()?,
            limit: words.number()?,
        },
        _ => return Err(CaseStop::Unread),
    };
    Ok(Line::RefusedUpdate { kind })
}

// LINE COLUMN NUMBER: the number of the fault, in the order of its kinds.
fn policy(mut words: Words<'_>) -> Result<Line, CaseStop> {
    Ok(Line::RefusedPolicy {
        line: words.number_u32()?,
        column: words.number_u32()?,
        kind: PolicyFault::numbered(words.number_u8()?).ok_or(CaseStop::Unread)?,
    })
}

fn script(mut words: Words<'_>) -> Result<Line, CaseStop> {
    let line = words.number_u32()?;
    let kind = match words.word() {
        "Grammar" => ScriptRefusal::Grammar,
        "TooLong" => ScriptRefusal::TooLong,
        "Switch" => ScriptRefusal::Switch,
        _ => return Err(CaseStop::Unread),
    };
    Ok(Line::RefusedScript { line, kind })
}

// SWITCH PORT DECISION LEARNT
fn answer(alloc: Global, mut words: Words<'_>) -> Result<Line, CaseStop> {
    let switch = words.number()?;
    let port = words.number_u16()?;
    let word = words.word();
    let learnt = learnt(words)?;
    Ok(Line::Answer {
        switch,
        port,
        decision: decision_of(alloc, word)?,
        learnt,
    })
}

fn learnt(mut words: Words<'_>) -> Result<Learnt, CaseStop> {
    match words.word() {
        "Learned" => Ok(Learnt::Learned),
        "Known" => Ok(Learnt::Known),
        "Levels" => Ok(Learnt::Levels {
            need: words.number()?,
            limit: words.number_u32()?,
        }),
        "Rows" => Ok(Learnt::Rows {
            need: words.number()?,
            capacity: words.number_u32()?,
        }),
        "Quiet" => Ok(Learnt::Quiet),
        _ => Err(CaseStop::Unread),
    }
}
