// Sessions, call by call: what is heard as bytes, and what is answered and taken out; and plans.
use crate::heard::push_heard;
use crate::lists::session_list;
use crate::messages::{message_of, push_bytes, push_list};
use crate::plans::push_plan_of;
use case_text::{CaseStop, Subject, Words};
use case_values::actions_of;
use maple_base::openflow::NO_BUFFER;
use maple_base::{Actions, NoMemory};
use std::alloc::{AllocError, Global};
use switch_session::{Phase, Session};

// The most bytes that fit into a message that sends them.
const MOST_BYTES: usize = 65_391;

/// A session.
#[derive(Drop)]
pub struct Sessions {
    alloc: Global,
    session: Session,
}

impl Subject for Sessions {
    fn new(alloc: Global) -> Result<Sessions, NoMemory> {
        Ok(Sessions {
            alloc,
            session: Session::open(alloc, 1, 0)?,
        })
    }

    fn answer(&mut self, call: Words<'_>, out: &mut String) -> Result<(), CaseStop> {
        let mut words = call;
        match words.word() {
            "open" => {
                self.session = opened(self.alloc, words)?;
                Ok(out.push_str("ok")?)
            }
            "hear" => hear(self.alloc, &mut self.session, words, out),
            "phase" => Ok(write!(out, "{:?}", self.session.phase())?),
            "stands" => Ok(push_standing(&self.session, out)?),
            "plan" => push_plan_of(self.alloc, words, out),
            "take" => take(&mut self.session, out),
            "list" => list(&mut self.session, out),
            _ => make(self.alloc, &mut self.session, call, out),
        }
    }
}

// Calls that answer nothing.
fn make(
    alloc: Global,
    session: &mut Session,
    call: Words<'_>,
    out: &mut String,
) -> Result<(), CaseStop> {
    let mut words = call;
    match words.word() {
        "accept" => accept(alloc, session, words)?,
        "aim" => aim(alloc, session, words)?,
        "prepare" => prepare(alloc, session, words)?,
        "forget" => session.forget(),
        "answer" => answer(alloc, session, words)?,
        "longest" => answer_longest(alloc, session)?,
        "end" => session.end(),
        _ => return Err(CaseStop::Unread),
    }
    Ok(out.push_str("ok")?)
}

// open CAPACITY: a session for a switch with room for so many rules.
fn opened(alloc: Global, mut words: Words<'_>) -> Result<Session, CaseStop> {
    let capacity = words.number_u16()?;
    Ok(Session::open(alloc, 1, u32::from(capacity))?)
}

// hear BYTES
fn hear(
    alloc: Global,
    session: &mut Session,
    words: Words<'_>,
    out: &mut String,
) -> Result<(), CaseStop> {
    let bytes = words.bytes(alloc)?;
    let message = message_of(alloc, &bytes)?;
    let heard = session.hear(&message)?;
    Ok(push_heard(&heard, out)?)
}

// accept RULES
fn accept(alloc: Global, session: &mut Session, words: Words<'_>) -> Result<(), CaseStop> {
    let list = session_list(alloc, words.rest(), session.capacity())?;
    let Phase::Second = session.phase() else {
        return Err(CaseStop::Unread);
    };
    Ok(session.accept(&list)?)
}

// aim RULES
fn aim(alloc: Global, session: &mut Session, words: Words<'_>) -> Result<(), CaseStop> {
    let list = session_list(alloc, words.rest(), session.capacity())?;
    let Phase::Live = session.phase() else {
        return Err(CaseStop::Unread);
    };
    if session.quiet() {
        return Err(CaseStop::Unread);
    }
    let aim = session.prepare(&list)?;
    session.aim(aim);
    Ok(())
}

// prepare RULES: plans an update, or the first one of a session that waits to be accepted, and has none of it sent.
fn prepare(alloc: Global, session: &mut Session, words: Words<'_>) -> Result<(), CaseStop> {
    let list = session_list(alloc, words.rest(), session.capacity())?;
    match session.phase() {
        Phase::Second => {
            session.prepare_start(&list)?;
            Ok(())
        }
        Phase::Live if !session.quiet() => {
            session.prepare(&list)?;
            Ok(())
        }
        _ => Err(CaseStop::Unread),
    }
}

// answer BUFFER PORT ACTIONS BYTES: a packet is sent.
fn answer(alloc: Global, session: &mut Session, mut words: Words<'_>) -> Result<(), CaseStop> {
    let buffer = words.number_u32()?;
    let in_port = words.number_u16()?;
    let actions = actions_of(alloc, words.word())?;
    let frame = words.bytes(alloc)?;
    put(session, buffer, in_port, actions, &frame)
}

// A packet of the most bytes is sent out of 16 ports.
fn answer_longest(alloc: Global, session: &mut Session) -> Result<(), CaseStop> {
    let frame = Vec::from_elem(alloc, 7u8, MOST_BYTES)?;
    let actions = Actions::new(&[1, 2, 3, 4, 5, 6, 7, 8, 9, 10, 11, 12, 13, 14, 15, 16]);
    put(session, NO_BUFFER, 3, actions, &frame)
}

fn put(
    session: &mut Session,
    buffer: u32,
    in_port: u16,
    actions: Actions,
    frame: &[u8],
) -> Result<(), CaseStop> {
    if frame.len() > MOST_BYTES {
        return Err(CaseStop::Unread);
    }
    Ok(session.answer(buffer, in_port, actions, frame)?)
}

fn take(session: &mut Session, out: &mut String) -> Result<(), CaseStop> {
    let bytes = session.take_out()?;
    Ok(push_bytes(bytes.items(), out)?)
}

fn list(session: &mut Session, out: &mut String) -> Result<(), CaseStop> {
    let bytes = session.take_out()?;
    Ok(push_list(bytes.items(), out)?)
}

// Whether the reply to a barrier is outstanding, whether the session is quiet, and the switch's number.
fn push_standing(session: &Session, out: &mut String) -> Result<(), AllocError> {
    write!(
        out,
        "{} {} {}",
        session.outstanding(),
        session.quiet(),
        session.dpid().unwrap_or(0)
    )
}
