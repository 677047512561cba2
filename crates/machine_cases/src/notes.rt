// What a driver did.
use case_text::{CaseStop, Words};
use case_values::actions_of;
use machine_steps::Note;
use maple_base::{Bytes, Seen, Turned};
use std::alloc::Global;

/// The note that words tell: `policy LINE COLUMN KIND`, `line LINE KIND`, `turned DEVICE TURNS`, or as below.
pub fn note_of(alloc: Global, call: Words<'_>) -> Result<Note, CaseStop> {
    let mut words = call;
    match words.word() {
        "hit" | "miss" | "failed" => seen(alloc, call),
        "policy" => Ok(Note::PolicyRefused {
            line: words.number_u32()?,
            column: words.number_u32()?,
            kind: words.number_u8()?,
        }),
        "line" => Ok(Note::LineRefused {
            line: words.number_u32()?,
            kind: words.number_u8()?,
        }),
        "turned" => Ok(Note::TurnedAll {
            device: words.number_u32()?,
            turns: words.number_u32()?,
        }),
        _ => of_one_number(call),
    }
}

// hit DEVICE PORT ACTIONS, miss DEVICE PORT REASON, failed DEVICE PORT
fn seen(alloc: Global, mut words: Words<'_>) -> Result<Note, CaseStop> {
    let verb = words.word();
    let device = words.number_u32()?;
    let port = words.number_u16()?;
    Ok(Note::Seen {
        device,
        port,
        frame: Bytes::new(Vec::new(alloc)),
        seen: seen_of(alloc, verb, words)?,
    })
}

fn seen_of(alloc: Global, verb: &str, mut words: Words<'_>) -> Result<Seen, CaseStop> {
    match verb {
        "hit" => Ok(Seen::Hit(actions_of(alloc, words.word())?)),
        "miss" => Ok(Seen::Miss {
            reason: words.number_u8()?,
        }),
        _ => Ok(Seen::Failed),
    }
}

// A note with one number, that of a device or of turns.
fn of_one_number(call: Words<'_>) -> Result<Note, CaseStop> {
    let mut words = call;
    let verb = words.word();
    let about = words.number_u32()?;
    match verb {
        "offered" => Ok(Note::Offered {
            device: about,
            failed: false,
        }),
        "turn" => Ok(Note::Turned {
            device: about,
            turned: Turned::Nothing,
        }),
        "settled" => Ok(Note::Settled(about)),
        "unsettled" => Ok(Note::Unsettled(about)),
        "absent" => Ok(Note::Absent(about)),
        "gone" => Ok(Note::GoneAlready(about)),
        "present" => Ok(Note::Present(about)),
        _ => Err(CaseStop::Unread),
    }
}
