// Updates of a network, and what is said to them.
use case_text::{CaseStop, Words};
use env_cells::{Update, UpdateError};
use maple_base::{Name, Names, Port, Ports};
use std::alloc::Global;

/// The update that a word, the verb, and all further words are. Of a switch's ports one behind `-` is
/// down, and `A..B` are those from A up to B, without B.
pub fn update_of(alloc: Global, call: Words<'_>) -> Result<Update, CaseStop> {
    let mut words = call;
    match words.word() {
        "switch" => switch(alloc, words),
        "tables" => tables(alloc, words),
        _ => of_one(call),
    }
}

fn switch(alloc: Global, mut words: Words<'_>) -> Result<Update, CaseStop> {
    let switch = words.number()?;
    let mut list = Vec::new(alloc);
    for word in words.rest().split_whitespace() {
        push_ports(word, &mut list)?;
    }
    let ports = Ports::new(list);
    Ok(Update::Switch { switch, ports })
}

fn push_ports(word: &str, list: &mut Vec<Port>) -> Result<(), CaseStop> {
    if let Some((first, end)) = word.split_once("..") {
        for number in Words::new(first).number_u16()?..Words::new(end).number_u16()? {
            list.push(Port { number, up: true })?;
        }
        return Ok(());
    }
    let down = word.strip_prefix("-");
    let number = Words::new(down.unwrap_or(word)).number_u16()?;
    let up = down.is_none();
    Ok(list.push(Port { number, up })?)
}

fn tables(alloc: Global, words: Words<'_>) -> Result<Update, CaseStop> {
    let mut list = Vec::new(alloc);
    for word in words.rest().split_whitespace() {
        list.push(name_of(word)?)?;
    }
    Ok(Update::Tables(Names::new(list)))
}

// An update of one port, one number of a table, one host or one link.
fn of_one(mut words: Words<'_>) -> Result<Update, CaseStop> {
    let verb = words.word();
    match verb {
        "up" | "down" => Ok(Update::Port {
            switch: words.number()?,
            port: words.number_u16()?,
            up: verb == "up",
        }),
        "set" => Ok(Update::Set {
            table: name_of(words.word())?,
            key: words.number()?,
            value: words.number()?,
        }),
        "unset" => Ok(Update::Unset {
            table: name_of(words.word())?,
            key: words.number()?,
        }),
        "host" => Ok(Update::Host {
            mac: words.number()?,
            place: words.place()?,
        }),
        "nohost" => Ok(Update::NoHost {
            mac: words.number()?,
        }),
        "link" => Ok(Update::Link {
            from: words.place()?,
            to: words.place()?,
        }),
        "nolink" => Ok(Update::NoLink {
            from: words.place()?,
        }),
        _ => Err(CaseStop::Unread),
    }
}

/// The name that a word is.
pub fn name_of(word: &str) -> Result<Name, CaseStop> {
    Name::new(word.as_bytes()).ok_or(CaseStop::Unread)
}

/// Appends what was said to an update: `ok`, or why it is refused.
pub fn push_answer(answer: Result<(), UpdateError>, out: &mut String) -> Result<(), CaseStop> {
    match answer {
        Ok(()) => Ok(out.push_str("ok")?),
        Err(UpdateError::NoMemory) => Err(CaseStop::NoMemory),
        Err(UpdateError::Refused(refused)) => Ok(write!(out, "{refused:?}")?),
    }
}
