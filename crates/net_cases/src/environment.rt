// An environment: updates, their refusals at the limits, and what it has afterwards.
use crate::places::push_links;
use crate::room::has_room;
use case_text::{CaseStop, Subject, Words};
use case_values::{cell_of, name_of, push_answer, push_flag, push_value, update_of};
use env_cells::{Env, Update, UpdateError};
use maple_base::{Cell, Name, NoMemory, Place, Value};
use std::alloc::Global;
use std::mem;

/// An environment, and a copy that was taken of it.
#[derive(Drop)]
pub struct Environment {
    alloc: Global,
    env: Env,
    copy: Env,
}

impl Subject for Environment {
    fn new(alloc: Global) -> Result<Environment, NoMemory> {
        Ok(Environment {
            alloc,
            env: Env::new(alloc),
            copy: Env::new(alloc),
        })
    }

    fn answer(&mut self, call: Words<'_>, out: &mut String) -> Result<(), CaseStop> {
        let mut words = call;
        match words.word() {
            "cell?" => tell_cell(&self.env, words, out),
            "knows?" => Ok(push_flag(self.env.knows(words.number()?), out)?),
            "links?" => Ok(push_links(self.env.links(), out)?),
            "many" => make_many(&mut self.env, words, out),
            "copy" => {
                self.copy = self.env.copy()?;
                Ok(out.push_str("ok")?)
            }
            "swap" => {
                mem::swap(&mut self.env, &mut self.copy);
                Ok(out.push_str("ok")?)
            }
            _ => make(self.alloc, &mut self.env, call, out),
        }
    }
}

// cell? CELL
fn tell_cell(env: &Env, mut words: Words<'_>, out: &mut String) -> Result<(), CaseStop> {
    let cell = cell_of(words.word())?;
    Ok(push_value(value_in(env, cell)?, out)?)
}

// An environment has no next hops.
fn value_in(env: &Env, cell: Cell) -> Result<Value, CaseStop> {
    match cell {
        Cell::Hop { .. } => Err(CaseStop::Unread),
        Cell::Host(mac) => Ok(env.value(Cell::Host(mac))),
        Cell::Up { switch, port } => Ok(env.value(Cell::Up { switch, port })),
        Cell::Num { table, key } => Ok(env.value(Cell::Num { table, key })),
    }
}

// many KIND COUNT: so many hosts, links from switch 1 to switch 2, or numbers of the table `t`, one
// after the other, up to the first that is refused.
fn make_many(env: &mut Env, mut words: Words<'_>, out: &mut String) -> Result<(), CaseStop> {
    let table = name_of("t")?;
    let kind = words.word();
    for key in 0..words.number()? {
        let made = make_one(env, &one_of_many(kind, table, key)?)?;
        if made.is_err() {
            return push_answer(made, out);
        }
    }
    Ok(out.push_str("ok")?)
}

fn one_of_many(kind: &str, table: Name, key: u64) -> Result<Update, CaseStop> {
    let port = key.saturating_add(1);
    match kind {
        "hosts" => Ok(Update::Host {
            mac: key,
            place: Place { switch: 1, port: 2 },
        }),
        "links" => Ok(Update::Link {
            from: Place { switch: 1, port },
            to: Place { switch: 2, port },
        }),
        "numbers" => Ok(Update::Set {
            table,
            key,
            value: 1,
        }),
        _ => Err(CaseStop::Unread),
    }
}

// An update.
fn make(alloc: Global, env: &mut Env, call: Words<'_>, out: &mut String) -> Result<(), CaseStop> {
    let update = update_of(alloc, call)?;
    push_answer(make_one(env, &update)?, out)
}

fn make_one(env: &mut Env, update: &Update) -> Result<Result<(), UpdateError>, CaseStop> {
    if has_room(update) {
        Ok(env.apply(update))
    } else {
        Err(CaseStop::Unread)
    }
}
