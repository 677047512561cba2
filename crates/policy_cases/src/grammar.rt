// What readers take, and what they read; the stacks of which they are made.
use crate::events::push_events;
use crate::texts::text_in;
use case_text::{CaseStop, Words};
use maple_base::NoMemory;
use policy_grammar::{Event, Reader, Stack};
use policy_tokens::{PlacedToken, read_tokens};
use std::alloc::{AllocError, Global};

/// wrong TEXT: the number of tokens ahead of the first one with which no policy can go on; that of all
/// tokens where the end is wrong; `none`, where the tokens are a policy's.
pub fn first_wrong(alloc: Global, words: Words<'_>, out: &mut String) -> Result<(), CaseStop> {
    let text = text_in(alloc, words)?;
    let Ok(tokens) = read_tokens(alloc, &text) else {
        return Err(CaseStop::Unread);
    };
    match wrong_among(alloc, tokens.items())? {
        Some(ahead) => Ok(write!(out, "{ahead}")?),
        None => Ok(out.push_str("none")?),
    }
}

fn wrong_among(alloc: Global, tokens: &[PlacedToken]) -> Result<Option<usize>, NoMemory> {
    let mut reader = Reader::new(alloc);
    for (ahead, placed) in tokens.iter().enumerate() {
        let Some(next) = reader.step(&placed.token)? else {
            return Ok(Some(ahead));
        };
        reader = next;
    }
    if reader.is_at_end() {
        Ok(None)
    } else {
        Ok(Some(tokens.len()))
    }
}

/// events TEXT: what is read of a text, part by part.
pub fn events(alloc: Global, words: Words<'_>, out: &mut String) -> Result<(), CaseStop> {
    let text = text_in(alloc, words)?;
    let Ok(tokens) = read_tokens(alloc, &text) else {
        return Err(CaseStop::Unread);
    };
    let events = emitted(alloc, tokens.items())?;
    Ok(push_events(&events, out)?)
}

// What a reader adds, token by token.
fn emitted(alloc: Global, tokens: &[PlacedToken]) -> Result<Vec<Event>, NoMemory> {
    let mut reader = Reader::new(alloc);
    let mut events = Vec::new(alloc);
    for placed in tokens {
        reader.emit(&placed.token, &mut events)?;
        let Some(next) = reader.step(&placed.token)? else {
            return Ok(events);
        };
        reader = next;
    }
    Ok(events)
}

/// stack TAKEN NUMBER ..: what is on top of a stack of these numbers, and below that, once so many were
/// taken away again.
pub fn stack(alloc: Global, mut words: Words<'_>, out: &mut String) -> Result<(), CaseStop> {
    let taken = words.number()?;
    let mut stack = Stack::new(alloc);
    for number in &words.numbers(alloc)? {
        stack.push(*number)?;
    }
    for _ in 0..taken {
        stack.pop();
    }
    push_thing(stack.top(), out)?;
    out.push_str(" ")?;
    Ok(push_thing(stack.below(1), out)?)
}

fn push_thing(thing: Option<u64>, out: &mut String) -> Result<(), AllocError> {
    match thing {
        Some(number) => write!(out, "{number}"),
        None => out.push_str("none"),
    }
}
