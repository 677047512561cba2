// Events as text.
use crate::tokens::{push_token, push_word};
use policy_grammar::Event;
use std::alloc::AllocError;

/// Appends events, or `nothing`, where there are none.
pub fn push_events(events: &[Event], out: &mut String) -> Result<(), AllocError> {
    if events.is_empty() {
        return out.push_str("nothing");
    }
    let mut ahead = "";
    for event in events {
        out.push_str(ahead)?;
        push_event(event, out)?;
        ahead = "; ";
    }
    Ok(())
}

fn push_event(event: &Event, out: &mut String) -> Result<(), AllocError> {
    match event {
        Event::Table(name) => push_word("Table ", name.text(), out),
        Event::Name(name) => push_word("Name ", name.text(), out),
        Event::Single(token) => {
            out.push_str("Single ")?;
            push_token(token, out)
        }
        _ => write!(out, "{event:?}"),
    }
}
