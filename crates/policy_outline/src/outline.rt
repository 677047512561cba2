// Reads the outline of a policy.
ghost use Rattle.std.specs.Prelude.{◌≡◌, ◌≤◌, None, length, map, OnOk, IfOk, IfErr};
ghost use Rattle.maple_base.specs.PolicyLimits.{most_bytes};
ghost use Rattle.policy_grammar.specs.Automaton.{start};
ghost use Rattle.policy_grammar.specs.Events.{trace};
ghost use Rattle.policy_grammar.specs.Reading.{Runs, plain, ahead_of};
ghost use Rattle.policy_outline.specs.Bounds.{most_counted, Within};
ghost use Rattle.policy_outline.specs.Limits.{IsOutline, IsErrorOf};
ghost use Rattle.policy_outline.specs.Outlining.{counts_of, Advances, AreCountable};

use crate::OutlineError;
use crate::count::Count;
use crate::counter::Counter;
use crate::scan::scan;
use maple_base::{NoMemory, PolicyFault};
use policy_grammar::{Event, Reader};
use policy_lang::Node;
use policy_tokens::{PlacedToken, Token};
use std::alloc::Global;

/// What is read of a policy's text.
#[derive(Drop)]
pub struct Outline {
    /// Its parts, in the order of the text.
    pub events: Vec<Event>,
    /// Its nodes, in the order of the text.
    pub nodes: Vec<Node>,
}

// What is read and counted of tokens, up to the first with which no policy can go on.
#[derive(Drop)]
struct Reading {
    events: Vec<Event>,
    counts: Vec<Count>,
    wrong: Option<usize>,
}

// The reader behind a token, where one like it may stand here. What it adds is added and counted.
fn read(
    reader: Reader,
    counter: &mut Counter,
    events: &mut Vec<Event>,
    token: &Token,
) -> Result<Option<Reader>, NoMemory>
    requires within { Within (length events.old.items) counter.old }
    requires few { length counter.old.counts ≤ most_bytes }
    ensures read { IfOk result (λ next. Advances next token.now reader events.old.items events.new.items counter.old counter.new) }
    ensures kept { IfOk result (λ next. next ≡ None → counter.new ≡ counter.old) }
{
    let from = events.len();
    reader.emit(token, events)?;
    let Some(next) = reader.step(token)? else {
        return Ok(None);
    };
    counter.count_all(events, from)?;
    counter.pass()?;
    Ok(Some(next))
}

fn read_tokens(alloc: Global, tokens: &[PlacedToken]) -> Result<Reading, NoMemory>
    requires few { length tokens.now ≤ most_bytes }
    ensures run { IfOk result (λ reading. Runs (plain tokens.now) reading.wrong) }
    ensures events { IfOk result (λ reading. reading.wrong ≡ None → reading.events.items ≡ trace start (plain tokens.now)) }
    ensures counts { IfOk result (λ reading. reading.counts.items ≡ counts_of (ahead_of reading.wrong (plain tokens.now))) }
    ensures few { IfOk result (λ reading. length reading.counts.items ≤ most_bytes) }
    ensures countable { IfOk result (λ reading. AreCountable reading.counts.items) }
{
    let mut reader = Reader::new(alloc);
    let mut counter = Counter::new(alloc);
    let mut events = Vec::new(alloc);
    for (index, placed) in tokens.iter().enumerate() {
        let Some(next) = read(reader, &mut counter, &mut events, &placed.token)? else {
            return Ok(Reading {
                events,
                counts: counter.into_counts(),
                wrong: Some(index),
            });
        };
        reader = next;
    }
    let wrong = if reader.is_at_end() {
        None
    } else {
        Some(tokens.len())
    };
    Ok(Reading {
        events,
        counts: counter.into_counts(),
        wrong,
    })
}

/// What is read of the tokens of a policy's text, part by part, and its nodes.
///
/// # Errors
///
/// The first fault: the first token with which no policy can go on, or, where it comes earlier, the
/// first token at which a limit is passed. A node is more than 32 deep, counting the statements and
/// expressions around it; a parenthesis opens inside 64 open ones; the 4,097th node begins; the 17th
/// table is named. At one token nesting comes ahead of nodes, and nodes ahead of tables.
pub fn read_outline(alloc: Global, tokens: &[PlacedToken]) -> Result<Outline, OutlineError>
    requires few { length tokens.now ≤ most_bytes }
    ensures outline { IfOk result (λ outline. IsOutline (map (λ p. p.token) tokens.now) outline.events.items outline.nodes.items) }
    ensures fault { IfErr result (IsErrorOf (map (λ p. p.token) tokens.now)) }
{
    let reading = read_tokens(alloc, tokens)?;
    let nodes = scan(alloc, &reading.counts)?;
    match reading.wrong {
        Some(token) => Err(OutlineError::Fault {
            token,
            kind: PolicyFault::Syntax,
        }),
        None => Ok(Outline {
            events: reading.events,
            nodes,
        }),
    }
}
