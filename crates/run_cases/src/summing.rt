// The summary that `gen` writes.
use crate::outcome::Outcome;
use case_text::{Words, push_text};
use std::alloc::AllocError;

// The lines of a summary ahead of its end, in their order.
const NAMES: [&str; 7] = [
    "packets",
    "hits",
    "misses",
    "states",
    "learned",
    "known",
    "unlearned",
];

/// Appends the status, and of the summary the packets and the states. Where the text is no summary, or
/// its sums don't agree, all of it.
pub fn push_sums(came: &Outcome, out: &mut String) -> Result<(), AllocError> {
    let status = came.status;
    match sums_of(came.text()) {
        Some((packets, states)) => write!(out, "{status} packets {packets} states {states}"),
        None => {
            write!(out, "{status} with ")?;
            push_text(came.text().as_bytes(), out)
        }
    }
}

// The packets and the states of a summary of eight lines, in which each packet is a hit or a miss, and each
// miss has one answer.
fn sums_of(text: &str) -> Option<(u64, u64)> {
    let mut counts = [0u64; 7];
    let mut lines = 0usize;
    for line in text.lines() {
        match (NAMES.get(lines), counts.get_mut(lines)) {
            (Some(name), Some(count)) => *count = count_in(line, name)?,
            _ => {}
        }
        lines = lines.saturating_add(1);
    }
    let [packets, hits, misses, states, learned, known, unlearned] = counts;
    let come = packets == hits.checked_add(misses)?;
    let answers = learned.checked_add(known)?.checked_add(unlearned)?;
    if lines == 8 && text.ends_with("\nend\n") && come && answers == misses {
        Some((packets, states))
    } else {
        None
    }
}

// The number of a line that is a name and a number.
fn count_in(line: &str, name: &str) -> Option<u64> {
    let number = line.strip_prefix(name)?.strip_prefix(' ')?;
    let mut words = Words::new(number);
    let count = words.number().ok()?;
    if words.is_empty() { Some(count) } else { None }
}
