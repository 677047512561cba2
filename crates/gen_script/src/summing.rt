// The summary of a report.
ghost use Rattle.std.specs.Prelude.{◌≡◌, ◌++◌, OnOk, OnErr};
ghost use Rattle.std.specs.List.{flat_map};
ghost use Rattle.gen_script.specs.Summary.{number_of, summary_line, summary_of};

use crate::pieces::push_number;
use crate::tally::Tally;
use maple_base::NoMemory;
use maple_text::cut;
use std::alloc::AllocError;

// The lines of the summary, in their order.
const TALLIES: [Tally; 7] = [
    Tally::Packets,
    Tally::Hits,
    Tally::Misses,
    Tally::States,
    Tally::Learned,
    Tally::Known,
    Tally::Unlearned,
];

/// Appends the summary of a report: how many packets came to devices, how many of these hit and
/// missed, how many states were made, and what was learned from the packets that were answered.
///
/// # Errors
///
/// Where memory runs out. Then `out` has what it had.
pub fn summary(report: &[u8], out: &mut Vec<u8>) -> Result<(), NoMemory>
    ensures summary { OnOk result (out.new.items ≡ out.old.items ++ summary_of report.now) }
    ensures kept { OnErr result (out.new.items ≡ out.old.items) }
{
    // The text is put together apart, so that `out` changes only once it is whole.
    let mut text = Vec::new(*out.allocator());
    push_summary(&mut text, report)?;
    out.extend_from_slice(&text)?;
    Ok(())
}

#[tactic(auto, unfolding(crate::specs::Summary::summary_of))]
fn push_summary(text: &mut Vec<u8>, report: &[u8]) -> Result<(), AllocError>
    ensures { OnOk result (text.new.items ≡ text.old.items ++ summary_of report.now) }
{
    push_tallies(text, report, &TALLIES)?;
    text.extend_from_slice(b"end\n")
}

fn push_tallies(text: &mut Vec<u8>, report: &[u8], tallies: &[Tally]) -> Result<(), AllocError>
    ensures { OnOk result (text.new.items ≡ text.old.items ++ flat_map (summary_line report.now) tallies.now) }
{
    for tally in tallies {
        push_tally(text, report, *tally)?;
    }
    Ok(())
}

#[tactic(auto, unfolding(crate::specs::Summary::summary_line))]
fn push_tally(text: &mut Vec<u8>, report: &[u8], tally: Tally) -> Result<(), AllocError>
    ensures { OnOk result (text.new.items ≡ text.old.items ++ summary_line report.now tally) }
{
    text.extend_from_slice(tally.name())?;
    push_number(text, b" ", number_of(report, tally))?;
    text.extend_from_slice(b"\n")
}

// How many lines of a report are of a kind.
fn number_of(report: &[u8], tally: Tally) -> u64
    ensures { result ≡ number_of report.now tally }
{
    let mut number = 0;
    let mut rest = Some(report);
    while let Some(text) = rest {
        let (line, behind) = cut(b'\n', text);
        if tally.counts(line) {
            number += 1;
        }
        rest = behind;
    }
    number
}
