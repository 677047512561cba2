// What a driver did, as lines.
ghost use Rattle.std.specs.Prelude.{◌≡◌, option_to_list};
ghost use Rattle.machine_steps.specs.Steps.{note_lines, policy_lines, script_lines, seen_lines};
ghost use Rattle.maple_base.specs.PolicyFaults.{fault_numbered};
ghost use Rattle.report_text.specs.ScriptRefusals.{refusal_numbered};

use machine_steps::Note;
use maple_base::{PolicyFault, Seen};
use report_text::{Line, ScriptRefusal};

/// The line of a note, if it has one.
pub fn line_of(note: &Note) -> Option<Line>
    ensures { option_to_list result ≡ note_lines note.now }
{
    let line = match note {
        Note::Offered { .. } | Note::Turned { .. } => return None,
        Note::Seen {
            device,
            port,
            seen,
            ..
        } => return seen_line(*device, *port, seen),
        Note::TurnedAll { device, turns } => Line::Turned {
            device: *device,
            turns: *turns,
        },
        Note::Settled(turns) => Line::Settled { turns: *turns },
        Note::Unsettled(turns) => Line::Unsettled { turns: *turns },
        Note::Absent(device) => Line::Absent { device: *device },
        Note::GoneAlready(device) => Line::Gone { device: *device },
        Note::Present(device) => Line::Present { device: *device },
        Note::PolicyRefused { line, column, kind } => return policy_line(*line, *column, *kind),
        Note::LineRefused { line, kind } => return script_line(*line, *kind),
    };
    Some(line)
}

fn seen_line(device: u32, port: u16, seen: &Seen) -> Option<Line>
    ensures { option_to_list result ≡ seen_lines device port seen.now }
{
    match seen {
        Seen::Hit(actions) => Some(Line::Hit {
            device,
            port,
            actions: *actions,
        }),
        Seen::Miss { reason } => Some(Line::Miss {
            device,
            port,
            reason: *reason,
        }),
        Seen::Failed | Seen::NoMemory => None,
    }
}

fn policy_line(line: u32, column: u32, kind: u8) -> Option<Line>
    ensures { option_to_list result ≡ policy_lines line column (fault_numbered kind) }
{
    match PolicyFault::numbered(kind) {
        None => None,
        Some(fault) => Some(Line::RefusedPolicy {
            line,
            column,
            kind: fault,
        }),
    }
}

fn script_line(line: u32, kind: u8) -> Option<Line>
    ensures { option_to_list result ≡ script_lines line (refusal_numbered kind) }
{
    match ScriptRefusal::numbered(kind) {
        None => None,
        Some(refusal) => Some(Line::RefusedScript {
            line,
            kind: refusal,
        }),
    }
}
