// What messages bring, as lines.
ghost use Rattle.std.specs.Prelude.{◌≡◌, ◌+◌, ◌<◌, ◌≤◌, ◌++◌, ◌∷◌, [], vec_len, vec_capacity};
ghost use Rattle.report_text.specs.declared.line.Line.TheVariants as told;
ghost use Rattle.machine_steps.specs.Steps.{error_lines};
ghost use Rattle.machine_parts.specs.Ready.{ready_lines, ready_count};

use of10_codec::Body;
use report_text::Line;

/// Tells the line of a session that is ready now into the room for it.
pub fn tell_ready(lines: &mut Vec<Line>, ready: bool, connection: u32, switch: u64)
    requires room { vec_len lines.old + ready_count ready ≤ vec_capacity lines.old }
    ensures lines { lines.new.items ≡ lines.old.items ++ ready_lines ready connection switch }
    ensures len { vec_len lines.new ≡ vec_len lines.old + ready_count ready }
    ensures capacity { vec_capacity lines.new ≡ vec_capacity lines.old }
{
    if ready {
        lines.push_reserved(Line::Ready {
            device: connection,
            switch,
        });
    }
}

/// Tells the line of an ERROR into the room for it.
pub fn tell_error(lines: &mut Vec<Line>, connection: u32, kind: u16, code: u16)
    requires room { vec_len lines.old < vec_capacity lines.old }
    ensures lines { lines.new.items ≡ lines.old.items ++ told.Error connection kind code ∷ [] }
    ensures len { vec_len lines.new ≡ vec_len lines.old + 1 }
    ensures capacity { vec_capacity lines.new ≡ vec_capacity lines.old }
{
    lines.push_reserved(Line::Error {
        device: connection,
        kind,
        code,
    });
}

/// Tells the line of the message by which a session ended, where it is an ERROR.
pub fn tell_last_error(lines: &mut Vec<Line>, connection: u32, message: &Body)
    requires room { vec_len lines.old < vec_capacity lines.old }
    ensures lines { lines.new.items ≡ lines.old.items ++ error_lines connection message.now }
    ensures len { vec_len lines.new ≤ vec_len lines.old + 1 }
    ensures capacity { vec_capacity lines.new ≡ vec_capacity lines.old }
{
    if let Body::Error { kind, code, .. } = message {
        tell_error(lines, connection, *kind, *code);
    }
}
