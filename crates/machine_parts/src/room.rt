// Room for lines of the report. Lines that take no memory are pushed into room that was made ahead. `make_room` takes the
// fields and not the whole, so that its caller sees the room.
ghost use Rattle.std.specs.Prelude.{◌≡◌, ◌+◌, ◌≤◌, map, vec_len, vec_capacity, OnOk};
ghost use Rattle.machine_parts.specs.Sessions.{session_of, due_all};

use crate::connection::Connection;
use maple_base::NoMemory;
use report_text::Line;

/// The most lines that an open session may still bring without memory: ready, error and quiet; error
/// and closed.
pub const MOST_DUE: usize = 5;

/// Makes room for so many lines, besides those that are due.
///
/// # Errors
///
/// `NoMemory`. The room may have grown then.
pub fn make_room(
    lines: &mut Vec<Line>,
    sessions: &[Connection],
    more: usize,
) -> Result<(), NoMemory>
    ensures items { lines.new.items ≡ lines.old.items }
    ensures len { vec_len lines.new ≡ vec_len lines.old }
    ensures capacity { vec_capacity lines.old ≤ vec_capacity lines.new }
    ensures room { OnOk result (vec_len lines.new + (more + due_all (map session_of sessions.now)) ≤ vec_capacity lines.new) }
{
    let due = MOST_DUE * sessions.len();
    let Some(room) = due.checked_add(more) else {
        return Err(NoMemory);
    };
    lines.reserve(room)?;
    Ok(())
}
