// What several entries share.
ghost use Rattle.std.specs.Prelude.{◌≡◌, ◌+◌, None, IfOk, MatchOption, OnErr, OnOk};
ghost use Rattle.machine_steps.specs.Machine.{policy_number, session_at, tells};
ghost use Rattle.machine_steps.specs.Places.{IsAt};

use crate::finding::place_of;
use crate::parts::Parts;
use crate::room::make_room;
use maple_base::NoMemory;
use report_text::Line;

/// The place of the open session of a connection.
pub fn index_of(parts: &Parts, connection: u32) -> Option<usize>
    ensures { MatchOption result (session_at connection parts.now ≡ None) (λ at. IsAt connection at parts.now) }
{
    place_of(&parts.sessions, connection)
}

/// The number that follows a count.
///
/// # Errors
///
/// `NoMemory` past 64 bits.
pub fn next_number(count: u64) -> Result<u64, NoMemory>
    ensures { IfOk result (λ number. number ≡ count + 1) }
{
    match count.checked_add(1) {
        Some(number) => Ok(number),
        None => Err(NoMemory),
    }
}

/// The number of the policy in force.
pub fn policy_number(parts: &Parts) -> u64
    ensures { result ≡ policy_number parts.now }
{
    parts.earlier.len() as u64
}

/// Tells a line.
///
/// # Errors
///
/// `NoMemory`. Nothing changes then.
pub fn tell(parts: &mut Parts, line: Line) -> Result<(), NoMemory>
    ensures told { OnOk result (parts.new ≡ tells line parts.old) }
    ensures kept { OnErr result (parts.new ≡ parts.old) }
{
    make_room(&mut parts.lines, &parts.sessions, 1)?;
    parts.lines.push_reserved(line);
    Ok(())
}
