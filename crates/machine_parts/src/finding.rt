// The session of a connection: where it stands, and what it hears.
ghost use Rattle.std.specs.Prelude.{◌≡◌, ◌<◌, length, filter, map, position, remove, vec_len, IfSome, Some};
ghost use Rattle.std.specs.List.{AllByRecursion, list_any, slice_get};
ghost use Rattle.switch_session.specs.Calls.{CanBeHeard};
ghost use Rattle.machine_parts.specs.declared.connection.Connection.{Connection as ConnectionData};
ghost use Rattle.machine_parts.specs.Finding.{is_kept, serves};
ghost use Rattle.machine_parts.specs.Hearing.{HearsAt, IsIdle};
ghost use Rattle.machine_parts.specs.Sessions.{session_of};
ghost use Rattle.machine_steps.specs.Machine.{is_of, is_open};
ghost use Rattle.machine_steps.specs.Steps.{switch_of};

use crate::connection::Connection;
use maple_base::NoMemory;
use of10_codec::Message;
use switch_session::{Heard, Phase, Session};

/// The first place of an open session of a connection.
pub fn place_of(sessions: &[Connection], connection: u32) -> Option<usize>
    ensures { result ≡ position (λ (c : ConnectionData). is_of connection (session_of c)) sessions.now }
{
    sessions.iter().position(|c| is_of(connection, &c.session))
}

/// Whether this is an open session of a connection.
pub fn is_of(connection: u32, session: &Session) -> bool
    ensures { result ≡ is_of connection session.now }
{
    session.connection() == connection && is_open(session)
}

/// Whether the session hasn't ended.
pub fn is_open(session: &Session) -> bool
    ensures { result ≡ is_open session.now }
{
    !matches!(session.phase(), Phase::Ended)
}

/// The first place of a session of a connection.
pub fn kept_place(sessions: &[Connection], connection: u32) -> Option<usize>
    ensures { result ≡ position (λ (c : ConnectionData). is_kept connection (session_of c)) sessions.now }
{
    sessions
        .iter()
        .position(|c| c.session.connection() == connection)
}

/// A place of a session of a connection. Where the numbers increase and this one is among them it is found, from the place that
/// it has if none of the numbers between is missing.
pub fn likely_place(sessions: &[Connection], connection: u32) -> Option<usize>
    ensures { IfSome result (λ at. (c : ConnectionData) × (slice_get sessions.now at ≡ Some c) × ((session_of c).connection ≡ connection)) }
{
    let first = sessions.first()?.session.connection();
    let ahead = connection.checked_sub(first)? as usize;
    let up_to = sessions.get(..=ahead).unwrap_or(sessions);
    let at = up_to
        .iter()
        .rposition(|c| c.session.connection() <= connection)?;
    let there = sessions.get(at)?;
    if there.session.connection() == connection {
        return Some(at);
    }
    None
}

/// Drops the session at a place.
pub fn remove(sessions: &mut Vec<Connection>, at: usize)
    requires within { at < vec_len sessions.old }
    ensures { sessions.new.items ≡ remove sessions.old.items at }
{
    let _gone = sessions.remove(at);
}

/// How many sessions are open.
pub fn open_count(sessions: &[Connection]) -> usize
    ensures { result ≡ length (filter (λ (c : ConnectionData). is_open (session_of c)) sessions.now) }
{
    sessions.iter().filter(|c| is_open(&c.session)).count()
}

/// The session at a place hears a message.
pub fn hear_in(
    sessions: &mut Vec<Connection>,
    at: usize,
    message: &Message,
) -> Result<Heard, NoMemory>
    requires heard { CanBeHeard message.now }
    requires at { at < vec_len sessions.old }
    ensures heard { HearsAt at message.now (map session_of sessions.old.items) result (map session_of sessions.new.items) }
    ensures idle { AllByRecursion IsIdle sessions.old.items → AllByRecursion IsIdle sessions.new.items }
{
    let entry = &mut sessions[at];
    entry.session.hear(message)
}

/// The number of the switch of the session at a place, or 0.
pub fn switch_at(sessions: &[Connection], at: usize) -> u64
    requires at { at < length sessions.now }
    ensures { IfSome (slice_get (map session_of sessions.now) at) (λ s. result ≡ switch_of s) }
{
    switch_of(&sessions[at].session)
}

fn switch_of(session: &Session) -> u64
    ensures { result ≡ switch_of session.now }
{
    session.dpid().unwrap_or(0)
}

/// Whether a live session has this switch.
pub fn any_serves(sessions: &[Connection], dpid: u64) -> bool
    ensures { result ≡ list_any (serves dpid) (map session_of sessions.now) }
{
    sessions.iter().any(|connection| serves(connection, dpid))
}

fn serves(connection: &Connection, dpid: u64) -> bool
    ensures { result ≡ serves dpid connection.now.session }
{
    let session = &connection.session;
    if session.phase() != Phase::Live {
        return false;
    }
    match session.dpid() {
        Some(switch) => switch == dpid,
        None => false,
    }
}
