// A connection is opened.
ghost use Rattle.std.specs.Prelude.{◌≡◌, IfOk, OnErr};
ghost use Rattle.machine_steps.specs.Sound.{IsSound};
ghost use Rattle.machine_steps.specs.Steps.{Opens};

use crate::connection::Connection;
use crate::finding::open_count;
use crate::parts::Parts;
use crate::room::{MOST_DUE, make_room};
use machine_steps::Reply;
use maple_base::NoMemory;
use report_text::{Line, Why};
use switch_session::{End, Session};

// As many sessions may be open at a time.
const MOST_SESSIONS: usize = 64;

/// Opens a session on a connection that wasn't opened before, unless as many are open as may be.
pub fn open_session(parts: &mut Parts, connection: u32) -> Reply
    requires sound { IsSound parts.old }
    ensures { Opens connection parts.old result parts.new }
{
    match try_open(parts, connection) {
        Ok(reply) => reply,
        Err(NoMemory) => Reply::NoMemory,
    }
}

fn try_open(parts: &mut Parts, connection: u32) -> Result<Reply, NoMemory>
    requires sound { IsSound parts.old }
    ensures opened { IfOk result (λ reply. Opens connection parts.old reply parts.new) }
    ensures kept { OnErr result (parts.new ≡ parts.old) }
{
    if parts.opened.has(connection) {
        return Ok(Reply::Done);
    }
    if open_count(&parts.sessions) >= MOST_SESSIONS {
        make_room(&mut parts.lines, &parts.sessions, 1)?;
        parts.opened.insert(connection)?;
        parts.lines.push_reserved(Line::Closed {
            device: connection,
            why: Why::Full,
        });
        return Ok(Reply::Ended(End::Full));
    }
    parts.sessions.reserve(1)?;
    make_room(&mut parts.lines, &parts.sessions, 1 + MOST_DUE)?;
    let session = Session::open(parts.alloc, connection, parts.settings.capacity)?;
    parts.opened.insert(connection)?;
    parts
        .sessions
        .push_reserved(Connection { session, aim: None });
    parts.lines.push_reserved(Line::Open { device: connection });
    Ok(Reply::Done)
}
