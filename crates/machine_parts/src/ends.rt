// A session ends.
ghost use Rattle.machine_steps.specs.Sound.{IsSound};
ghost use Rattle.machine_steps.specs.Steps.{EndsSession};

use crate::end_lines::close;
use crate::parts::Parts;
use crate::shared::index_of;
use machine_steps::Reply;
use switch_session::End;

/// Ends the open session of a connection, if there is one. It takes no memory.
pub fn end_session(parts: &mut Parts, connection: u32, end: End) -> Reply
    requires sound { IsSound parts.old }
    ensures { EndsSession connection end parts.old result parts.new }
{
    let Some(at) = index_of(parts, connection) else {
        return Reply::Done;
    };
    parts.sessions[at].session.end();
    close(&mut parts.jobs, &mut parts.lines, connection, end);
    Reply::Ended(end)
}
