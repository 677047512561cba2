// What is taken out: messages, and the lines of the report.
ghost use Rattle.std.specs.Prelude.{◌≡◌, ◌⊎◌, [], None, MatchOption, IfOk, OnErr};
ghost use Rattle.std.specs.List.{flat_map};
ghost use Rattle.report_text.specs.Report.{spelled};
ghost use Rattle.machine_steps.specs.declared.reply.Reply.TheVariants.{Lines};
ghost use Rattle.machine_parts.specs.Finding.{IsKeptAt};
ghost use Rattle.machine_steps.specs.Sound.{IsSound};
ghost use Rattle.machine_steps.specs.Steps.{Lacks, TakesMessages, kept_at};

use crate::finding::{is_open, kept_place, likely_place, remove};
use crate::parts::Parts;
use crate::text::written;
use machine_steps::Reply;
use maple_base::{Bytes, NoMemory};

/// Takes the messages for a connection. Its session goes with them where it ended.
pub fn take_out(parts: &mut Parts, connection: u32) -> Reply
    requires sound { IsSound parts.old }
    ensures { TakesMessages connection parts.old result parts.new }
{
    match try_take_out(parts, connection) {
        Ok(reply) => reply,
        Err(NoMemory) => Reply::NoMemory,
    }
}

fn try_take_out(parts: &mut Parts, connection: u32) -> Result<Reply, NoMemory>
    requires sound { IsSound parts.old }
    ensures taken { IfOk result (λ reply. TakesMessages connection parts.old reply parts.new) }
    ensures kept { OnErr result (parts.new ≡ parts.old) }
{
    let Some(at) = kept_index(parts, connection) else {
        return Ok(Reply::Out(Bytes::new(Vec::new(parts.alloc))));
    };
    let open = is_open(&parts.sessions[at].session);
    let bytes = parts.sessions[at].session.take_out()?;
    if open {
        return Ok(Reply::Out(bytes));
    }
    remove(&mut parts.sessions, at);
    Ok(Reply::Out(bytes))
}

// The place of the session of a connection, also of one that ended. Connections mostly come by increasing numbers: so it is
// looked for from the place that it would have if no number were missing, and only else among all.
fn kept_index(parts: &Parts, connection: u32) -> Option<usize>
    requires sound { IsSound parts.now }
    ensures { MatchOption result (kept_at connection parts.now ≡ None) (λ at. IsKeptAt connection at parts.now) }
{
    match likely_place(&parts.sessions, connection) {
        Some(at) => Some(at),
        None => kept_place(&parts.sessions, connection),
    }
}

/// Takes the lines of the report.
pub fn take_report(parts: &mut Parts) -> Reply
    ensures { ((result ≡ Lines (flat_map spelled parts.old.lines)) × (parts.new ≡ record parts.old { lines = [] })) ⊎ Lacks parts.old result parts.new }
{
    match written(parts.alloc, &parts.lines) {
        Ok(text) => {
            parts.lines.clear();
            Reply::Lines(text)
        }
        Err(NoMemory) => Reply::NoMemory,
    }
}
