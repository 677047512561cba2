// What the machine does at what a connection gave.
ghost use Rattle.std.specs.Prelude.{IfOk, OnErr};
ghost use Rattle.switch_session.specs.Calls.{CanBeHeard};
ghost use Rattle.machine_steps.specs.declared.entry.Input.TheVariants.{Message as Whole};
ghost use Rattle.machine_steps.specs.Admitting.{IsHeard};
ghost use Rattle.core_machine.specs.Hearing.{LacksMemory};
ghost use Rattle.machine_steps.specs.Places.{IsAt};
ghost use Rattle.machine_steps.specs.Sound.{IsSound};
ghost use Rattle.machine_steps.specs.Steps.{HearsInput, HearsMessage};

use crate::joins::join;
use crate::packet_ins::hear_packet;
use crate::updates::change;
use env_cells::Update;
use machine_parts::ends::end_session;
use machine_parts::finding::{hear_in, switch_at};
use machine_parts::lists::retire;
use machine_parts::shared::index_of;
use machine_parts::{Parts, close, make_room, tell_error, tell_last_error, tell_ready};
use machine_steps::{Input, Reply};
use maple_base::NoMemory;
use of10_codec::Message;
use report_text::Line;
use switch_session::{End, Heard};

/// A message on a connection, or bytes that are none.
pub fn hear(parts: &mut Parts, connection: u32, input: &Input) -> Reply
    requires sound { IsSound parts.old }
    requires heard { IsHeard input.now }
    ensures { HearsInput connection input.now parts.old result parts.new }
{
    match input {
        Input::Message(message) => hear_message(parts, connection, message),
        Input::Bad { place, bad } => {
            let end = End::Bad {
                place: *place,
                bad: *bad,
            };
            end_session(parts, connection, end)
        }
    }
}

// A message on a connection.
fn hear_message(parts: &mut Parts, connection: u32, message: &Message) -> Reply
    requires sound { IsSound parts.old }
    requires heard { CanBeHeard message.now }
    ensures { HearsInput connection (Whole message.now) parts.old result parts.new }
{
    let Some(at) = index_of(parts, connection) else {
        return Reply::Done;
    };
    match hear_at(parts, connection, at, message) {
        Ok(reply) => reply,
        Err(NoMemory) => Reply::NoMemory,
    }
}

// A message on the open session of a connection, which stands at this place.
fn hear_at(
    parts: &mut Parts,
    connection: u32,
    at: usize,
    message: &Message,
) -> Result<Reply, NoMemory>
    requires sound { IsSound parts.old }
    requires heard { CanBeHeard message.now }
    requires at { IsAt connection at parts.old }
    ensures hears { IfOk result (λ reply. HearsMessage connection message.now parts.old reply parts.new) }
    ensures lacks { OnErr result (LacksMemory connection message.now parts.old parts.new) }
{
    let heard = hear_in(&mut parts.sessions, at, message)?;
    let switch = switch_at(&parts.sessions, at);
    match heard {
        Heard::Passed => Ok(Reply::Done),
        Heard::Features { dpid, ports } => Ok(join(parts, at, dpid, ports)),
        Heard::PacketIn {
            buffer,
            in_port,
            frame,
        } => hear_packet(parts, connection, switch, buffer, in_port, frame),
        Heard::Port { port, up } => Ok(change(parts, &Update::Port { switch, port, up })),
        Heard::Acknowledged { ready } => {
            tell_ready(&mut parts.lines, ready, connection, switch);
            Ok(Reply::Done)
        }
        Heard::Refused { kind, code, quiet } => {
            if quiet {
                let retired = retire(&mut parts.learned, switch);
                tell_error(&mut parts.lines, connection, kind, code);
                parts.lines.push_reserved(Line::Quiet { switch, retired });
                return Ok(Reply::Done);
            }
            make_room(&mut parts.lines, &parts.sessions, 1)?;
            tell_error(&mut parts.lines, connection, kind, code);
            Ok(Reply::Done)
        }
        Heard::Ended(end) => {
            close(&mut parts.jobs, &mut parts.lines, connection, end);
            tell_last_error(&mut parts.lines, connection, &message.body);
            Ok(Reply::Ended(end))
        }
    }
}
