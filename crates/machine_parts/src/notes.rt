// What a driver did, told.
ghost use Rattle.std.specs.Prelude.{◌≡◌, ◌⊎◌};
ghost use Rattle.machine_steps.specs.declared.reply.Reply.TheVariants.{Done};
ghost use Rattle.machine_steps.specs.Machine.{tells_all};
ghost use Rattle.machine_steps.specs.Steps.{Lacks, note_lines};

use crate::note_lines::line_of;
use crate::parts::Parts;
use crate::room::make_room;
use machine_steps::{Note, Reply};
use maple_base::NoMemory;

/// Tells the line of a note, if it has one.
pub fn tell_note(parts: &mut Parts, note: &Note) -> Reply
    ensures { ((result ≡ Done) × (parts.new ≡ tells_all (note_lines note.now) parts.old)) ⊎ Lacks parts.old result parts.new }
{
    let Some(line) = line_of(note) else {
        return Reply::Done;
    };
    match make_room(&mut parts.lines, &parts.sessions, 1) {
        Ok(()) => {
            parts.lines.push_reserved(line);
            Reply::Done
        }
        Err(NoMemory) => Reply::NoMemory,
    }
}
