// An update makes the next state.
ghost use Rattle.std.specs.Prelude.{◌≡◌, OnErr, IfOk, Err, Some};
ghost use Rattle.maple_base.specs.declared.update_refused.UpdateRefused.{UpdateRefused};
ghost use Rattle.env_cells.specs.declared.updates.UpdateError.TheVariants.{Refused};
ghost use Rattle.env_cells.specs.Refusals.{refusal_of, HasRoomForTables};
ghost use Rattle.core_machine.specs.Following.{IsNext, ReachesThen};
ghost use Rattle.core_machine.specs.Reaching.{ReachesBy};
ghost use Rattle.machine_steps.specs.Places.{CanReach};
ghost use Rattle.machine_steps.specs.Steps.{Updates};

use crate::advancing::advance;
use crate::next::{Next, follow, lines_needed, make_room_for_job};
use crate::states::{enter, make_room_for_state, past_of};
use env_cells::{Update, UpdateError};
use machine_parts::Parts;
use machine_parts::shared::tell;
use machine_steps::Reply;
use maple_base::NoMemory;
use report_text::Line;

/// Makes an update, where it is accepted: the next state is reached.
///
/// # Errors
///
/// Why it is refused, or `NoMemory`. Nothing changes then.
pub fn reach(parts: &mut Parts, update: &Update) -> Result<Reply, UpdateError>
    requires can { CanReach parts.old }
    requires tables { HasRoomForTables update.now }
    ensures reached { IfOk result (λ reply. ReachesBy update.now parts.old reply parts.new) }
    ensures refused { (r : UpdateRefused) → result ≡ Err (Refused r) → refusal_of parts.old.scene update.now ≡ Some r }
    ensures kept { OnErr result (parts.new ≡ parts.old) }
{
    reach_then(parts, update, Next::Nothing)
}

/// As `reach`, and behind the line of the state it does what follows.
///
/// # Errors
///
/// Why the update is refused, or `NoMemory`. Nothing changes then.
pub fn reach_then(parts: &mut Parts, update: &Update, next: Next) -> Result<Reply, UpdateError>
    requires can { CanReach parts.old }
    requires tables { HasRoomForTables update.now }
    requires next { IsNext next parts.old }
    ensures reached { IfOk result (λ reply. ReachesThen update.now next parts.old reply parts.new) }
    ensures refused { (r : UpdateRefused) → result ≡ Err (Refused r) → refusal_of parts.old.scene update.now ≡ Some r }
    ensures kept { OnErr result (parts.new ≡ parts.old) }
{
    let past = past_of(parts);
    let state = make_room_for_state(
        &mut parts.lines,
        &mut parts.states,
        &parts.sessions,
        lines_needed(&next),
    )?;
    make_room_for_job(&mut parts.jobs, &next)?;
    let pruned = advance(
        parts.alloc,
        &mut parts.sessions,
        &mut parts.learned,
        &mut parts.scene,
        update,
    )?;
    let reply = enter(&mut parts.lines, &mut parts.states, past, state, pruned);
    follow(
        &mut parts.lines,
        &mut parts.jobs,
        &mut parts.job_count,
        next,
    );
    Ok(reply)
}

/// Makes an update, or tells why it is refused.
pub fn change(parts: &mut Parts, update: &Update) -> Reply
    requires can { CanReach parts.old }
    requires tables { HasRoomForTables update.now }
    ensures { Updates update.now parts.old result parts.new }
{
    match reach(parts, update) {
        Ok(reply) => reply,
        Err(UpdateError::NoMemory) => Reply::NoMemory,
        Err(UpdateError::Refused(kind)) => match tell(parts, Line::RefusedUpdate { kind }) {
            Ok(()) => Reply::UpdateRefused(kind),
            Err(NoMemory) => Reply::NoMemory,
        },
    }
}
