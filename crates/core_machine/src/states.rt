// The line of a state, and the state before it, which proofs read.
ghost use Rattle.std.specs.Prelude.{◌≡◌, ◌≤◌, ◌+◌, [], ◌∷◌, ◌++◌, OnOk, IfOk, map, vec_len, vec_capacity};
ghost use Rattle.report_text.specs.declared.line.Line.TheVariants.{State};
ghost use Rattle.machine_steps.specs.declared.reply.Reply.TheVariants.{NewState};
ghost use Rattle.machine_steps.specs.Machine.{this_state};
ghost use Rattle.machine_parts.specs.Sessions.{due_all, session_of};
ghost use Rattle.machine_parts.specs.Seen.{seen_past};

use machine_parts::shared::policy_number;
use machine_parts::{Connection, Parts, Past, make_room};
use machine_steps::Reply;
use maple_base::{NoMemory, Witness};
use report_text::Line;

/// The state now, as it is kept once it is left.
pub fn past_of(parts: &Parts) -> Past
    ensures { seen_past result ≡ this_state parts.now }
{
    Past {
        policy: Witness::of(&policy_number(parts)),
        scene: Witness::of(&parts.scene),
    }
}

/// Keeps the state that is left, and tells the next one.
pub fn enter(
    lines: &mut Vec<Line>,
    states: &mut Vec<Past>,
    past: Past,
    state: u64,
    pruned: u32,
) -> Reply
    requires line { vec_len lines.old + 1 ≤ vec_capacity lines.old }
    requires state { vec_len states.old + 1 ≤ vec_capacity states.old }
    ensures reply { result ≡ NewState state pruned }
    ensures lines { lines.new.items ≡ lines.old.items ++ State state pruned ∷ [] }
    ensures states { states.new.items ≡ states.old.items ++ past ∷ [] }
    ensures len { vec_len lines.new ≡ vec_len lines.old + 1 }
    ensures capacity { vec_capacity lines.new ≡ vec_capacity lines.old }
{
    states.push_reserved(past);
    lines.push_reserved(Line::State { state, pruned });
    Reply::NewState { state, pruned }
}

/// Room for the line of a state and so many behind it, besides those that are due, and for the state before it. Tells
/// the number of the next state.
///
/// # Errors
///
/// `NoMemory`. The room may have grown then.
pub fn make_room_for_state(
    lines: &mut Vec<Line>,
    states: &mut Vec<Past>,
    sessions: &[Connection],
    behind: usize,
) -> Result<u64, NoMemory>
    requires behind { behind ≤ 1 }
    ensures number { IfOk result (λ n. n ≡ vec_len states.old + 1) }
    ensures lines { lines.new.items ≡ lines.old.items }
    ensures len { vec_len lines.new ≡ vec_len lines.old }
    ensures capacity { vec_capacity lines.old ≤ vec_capacity lines.new }
    ensures line { OnOk result (vec_len lines.new + (1 + behind + due_all (map session_of sessions.now)) ≤ vec_capacity lines.new) }
    ensures states { states.new.items ≡ states.old.items }
    ensures state { OnOk result (vec_len states.new + 1 ≤ vec_capacity states.new) }
{
    let Some(number) = (states.len() as u64).checked_add(1) else {
        return Err(NoMemory);
    };
    make_room(lines, sessions, 1 + behind)?;
    states.reserve(1)?;
    Ok(number)
}
