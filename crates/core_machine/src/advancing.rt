// The scene, the traces and the sessions of the next state.
ghost use Rattle.std.specs.Prelude.{◌≡◌, ◌+◌, OnErr, OnOk, IfOk, Err, None, Some, false};
ghost use Rattle.maple_base.specs.declared.update_refused.UpdateRefused.{UpdateRefused};
ghost use Rattle.env_cells.specs.declared.updates.UpdateError.TheVariants.{Refused};
ghost use Rattle.env_cells.specs.Changes.{applied};
ghost use Rattle.env_cells.specs.Refusals.{refusal_of, HasRoomForTables};
ghost use Rattle.machine_steps.specs.Machine.{kept_of, trace_total};
ghost use Rattle.machine_parts.specs.Aiming.{CanReady, left_behind};
ghost use Rattle.core_machine.specs.Advancing.{AreLed};

use env_cells::{Update, UpdateError};
use machine_parts::Connection;
use machine_parts::aims::{
    Left, clear_all, count_gone, give_up_all, make_ready, make_ready_behind, prune_all, turn_all,
};
use maple_base::NoMemory;
use std::alloc::Global;
use switch_traces::SwitchTraces;
use topo_paths::Scene;

/// Makes an update. The traces go that it makes stale, and the live sessions head for the rules of those that are
/// left. Tells how many go.
///
/// # Errors
///
/// Why it is refused, or `NoMemory`. Nothing changes then.
pub fn advance(
    alloc: Global,
    sessions: &mut [Connection],
    learned: &mut [SwitchTraces],
    scene: &mut Scene,
    update: &Update,
) -> Result<u32, UpdateError>
    requires can { CanReady learned.old sessions.old }
    requires tables { HasRoomForTables update.now }
    ensures accepted { OnOk result (refusal_of scene.old update.now ≡ None) }
    ensures gone { IfOk result (λ gone. gone + trace_total (left_behind scene.old update.now learned.old) ≡ trace_total learned.old) }
    ensures led { OnOk result (AreLed (left_behind scene.old update.now learned.old) sessions.old sessions.new) }
    ensures left { OnOk result (learned.new ≡ left_behind scene.old update.now learned.old) }
    ensures applied { OnOk result (scene.new ≡ applied scene.old update.now) }
    ensures refused { (r : UpdateRefused) → result ≡ Err (Refused r) → refusal_of scene.old update.now ≡ Some r }
    ensures sessions { OnErr result (sessions.new ≡ sessions.old) }
    ensures traces { OnErr result (learned.new ≡ learned.old) }
    ensures scene { OnErr result (scene.new ≡ scene.old) }
{
    let gone = make_ready_behind(alloc, sessions, learned, scene, update)?;
    if let Err(error) = scene.apply(update) {
        give_up_all(sessions);
        return Err(error);
    }
    prune_all(learned, scene);
    turn_all(sessions);
    Ok(gone)
}

/// The same where all traces go.
///
/// # Errors
///
/// `NoMemory`, or the update is refused. Nothing changes then.
pub fn advance_without_traces(
    alloc: Global,
    sessions: &mut [Connection],
    learned: &mut [SwitchTraces],
    scene: &mut Scene,
    update: &Update,
) -> Result<u32, NoMemory>
    requires can { CanReady learned.old sessions.old }
    requires tables { HasRoomForTables update.now }
    ensures gone { IfOk result (λ gone. gone + trace_total (kept_of (λ _. false) learned.old) ≡ trace_total learned.old) }
    ensures led { OnOk result (AreLed (kept_of (λ _. false) learned.old) sessions.old sessions.new) }
    ensures left { OnOk result (learned.new ≡ kept_of (λ _. false) learned.old) }
    ensures applied { OnOk result (scene.new ≡ applied scene.old update.now) }
    ensures sessions { OnErr result (sessions.new ≡ sessions.old) }
    ensures traces { OnErr result (learned.new ≡ learned.old) }
    ensures scene { OnErr result (scene.new ≡ scene.old) }
{
    let gone = count_gone(learned, &Left::Nothing)?;
    make_ready(alloc, sessions, learned, &Left::Nothing)?;
    if scene.apply(update).is_err() {
        give_up_all(sessions);
        return Err(NoMemory);
    }
    clear_all(learned);
    turn_all(sessions);
    Ok(gone)
}
