// What an update makes ready for the sessions before it is made.
ghost use Rattle.std.specs.Prelude.{◌≡◌, ◌+◌, ◌≤◌, [], ◌∷◌, length, false, map, IfOk, OnOk, OnErr, Err, None};
ghost use Rattle.std.specs.List.{AllByRecursion};
ghost use Rattle.maple_base.specs.declared.update_refused.UpdateRefused.{UpdateRefused};
ghost use Rattle.env_cells.specs.declared.updates.UpdateError.TheVariants.{Refused};
ghost use Rattle.env_cells.specs.Refusals.{refusal_of, HasRoomForTables};
ghost use Rattle.priority_plan.specs.Rules.{level_limit, levels_of};
ghost use Rattle.topo_paths.specs.Scenes.{cell_in};
ghost use Rattle.trace_tree.specs.Growth.{scratch};
ghost use Rattle.tree_prune.specs.Current.{is_current};
ghost use Rattle.switch_traces.specs.Traces.{those};
ghost use Rattle.switch_traces.specs.Lists.{AreRulesOf};
ghost use Rattle.machine_steps.specs.Machine.{kept_of, trace_total};
ghost use Rattle.machine_parts.specs.Aiming.{keeps, left_behind, turns, gives_up, CanTurn, CanReady, IsReadied, AreReadied};

use crate::connection::Connection;
use crate::lists::traces_of;
use env_cells::{Update, UpdateError};
use maple_base::{NoMemory, RuleList};
use std::alloc::Global;
use switch_session::Phase;
use switch_traces::{SwitchTraces, traces_laws};
use topo_paths::{Behind, Scene};

/// Which traces are left behind an update.
#[derive(Drop)]
pub enum Left<'a> {
    /// Those of which each recorded cell has its recorded value behind it.
    Current(&'a Behind<'a>),
    /// None.
    Nothing,
}

impl<'a> Left<'a> {
    // How many of a switch's traces are left.
    fn count(&self, traces: &SwitchTraces) -> u32
        ensures { result ≡ length (those (keeps self.now) traces.now.traces) }
    {
        match self {
            Left::Current(behind) => traces.count_current(*behind),
            Left::Nothing => 0,
        }
    }

    // The rules of those that are left.
    fn rules(&self, alloc: Global, traces: &SwitchTraces) -> Result<RuleList, NoMemory>
        requires levels { levels_of (scratch traces.now.traces) ≤ level_limit }
        ensures { IfOk result (λ list. AreRulesOf (those (keeps self.now) traces.now.traces) list) }
    {
        traces_laws();
        match self {
            Left::Current(behind) => traces.rules_where(*behind),
            Left::Nothing => Ok(RuleList::new(Vec::new(alloc), Vec::new(alloc))),
        }
    }
}

/// How many traces go with those that aren't left.
///
/// # Errors
///
/// `NoMemory` past 2^32.
pub fn count_gone(learned: &[SwitchTraces], left: &Left<'_>) -> Result<u32, NoMemory>
    ensures { IfOk result (λ gone. gone + trace_total (kept_of (keeps left.now) learned.now) ≡ trace_total learned.now) }
{
    let mut gone: u32 = 0;
    for traces in learned {
        let Some(sum) = gone.checked_add(traces.len() - left.count(traces)) else {
            return Err(NoMemory);
        };
        gone = sum;
    }
    Ok(gone)
}

// Makes an aim ready for a session, where it is live and not quiet, and its switch loses a trace.
fn make_one_ready(
    alloc: Global,
    connection: &mut Connection,
    learned: &[SwitchTraces],
    left: &Left<'_>,
) -> Result<(), NoMemory>
    requires can { CanReady learned.now (connection.old ∷ []) }
    ensures ready { OnOk result (IsReadied (kept_of (keeps left.now) learned.now) connection.old connection.new) }
    ensures kept { OnErr result (connection.new ≡ connection.old) }
{
    traces_laws();
    let session = &mut connection.session;
    if !matches!(session.phase(), Phase::Live) || session.quiet() {
        return Ok(());
    }
    let Some(switch) = session.dpid() else {
        return Ok(());
    };
    let Some(traces) = traces_of(learned, switch) else {
        return Ok(());
    };
    if left.count(traces) == traces.len() {
        return Ok(());
    }
    let rules = left.rules(alloc, traces)?;
    connection.aim = Some(session.prepare(&rules)?);
    Ok(())
}

/// Makes the aims ready for those sessions whose switches lose traces. Nothing that is told changes.
///
/// # Errors
///
/// `NoMemory`. Nothing changes then.
pub fn make_ready(
    alloc: Global,
    sessions: &mut [Connection],
    learned: &[SwitchTraces],
    left: &Left<'_>,
) -> Result<(), NoMemory>
    requires can { CanReady learned.now sessions.old }
    ensures ready { OnOk result (AreReadied (kept_of (keeps left.now) learned.now) (length sessions.old) sessions.old sessions.new) }
    ensures kept { OnErr result (sessions.new ≡ sessions.old) }
{
    for at in 0..sessions.len() {
        if make_one_ready(alloc, &mut sessions[at], learned, left).is_err() {
            give_up_all(sessions);
            return Err(NoMemory);
        }
    }
    Ok(())
}

/// Makes ready what an update needs, and tells how many traces go with it.
///
/// # Errors
///
/// Why it is refused, or `NoMemory`. Nothing changes then.
pub fn make_ready_behind(
    alloc: Global,
    sessions: &mut [Connection],
    learned: &[SwitchTraces],
    scene: &Scene,
    update: &Update,
) -> Result<u32, UpdateError>
    requires can { CanReady learned.now sessions.old }
    requires tables { HasRoomForTables update.now }
    ensures accepted { OnOk result (refusal_of scene.now update.now ≡ None) }
    ensures gone { IfOk result (λ gone. gone + trace_total (left_behind scene.now update.now learned.now) ≡ trace_total learned.now) }
    ensures ready { OnOk result (AreReadied (left_behind scene.now update.now learned.now) (length sessions.old) sessions.old sessions.new) }
    ensures refused { (r : UpdateRefused) → result ≡ Err (Refused r) → refusal_of scene.now update.now ≡ Some r }
    ensures kept { OnErr result (sessions.new ≡ sessions.old) }
{
    let behind = scene.behind(update)?;
    let left = Left::Current(&behind);
    let gone = count_gone(learned, &left)?;
    make_ready(alloc, sessions, learned, &left)?;
    Ok(gone)
}

fn give_up(connection: &mut Connection)
    ensures { connection.new ≡ gives_up connection.old }
{
    if connection.aim.take().is_some() {
        connection.session.forget();
    }
}

/// Gives up all that was made ready.
pub fn give_up_all(sessions: &mut [Connection])
    ensures { sessions.new ≡ map gives_up sessions.old }
{
    for connection in sessions.iter_mut() {
        give_up(connection);
    }
}

fn turn(connection: &mut Connection)
    requires { CanTurn connection.old }
    ensures { connection.new ≡ turns connection.old }
{
    if let Some(aim) = connection.aim.take() {
        connection.session.aim(aim);
    }
}

/// Aims each session at what was made ready for it.
pub fn turn_all(sessions: &mut [Connection])
    requires { AllByRecursion CanTurn sessions.old }
    ensures { sessions.new ≡ map turns sessions.old }
{
    for connection in sessions.iter_mut() {
        turn(connection);
    }
}

/// Removes the traces of which a recorded cell has another value.
pub fn prune_all(learned: &mut [SwitchTraces], scene: &Scene)
    ensures { learned.new ≡ kept_of (is_current (cell_in scene.now)) learned.old }
{
    for traces in learned.iter_mut() {
        traces.prune(scene);
    }
}

/// Removes all traces.
pub fn clear_all(learned: &mut [SwitchTraces])
    ensures { learned.new ≡ kept_of (λ _. false) learned.old }
{
    for traces in learned.iter_mut() {
        traces.clear();
    }
}
