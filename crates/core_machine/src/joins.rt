// A switch joins: a FEATURES_REPLY was heard from it.
ghost use Rattle.std.specs.Prelude.{◌≡◌, ℕ, ◌<◌, ◌≤◌, Some, None, Err, length, IfOk, OnOk, OnErr};
ghost use Rattle.maple_base.specs.declared.update_refused.UpdateRefused.{UpdateRefused};
ghost use Rattle.env_cells.specs.declared.updates.UpdateError.TheVariants.{Refused};
ghost use Rattle.env_cells.specs.Limits.{IsWithinLimits};
ghost use Rattle.env_cells.specs.Most.{most_up_ports};
ghost use Rattle.env_cells.specs.Refusals.{refusal_of, HasRoomForTables};
ghost use Rattle.trace_tree.specs.Growth.{scratch};
ghost use Rattle.priority_plan.specs.Rules.{level_limit, levels_of};
ghost use Rattle.switch_session.specs.Sessions.{accepted};
ghost use Rattle.switch_traces.specs.Lists.{AreRulesOf};
ghost use Rattle.machine_steps.specs.Machine.{State, is_served, traces_of};
ghost use Rattle.machine_steps.specs.Places.{CanReach};
ghost use Rattle.machine_steps.specs.Steps.{Lacks};
ghost use Rattle.core_machine.specs.Reaching.{ReachesBy};
ghost use Rattle.core_machine.specs.Joining.{changed_at, unheard, IsJoining, Joined, with_list, with_new, traces_behind, CanPrepare, EndsAt, HasOpen, HasStart, Prepares, Enters, EntersOrLacks};

use crate::updates::reach;
use env_cells::{Update, UpdateError};
use machine_parts::finding::any_serves;
use machine_parts::lists::{is_listed, rules_left};
use machine_parts::{Parts, close};
use machine_steps::Reply;
use maple_base::{NoMemory, Ports, RuleList};
use switch_session::{End, Start};
use switch_traces::{SwitchTraces, traces_laws};

/// What the machine does behind a FEATURES_REPLY, which gave this number and these ports and was
/// heard by the session at this place: the session ends, or its switch is known and it is
/// accepted. Where memory runs out the session has forgotten the number, and so the machine is
/// as it was before the message.
pub fn join(parts: &mut Parts, at: usize, dpid: u64, ports: Ports) -> Reply
    requires joins { IsJoining at dpid parts.old }
    requires few { length ports ≤ most_up_ports }
    ensures { Joined at dpid ports parts.old result parts.new }
{
    if serves(parts, dpid) {
        return end_at(parts, at, End::Twice(dpid));
    }
    let switch = dpid;
    let update = Update::Switch { switch, ports };
    match rules_behind(parts, dpid, &update) {
        Ok(rules) => enter(parts, at, dpid, &update, &rules),
        Err(UpdateError::Refused(_)) => end_at(parts, at, End::Full),
        Err(UpdateError::NoMemory) => give_up(parts, at),
    }
}

// Whether a live session has this switch.
fn serves(parts: &Parts, dpid: u64) -> bool
    ensures { result ≡ is_served dpid parts.now }
{
    any_serves(&parts.sessions, dpid)
}

// The rules of a switch's traces that an update leaves, where it isn't refused.
fn rules_behind(parts: &Parts, dpid: u64, update: &Update) -> Result<RuleList, UpdateError>
    requires tables { HasRoomForTables update.now }
    requires levels { levels_of (scratch (traces_of dpid parts.now)) ≤ level_limit }
    ensures accepted { OnOk result (refusal_of parts.now.scene update.now ≡ None) }
    ensures rules { IfOk result (λ rules. AreRulesOf (traces_behind update.now dpid parts.now) rules) }
    ensures refused { (r : UpdateRefused) → result ≡ Err (Refused r) → refusal_of parts.now.scene update.now ≡ Some r }
    ensures limits { IsWithinLimits parts.now.scene }
{
    // for its clause that the scene is within its limits
    let _links = parts.scene.links();
    let behind = parts.scene.behind(update)?;
    let rules = rules_left(parts.alloc, &parts.learned, dpid, &behind)?;
    Ok(rules)
}

// The session at a place is accepted with these rules, which the update of its switch leaves.
fn enter(parts: &mut Parts, at: usize, dpid: u64, update: &Update, rules: &RuleList) -> Reply
    requires joins { IsJoining at dpid parts.old }
    requires tables { HasRoomForTables update.now }
    requires rules { AreRulesOf (traces_behind update.now dpid parts.old) rules.now }
    ensures { EntersOrLacks at dpid update.now parts.old result parts.new }
{
    match accept(parts, at, dpid, update, rules) {
        Ok(reply) => reply,
        Err(_) => give_up(parts, at),
    }
}

// The session at a place forgets its switch's number.
fn give_up(parts: &mut Parts, at: usize) -> Reply
    requires place { at < length parts.old.sessions }
    ensures { Lacks (unheard at parts.old) result parts.new }
{
    parts.sessions[at].session.forget();
    Reply::NoMemory
}

// The session at a place ends for this reason, and is closed.
fn end_at(parts: &mut Parts, at: usize, end: End) -> Reply
    requires open { HasOpen at parts.old }
    ensures { EndsAt at end parts.old result parts.new }
{
    let session = &mut parts.sessions[at].session;
    session.end();
    let connection = session.connection();
    close(&mut parts.jobs, &mut parts.lines, connection, end);
    Reply::Ended(end)
}

// As `enter`; after an error the session may have a start prepared, and nothing else changed.
fn accept(
    parts: &mut Parts,
    at: usize,
    dpid: u64,
    update: &Update,
    rules: &RuleList,
) -> Result<Reply, UpdateError>
    requires joins { IsJoining at dpid parts.old }
    requires tables { HasRoomForTables update.now }
    requires rules { AreRulesOf (traces_behind update.now dpid parts.old) rules.now }
    ensures ok { IfOk result (λ reply. Enters at dpid update.now parts.old reply parts.new) }
    ensures err { OnErr result (unheard at parts.new ≡ unheard at parts.old) }
{
    traces_laws();
    let start = prepare_start_at(parts, at, rules)?;
    let reply = reach_listed(parts, dpid, update)?;
    start_at(parts, at, start);
    Ok(reply)
}

fn prepare_start_at(parts: &mut Parts, at: usize, rules: &RuleList) -> Result<Start, NoMemory>
    requires can { CanPrepare at rules.now parts.old }
    ensures ok { IfOk result (λ start. Prepares at rules.now start parts.old parts.new) }
    ensures err { OnErr result (parts.new ≡ parts.old) }
{
    parts.sessions[at].session.prepare_start(rules)
}

fn start_at(parts: &mut Parts, at: usize, start: Start)
    requires can { HasStart at start parts.old }
    ensures { parts.new ≡ changed_at at (accepted start) parts.old }
{
    parts.sessions[at].session.start(start);
}

// Reaches the state behind an update, with a list of traces for this switch.
fn reach_listed(parts: &mut Parts, dpid: u64, update: &Update) -> Result<Reply, UpdateError>
    requires can { CanReach (with_list dpid parts.old) }
    requires tables { HasRoomForTables update.now }
    ensures reached { IfOk result (λ reply. ReachesBy update.now (with_list dpid parts.old) reply parts.new) }
    ensures kept { OnErr result (parts.new ≡ parts.old) }
{
    if is_listed(&parts.learned, dpid) {
        reach(parts, update)
    } else {
        reach_with_new(parts, dpid, update)
    }
}

// The same with a new list.
fn reach_with_new(parts: &mut Parts, dpid: u64, update: &Update) -> Result<Reply, UpdateError>
    requires can { CanReach (with_new dpid parts.old) }
    requires tables { HasRoomForTables update.now }
    ensures reached { IfOk result (λ reply. ReachesBy update.now (with_new dpid parts.old) reply parts.new) }
    ensures kept { OnErr result (parts.new ≡ parts.old) }
{
    add_list(parts, dpid)?;
    let result = reach(parts, update);
    if result.is_err() {
        drop_list(parts);
    }
    result
}

fn add_list(parts: &mut Parts, dpid: u64) -> Result<(), NoMemory>
    ensures ok { OnOk result (parts.new ≡ with_new dpid parts.old) }
    ensures err { OnErr result (parts.new ≡ parts.old) }
{
    parts.learned.reserve(1)?;
    parts
        .learned
        .push_reserved(SwitchTraces::new(parts.alloc, dpid));
    Ok(())
}

// Takes back the list that was added last.
fn drop_list(parts: &mut Parts)
    ensures { (m : State) (dpid : ℕ) → parts.old ≡ with_new dpid m → parts.new ≡ m }
{
    parts.learned.pop();
}
