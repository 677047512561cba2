// What is read.
ghost use Rattle.std.specs.Prelude.{◌≡◌, length, IfOk, OnErr};
ghost use Rattle.topo_paths.specs.Scenes.{cell_in};
ghost use Rattle.machine_steps.specs.declared.reply.Reply.TheVariants.{Count, Value as ValueRead};
ghost use Rattle.machine_steps.specs.Sound.{IsSound};
ghost use Rattle.machine_steps.specs.Steps.{LendsPolicy, TellsRules};

use crate::lists::rules_of;
use crate::parts::Parts;
use crate::room::make_room;
use crate::rule_lines::tell_rules;
use crate::shared::policy_number;
use machine_steps::Reply;
use maple_base::{Cell, EnvNow, NoMemory};
use of10_codec::in_order;

/// What a cell has.
pub fn read_cell(parts: &Parts, cell: Cell) -> Reply
    ensures { result ≡ ValueRead (cell_in parts.now.scene cell) }
{
    Reply::Value(parts.scene.cell(cell))
}

/// Lends the policy in force, with its number.
pub fn read_policy(parts: &Parts) -> Reply
    ensures { LendsPolicy parts.now result parts.now }
{
    match parts.policy.clone() {
        Ok(policy) => Reply::Policy(policy_number(parts), policy),
        Err(_) => Reply::NoMemory,
    }
}

/// How many jobs are open.
pub fn open_jobs(parts: &Parts) -> Reply
    requires sound { IsSound parts.now }
    ensures { result ≡ Count (length parts.now.jobs) }
{
    Reply::Count(parts.jobs.len() as u32)
}

/// Tells the rules of a switch's traces, in the order of rules, and how many they are.
pub fn read_rules(parts: &mut Parts, switch: u64) -> Reply
    requires sound { IsSound parts.old }
    ensures { TellsRules switch parts.old result parts.new }
{
    match try_read_rules(parts, switch) {
        Ok(reply) => reply,
        Err(NoMemory) => Reply::NoMemory,
    }
}

fn try_read_rules(parts: &mut Parts, switch: u64) -> Result<Reply, NoMemory>
    requires sound { IsSound parts.old }
    ensures told { IfOk result (λ reply. TellsRules switch parts.old reply parts.new) }
    ensures kept { OnErr result (parts.new ≡ parts.old) }
{
    let rules = in_order(rules_of(parts.alloc, &parts.learned, switch)?)?;
    make_room(&mut parts.lines, &parts.sessions, rules.len() + 1)?;
    tell_rules(&mut parts.lines, switch, &rules);
    Ok(Reply::Done)
}
