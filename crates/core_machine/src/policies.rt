// Another policy is put in force.
ghost use Rattle.env_cells.specs.Changes.{applied};
ghost use Rattle.std.specs.Prelude.{◌≡◌, OnOk, OnErr, IfOk, Err};
ghost use Rattle.env_cells.specs.declared.updates.Update.TheVariants.{Tables};
ghost use Rattle.env_cells.specs.Refusals.{HasRoomForTables};
ghost use Rattle.core_machine.specs.Reaching.{Renews, RenewsTo};
ghost use Rattle.machine_steps.specs.Places.{CanReach};
ghost use Rattle.machine_steps.specs.Sound.{IsSound};

use crate::advancing::advance_without_traces;
use crate::states::{enter, make_room_for_state, past_of};
use env_cells::Update;
use machine_parts::Parts;
use machine_steps::Reply;
use maple_base::{Names, NoMemory, Witness};
use policy_lang::Policy;
use std::alloc::Global;
use std::sync::Arc;
use topo_paths::Scene;

/// Puts another policy in force: its tables are declared, and all traces go.
pub fn renew(parts: &mut Parts, policy: Policy) -> Reply
    requires sound { IsSound parts.old }
    ensures { Renews policy parts.old result parts.new }
{
    match try_renew(parts, policy) {
        Ok(reply) => reply,
        Err(NoMemory) => Reply::NoMemory,
    }
}

fn try_renew(parts: &mut Parts, policy: Policy) -> Result<Reply, NoMemory>
    requires can { CanReach parts.old }
    ensures renewed { IfOk result (λ reply. RenewsTo policy parts.old reply parts.new) }
    ensures kept { OnErr result (parts.new ≡ parts.old) }
{
    let update = tables_of(parts.alloc, &policy)?;
    let past = past_of(parts);
    let state = make_room_for_state(&mut parts.lines, &mut parts.states, &parts.sessions, 0)?;
    parts.earlier.reserve(1)?;
    let before = Witness::of(&*parts.policy);
    let policy = Arc::new(parts.alloc, policy)?;
    let pruned = advance_without_traces(
        parts.alloc,
        &mut parts.sessions,
        &mut parts.learned,
        &mut parts.scene,
        &update,
    )?;
    parts.earlier.push_reserved(before);
    parts.policy = policy;
    Ok(enter(&mut parts.lines, &mut parts.states, past, state, pruned))
}

// The update that declares a policy's tables.
fn tables_of(alloc: Global, policy: &Policy) -> Result<Update, NoMemory>
    ensures named { IfOk result (λ update. update ≡ Tables policy.now.tables) }
    ensures room { IfOk result (λ update. HasRoomForTables update) }
{
    let names = Names::new(Vec::from_slice(alloc, policy.tables().items())?);
    Ok(Update::Tables(names))
}

/// Declares the tables that the policy names, and no others.
///
/// # Errors
///
/// `NoMemory`. The scene is as before then.
pub fn declare_tables(alloc: Global, scene: &mut Scene, policy: &Policy) -> Result<(), NoMemory>
    ensures { OnOk result (scene.new ≡ applied scene.old (Tables policy.now.tables)) }
{
    let update = tables_of(alloc, policy)?;
    let Ok(()) = scene.apply(&update) else {
        return Err(NoMemory);
    };
    Ok(())
}
