// The machine, a step an entry.
ghost use Rattle.std.specs.Prelude.{◌≡◌, IfOk};
ghost use Rattle.machine_steps.specs.Admitting.{Admits};
ghost use Rattle.machine_steps.specs.Machine.{opening};
ghost use Rattle.machine_steps.specs.Sound.{AreInRange, IsSound};
ghost use Rattle.machine_steps.specs.Steps.{Steps};

use crate::dispatch::step;
use crate::policies::declare_tables;
use machine_parts::{Opened, Parts};
use machine_steps::{Entry, Reply, machine_laws};
use maple_base::{NoMemory, Settings};
use policy_lang::Policy;
use std::alloc::Global;
use std::collections::VecDeque;
use std::marker::Model;
use std::sync::Arc;
use topo_paths::Scene;

/// The machine of the controller: connections of switches with their sessions, what is known of the network, the policy
/// in force, and the report. Between steps it is sound: each live session heads for the rules of its switch's traces.
#[derive(Drop)]
pub struct Core {
    parts: Parts,
}

impl Model for Core {
    ghost use Rattle.machine_parts.specs.contracts.parts.Parts as parts_of;
    ghost use Rattle.machine_steps.specs.Machine.{State};
    ghost use Rattle.machine_steps.specs.Sound.{IsSound};

    ghost Value = { State };

    ghost coded = { parts_of.the_row.coded };

    ghost view = { λ a. a.parts };

    ghost invariant = { λ a. IsSound a.parts };
}

impl Core {
    /// A machine without connections, in state 0, in which the policy's tables are empty.
    ///
    /// # Errors
    ///
    /// `NoMemory`.
    pub fn new(alloc: Global, policy: Policy, settings: Settings) -> Result<Core, NoMemory>
        requires ranges { AreInRange settings }
        ensures { IfOk result (λ core. core ≡ opening policy settings) }
    {
        machine_laws();
        let mut scene = Scene::new(alloc)?;
        declare_tables(alloc, &mut scene, &policy)?;
        let parts = Parts {
            alloc,
            settings,
            earlier: Vec::new(alloc),
            policy: Arc::new(alloc, policy)?,
            states: Vec::new(alloc),
            scene,
            learned: Vec::new(alloc),
            sessions: Vec::new(alloc),
            opened: Opened::none(alloc),
            jobs: VecDeque::new(alloc),
            job_count: 0,
            trace_count: 0,
            lines: Vec::new(alloc),
        };
        Ok(Core { parts })
    }

    /// Does what an entry asks, and answers. Where memory doesn't suffice nothing changes.
    pub fn step(&mut self, entry: Entry) -> Reply
        requires admits { Admits self.old entry }
        ensures step { Steps self.old entry result self.new }
    {
        machine_laws();
        step(&mut self.parts, entry)
    }

    /// The allocator that it uses.
    pub fn alloc(&self) -> Global {
        self.parts.alloc
    }

    /// What holds of each machine.
    pub fn law(&self)
        ensures { IsSound self.now }
    {
        let _ = &self.parts;
    }
}
