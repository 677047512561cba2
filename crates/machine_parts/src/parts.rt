// All that the machine keeps.

use crate::connection::Connection;
use crate::opened::Opened;
use machine_steps::Job;
use maple_base::{Settings, Witness};
use policy_lang::Policy;
use report_text::Line;
use std::alloc::Global;
use std::collections::VecDeque;
use std::marker::Model;
use std::sync::Arc;
use switch_traces::SwitchTraces;
use topo_paths::Scene;

/// A state that was, which only proofs read.
#[derive(Drop)]
pub struct Past {
    pub policy: Witness<u64>,
    pub scene: Witness<Scene>,
}

/// All that the machine keeps.
#[derive(Drop)]
pub struct Parts {
    pub alloc: Global,
    pub settings: Settings,
    pub earlier: Vec<Witness<Policy>>,
    pub policy: Arc<Policy>,
    pub states: Vec<Past>,
    pub scene: Scene,
    pub learned: Vec<SwitchTraces>,
    pub sessions: Vec<Connection>,
    pub opened: Opened,
    pub jobs: VecDeque<Job>,
    pub job_count: u64,
    pub trace_count: u64,
    pub lines: Vec<Line>,
}

impl Model for Parts {
    ghost use Rattle.std.specs.Coded.{codes};
    ghost use Rattle.std.specs.FinSet as set;
    ghost use Rattle.std.specs.Ordering.{nat_cmp};
    ghost use Rattle.std.specs.Coded.{coded_ℕ};
    ghost use Rattle.of10_codec.specs.contracts.message.Message as message;
    ghost use Rattle.policy_lang.specs.contracts.Policy as policies;
    ghost use Rattle.report_text.specs.contracts.line.Line as line;
    ghost use Rattle.env_cells.specs.Environment.{environment_code};
    ghost use Rattle.switch_traces.specs.Coding.{traces_code};
    ghost use Rattle.machine_steps.specs.Machine.{State};

    ghost Value = { State };

    ghost coded = { Prim.hlevel (codes, message.the_row.coded, policies.the_row.coded, line.the_row.coded, environment_code, traces_code, set.code {R = nat_cmp} coded_ℕ) };

    ghost use Rattle.machine_parts.specs.Seen.{seen, IsRoomy};

    ghost view = { seen };

    ghost invariant = { IsRoomy };
}
