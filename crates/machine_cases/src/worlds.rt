// The world, move by move: what comes of each.
use crate::begun::Begins;
use crate::devices::push_seen;
use crate::limits::{core_of, settings_of};
use crate::moves::move_of;
use crate::replies::push_reply;
use case_text::{CaseStop, Words};
use std::alloc::Global;
use world_model::{Moved, World, step_world};

impl Begins for World {
    // new CAPACITY LEVELS BUDGET POLICY
    fn begin(alloc: Global, call: Words<'_>) -> Result<World, CaseStop> {
        let mut words = call;
        let settings = settings_of(&mut words)?;
        let core = core_of(alloc, settings, words.rest())?;
        Ok(World::new(core))
    }

    fn tell(&mut self, alloc: Global, call: Words<'_>, out: &mut String) -> Result<(), CaseStop> {
        let asked = move_of(alloc, call)?;
        push_moved(alloc, &step_world(self, asked), out)
    }
}

fn push_moved(alloc: Global, moved: &Moved, out: &mut String) -> Result<(), CaseStop> {
    match moved {
        Moved::Done => Ok(out.push_str("ok")?),
        Moved::Replied(reply) => push_reply(alloc, reply, false, out),
        Moved::Saw(seen) => push_seen(*seen, out),
        Moved::NotThere => Ok(out.push_str("none")?),
        Moved::NoMemory => Err(CaseStop::NoMemory),
    }
}
