// A network: next hops and ways, asked of the links and of a scene that keeps up with them, and cells
// behind updates.
ghost use Rattle.env_cells.specs.Refusals.{HasRoomForTables};

use crate::places::push_links;
use crate::room::has_room;
use case_text::{CaseStop, Subject, Words};
use case_values::{
    cell_of, push_answer, push_decision, push_flag, push_place, push_value, update_of,
};
use env_cells::{Update, UpdateError};
use maple_base::{Cell, Decision, EnvNow, NoMemory, Path, Place, Value};
use std::alloc::Global;
use std::mem;
use topo_paths::{Hops, Scene};

/// A scene, and a copy that was taken of it.
#[derive(Drop)]
pub struct Network {
    alloc: Global,
    scene: Scene,
    copy: Scene,
}

impl Subject for Network {
    fn new(alloc: Global) -> Result<Network, NoMemory> {
        let scene = Scene::new(alloc)?;
        let copy = Scene::new(alloc)?;
        Ok(Network { alloc, scene, copy })
    }

    fn answer(&mut self, call: Words<'_>, out: &mut String) -> Result<(), CaseStop> {
        let mut words = call;
        match words.word() {
            "cell?" => tell_cell(&self.scene, words, out),
            "hop?" => tell_hop(self.alloc, &self.scene, words, out),
            "way?" => tell_way(self.alloc, &self.scene, false, words, out),
            "copied_way?" => tell_way(self.alloc, &self.scene, true, words, out),
            "knows?" => Ok(push_flag(self.scene.knows(words.number()?), out)?),
            "links?" => Ok(push_links(self.scene.links(), out)?),
            "behind?" => tell_behind(self.alloc, &self.scene, words, out),
            "copy" => {
                self.copy = self.scene.copy()?;
                Ok(out.push_str("ok")?)
            }
            "swap" => {
                mem::swap(&mut self.scene, &mut self.copy);
                Ok(out.push_str("ok")?)
            }
            _ => make(self.alloc, &mut self.scene, call, out),
        }
    }
}

// cell? CELL
fn tell_cell(scene: &Scene, mut words: Words<'_>, out: &mut String) -> Result<(), CaseStop> {
    let cell = cell_of(words.word())?;
    Ok(push_value(scene.cell(cell), out)?)
}

// hop? FROM TO: the next hop over the scene's links.
fn tell_hop(
    alloc: Global,
    scene: &Scene,
    mut words: Words<'_>,
    out: &mut String,
) -> Result<(), CaseStop> {
    let from = words.number()?;
    let to = words.number()?;
    let hops = Hops::build(alloc, scene.links())?;
    match hops.hop(from, to) {
        Some(place) => Ok(push_place(place, out)?),
        None => Ok(out.push_str("nothing")?),
    }
}

// way? FROM TO; copied_way? FROM TO: a copy of the way.
fn tell_way(
    alloc: Global,
    scene: &Scene,
    is_copied: bool,
    mut words: Words<'_>,
    out: &mut String,
) -> Result<(), CaseStop> {
    let from = words.number()?;
    let to = words.number()?;
    match way_in(alloc, scene, from, to)? {
        Some(way) if is_copied => push_way(way.copy()?, out),
        Some(way) => push_way(way, out),
        None => Ok(out.push_str("none")?),
    }
}

fn push_way(way: Path, out: &mut String) -> Result<(), CaseStop> {
    Ok(push_decision(&Decision::Path(way), out)?)
}

fn way_in(alloc: Global, scene: &Scene, from: u64, to: u64) -> Result<Option<Path>, NoMemory> {
    let hops = Hops::build(alloc, scene.links())?;
    hops.path(from, to)
}

// behind? CELL UPDATE: what the cell has behind the update, which isn't made.
fn tell_behind(
    alloc: Global,
    scene: &Scene,
    mut words: Words<'_>,
    out: &mut String,
) -> Result<(), CaseStop> {
    let cell = cell_of(words.word())?;
    let update = update_of(alloc, words)?;
    if !has_room(&update) {
        return Err(CaseStop::Unread);
    }
    match value_behind(scene, &update, cell) {
        Ok(value) => Ok(push_value(value, out)?),
        Err(error) => push_answer(Err(error), out),
    }
}

fn value_behind(scene: &Scene, update: &Update, cell: Cell) -> Result<Value, UpdateError>
    requires { HasRoomForTables update.now }
{
    Ok(told(&scene.behind(update)?, cell))
}

fn told<E: EnvNow>(env: &E, cell: Cell) -> Value {
    env.cell(cell)
}

// An update.
fn make(
    alloc: Global,
    scene: &mut Scene,
    call: Words<'_>,
    out: &mut String,
) -> Result<(), CaseStop> {
    let update = update_of(alloc, call)?;
    push_answer(make_one(scene, &update)?, out)
}

/// Makes an update of at most 16 tables.
pub fn make_one(scene: &mut Scene, update: &Update) -> Result<Result<(), UpdateError>, CaseStop> {
    if has_room(update) {
        Ok(scene.apply(update))
    } else {
        Err(CaseStop::Unread)
    }
}
