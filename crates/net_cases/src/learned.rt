// A tree of traces, recorded in a network: what it finds, what an update or a call takes out, and its rules.
use crate::admission::put;
use crate::asking::{push_cells, push_items, push_tests};
use crate::network::make_one;
use crate::rules::{count_falling, tell_rules};
use case_text::{CaseStop, Subject, Words};
use case_values::{key_of, push_answer, push_cell, push_flag, push_value, update_of};
use maple_base::{Actions, Cell, Cells, Decision, Item, Items, NoMemory, Value};
use priority_plan::{levels, rules_needed};
use std::alloc::Global;
use std::mem;
use topo_paths::Scene;
use trace_tree::{Leaf, Trace, Tree};
use tree_prune::{is_current, prune, stale};

/// A network, a tree of traces, and what the next trace asks of its packet and of the network.
#[derive(Drop)]
pub struct Learned {
    alloc: Global,
    scene: Scene,
    tree: Tree,
    items: Vec<Item>,
    cells: Vec<(Cell, Value)>,
}

impl Subject for Learned {
    fn new(alloc: Global) -> Result<Learned, NoMemory> {
        Ok(Learned {
            alloc,
            scene: Scene::new(alloc)?,
            tree: Tree::new(alloc),
            items: Vec::new(alloc),
            cells: Vec::new(alloc),
        })
    }

    fn answer(&mut self, call: Words<'_>, out: &mut String) -> Result<(), CaseStop> {
        let mut words = call;
        match words.word() {
            "ask" => push_items(&mut self.items, words, out),
            "many" => push_tests(&mut self.items, words, out),
            "read" => push_cells(&mut self.cells, &self.scene, words, out),
            "add" => self.add(words, out),
            "retire" => Ok(push_flag(self.tree.retire(words.number()?), out)?),
            "keep" => keep(self.alloc, &mut self.tree, words, out),
            "prune" => Ok(write!(out, "{}", prune(&mut self.tree, &self.scene))?),
            "find" => tell_found(&self.tree, words, out),
            "stale?" => tell_stale(&self.tree, &self.scene, words, out),
            "current?" => {
                let leaf = leaf_of(&self.tree, words)?;
                Ok(push_flag(is_current(leaf, &self.scene), out)?)
            }
            _ => self.tell(call, out),
        }
    }
}

impl Learned {
    // What is asked of the whole tree, or an update of the network.
    fn tell(&mut self, call: Words<'_>, out: &mut String) -> Result<(), CaseStop> {
        let mut words = call;
        match words.word() {
            "leaves?" => Ok(write!(out, "{}", self.tree.leaves())?),
            "rules?" => Ok(write!(out, "{}", rules_needed(&self.tree))?),
            "levels?" => Ok(write!(out, "{}", levels(&self.tree))?),
            "falling?" => count_falling(self.alloc, &self.tree, words, out),
            "facts?" | "barriers?" | "chain?" | "current_facts?" | "current_barriers?" => {
                tell_rules(self.alloc, &self.tree, &self.scene, call.rest(), out)
            }
            _ => self.make(call, out),
        }
    }

    // An update of the network.
    fn make(&mut self, call: Words<'_>, out: &mut String) -> Result<(), CaseStop> {
        let update = update_of(self.alloc, call)?;
        push_answer(make_one(&mut self.scene, &update)?, out)
    }

    // add NUMBER, add NUMBER PORT: the trace of this number is put into the tree; what it decides is to
    // drop the packet, or to send it out of the port.
    fn add(&mut self, mut words: Words<'_>, out: &mut String) -> Result<(), CaseStop> {
        let number = words.number()?;
        let decision = decision_of(words)?;
        let trace = self.next(number, decision);
        put(self.alloc, &mut self.tree, trace)?;
        Ok(out.push_str("ok")?)
    }

    // The trace that was asked for.
    fn next(&mut self, number: u64, decision: Decision) -> Trace {
        let items = mem::replace(&mut self.items, Vec::new(self.alloc));
        let cells = mem::replace(&mut self.cells, Vec::new(self.alloc));
        Trace {
            number,
            items: Items::new(items),
            cells: Cells::new(cells),
            decision,
        }
    }
}

fn decision_of(mut words: Words<'_>) -> Result<Decision, CaseStop> {
    if words.is_empty() {
        Ok(Decision::Drop)
    } else {
        Ok(Decision::Out(Actions::new(&[words.number_u16()?])))
    }
}

// keep NUMBERS: how many others went.
fn keep(
    alloc: Global,
    tree: &mut Tree,
    words: Words<'_>,
    out: &mut String,
) -> Result<(), CaseStop> {
    let kept = words.numbers(alloc)?;
    let gone = tree.retain(|leaf| kept.contains(&leaf.number));
    Ok(write!(out, "{gone}")?)
}

// find KEY
fn tell_found(tree: &Tree, words: Words<'_>, out: &mut String) -> Result<(), CaseStop> {
    let key = key_of(words)?;
    match tree.search(&key) {
        Some(leaf) => Ok(write!(out, "{}", leaf.number)?),
        None => Ok(out.push_str("none")?),
    }
}

fn leaf_of<'a>(tree: &'a Tree, words: Words<'_>) -> Result<&'a Leaf, CaseStop> {
    let key = key_of(words)?;
    tree.search(&key).ok_or(CaseStop::Unread)
}

// stale? KEY: the first cell that has another value now.
fn tell_stale(
    tree: &Tree,
    scene: &Scene,
    words: Words<'_>,
    out: &mut String,
) -> Result<(), CaseStop> {
    match stale(leaf_of(tree, words)?, scene) {
        Some((cell, was, now)) => {
            push_cell(cell, out)?;
            out.push_str(" was ")?;
            push_value(was, out)?;
            out.push_str(" is ")?;
            Ok(push_value(now, out)?)
        }
        None => Ok(out.push_str("none")?),
    }
}
