// The changes of both batches, before they are put in order.
ghost use Rattle.std.specs.Prelude.{◌≡◌, not, ◌&&◌, ◌||◌, nat_lt, filter, IfOk};
ghost use Rattle.std.specs.List.{count_by};
ghost use Rattle.flow_table.specs.Effects.{has_at};
ghost use Rattle.update_plan.specs.Batches.{IsTarget, first_adds, first_deletes, second_adds, second_deletes, is_over};
ghost use Rattle.update_plan.specs.Lookups.{IsIndex, is_in, barrier_at};

use crate::lookup::{barrier_at, has_at, index_of, is_in};
use maple_base::{NoMemory, Rule, RuleList};
use std::alloc::Global;

/// What the batches from one list of rules to another add and delete.
#[derive(Drop)]
pub struct Changes {
    pub first_adds: Vec<Rule>,
    pub first_deletes: Vec<Rule>,
    pub second_adds: Vec<Rule>,
    pub second_deletes: Vec<Rule>,
    /// There is no room for what the table would pass through.
    pub over: bool,
}

pub fn changes_of(
    alloc: Global,
    a: &RuleList,
    b: &RuleList,
    capacity: u32,
) -> Result<Changes, NoMemory>
    requires from { IsTarget capacity a.now }
    requires to { IsTarget capacity b.now }
    ensures first_adds { IfOk result (λ all. all.first_adds.items ≡ first_adds a.now b.now) }
    ensures first_deletes { IfOk result (λ all. all.first_deletes.items ≡ first_deletes a.now b.now) }
    ensures second_adds { IfOk result (λ all. all.second_adds.items ≡ second_adds a.now b.now) }
    ensures second_deletes { IfOk result (λ all. all.second_deletes.items ≡ second_deletes a.now b.now) }
    ensures over { IfOk result (λ all. all.over ≡ is_over capacity a.now b.now) }
{
    let from = index_of(alloc, a)?;
    let to = index_of(alloc, b)?;
    let first_adds = lacking(alloc, b.barriers(), &from)?;
    let first_deletes = stale_facts(alloc, a.facts(), &to)?;
    let second_adds = lacking(alloc, b.facts(), &from)?;
    let second_deletes = stale_barriers(alloc, a.barriers(), &to)?;
    // A new barrier may take a rule's place; a new fact only that of a barrier, since all other rules
    // of its match and priority are gone by then.
    let peak_one = from.len() + new_places(&first_adds, &from);
    let peak_two = peak_one - first_deletes.len() + places_beside_barriers(&second_adds, &from);
    let over = is_over(peak_one, peak_two, capacity);
    Ok(Changes {
        first_adds,
        first_deletes,
        second_adds,
        second_deletes,
        over,
    })
}

// The rules among these that the index hasn't.
fn lacking(alloc: Global, rules: &[Rule], index: &[Rule]) -> Result<Vec<Rule>, NoMemory>
    requires { IsIndex index.now }
    ensures { IfOk result (λ all. all.items ≡ filter (λ r. not (is_in index.now r)) rules.now) }
{
    let all = rules
        .iter()
        .filter(|rule| !is_in(index, rule))
        .copied()
        .collect(alloc)?;
    Ok(all)
}

// The facts that aren't in the index and whose place no barrier there takes.
fn stale_facts(alloc: Global, facts: &[Rule], index: &[Rule]) -> Result<Vec<Rule>, NoMemory>
    requires { IsIndex index.now }
    ensures { IfOk result (λ all. all.items ≡ filter (λ r. not (is_in index.now r) && not (barrier_at index.now r)) facts.now) }
{
    let all = facts
        .iter()
        .filter(|rule| !is_in(index, rule) && !barrier_at(index, rule))
        .copied()
        .collect(alloc)?;
    Ok(all)
}

// The barriers whose place nothing in the index takes.
fn stale_barriers(alloc: Global, barriers: &[Rule], index: &[Rule]) -> Result<Vec<Rule>, NoMemory>
    requires { IsIndex index.now }
    ensures { IfOk result (λ all. all.items ≡ filter (λ r. not (has_at r.of r.priority index.now)) barriers.now) }
{
    let all = barriers
        .iter()
        .filter(|rule| !has_at(index, rule))
        .copied()
        .collect(alloc)?;
    Ok(all)
}

// How many of these have a match and priority that no rule of the index has.
fn new_places(rules: &[Rule], index: &[Rule]) -> usize
    requires { IsIndex index.now }
    ensures { result ≡ count_by (λ r. not (has_at r.of r.priority index.now)) rules.now }
{
    rules.iter().filter(|rule| !has_at(index, rule)).count()
}

// How many of these have a match and priority that no barrier of the index has.
fn places_beside_barriers(rules: &[Rule], index: &[Rule]) -> usize
    requires { IsIndex index.now }
    ensures { result ≡ count_by (λ r. not (barrier_at index.now r)) rules.now }
{
    rules.iter().filter(|rule| !barrier_at(index, rule)).count()
}

fn is_over(peak_one: usize, peak_two: usize, capacity: u32) -> bool
    ensures { result ≡ (nat_lt capacity peak_one || nat_lt capacity peak_two) }
{
    let room = capacity as usize;
    peak_one > room || peak_two > room
}
