// Updates as parts that leave one after the other.
ghost use Rattle.std.specs.Prelude.{ℕ, ◌≡◌, ◌+◌, ◌*◌, ◌≤◌, ◌<◌, ◌^◌, ◌++◌, ◌∷◌, [], IfOk, IfSome, IfNone, option_to_list, length};
ghost use Rattle.update_plan.specs.Batches.{no_rules};
ghost use Rattle.switch_session.specs.Parts.{parts_of, batch_part, changes_of, is_nil, leads_nowhere, AreParts, IsList};
ghost use Rattle.switch_session.specs.declared.part.Part.TheVariants.{Clearing};
ghost use Rattle.switch_session.specs.Sessions.{next_rules};
ghost use Rattle.switch_session.specs.Room.{CanBeSent, parts_room, part_room};

use crate::part::Part;
use maple_base::{Mods, NoMemory, RuleList, TableMod};
use std::alloc::Global;
use std::marker::Model;
use std::mem;
use update_plan::{Plan, batch_laws, plan};

// The bytes of a change with 16 actions, and those of a barrier request.
const MOST_CHANGE: usize = 200;

const BARRIER: usize = 8;

/// The room that a clearing takes.
pub const CLEARING_ROOM: usize = MOST_CHANGE + BARRIER;

/// The parts of an update that didn't leave yet, of which batches without changes are none.
#[derive(Drop)]
pub struct Parts {
    clears: bool,
    first: Mods,
    second: Mods,
}

impl Model for Parts {
    ghost use Rattle.std.specs.Prelude.{List};
    ghost use Rattle.switch_session.specs.declared.part.Part.{Part};

    ghost Value = { List Part };

    ghost use Rattle.switch_session.specs.Parts.{parts_of};
    ghost use Rattle.switch_session.specs.Room.{CanBeSent};

    ghost view = { λ a. parts_of a.clears a.first a.second };

    ghost invariant = { λ a. CanBeSent a.first × CanBeSent a.second };
}

impl Parts {
    /// None.
    pub fn none(alloc: Global) -> Parts
        ensures { result ≡ [] }
    {
        Parts {
            clears: false,
            first: Mods::new(Vec::new(alloc)),
            second: Mods::new(Vec::new(alloc)),
        }
    }

    /// A clearing alone.
    pub fn clearing(alloc: Global) -> Parts
        ensures { result ≡ Clearing ∷ [] }
    {
        Parts {
            clears: true,
            first: Mods::new(Vec::new(alloc)),
            second: Mods::new(Vec::new(alloc)),
        }
    }

    /// Those of a plan.
    pub fn of_plan(plan: Plan) -> Parts
        requires first { CanBeSent plan.first }
        requires second { CanBeSent plan.second }
        ensures { result ≡ parts_of plan.clear plan.first plan.second }
    {
        let Plan {
            clear,
            first,
            second,
        } = plan;
        Parts {
            clears: clear,
            first,
            second,
        }
    }

    /// Whether there are none.
    pub fn is_empty(&self) -> bool
        ensures { result ≡ is_nil self.now }
    {
        !self.clears && self.first.items().is_empty() && self.second.items().is_empty()
    }

    /// Takes the part that is to leave first.
    pub fn take(&mut self, alloc: Global) -> Option<Part>
        ensures parts { self.old ≡ option_to_list result ++ self.new }
        ensures can { IfSome result (λ part. CanBeSent (changes_of part)) }
        ensures none { IfNone result (self.old ≡ []) }
    {
        if self.clears {
            self.clears = false;
            return Some(Part::Clearing);
        }
        if !self.first.items().is_empty() {
            let none = Mods::new(Vec::new(alloc));
            return Some(Part::Batch(mem::replace(&mut self.first, none)));
        }
        if !self.second.items().is_empty() {
            let none = Mods::new(Vec::new(alloc));
            return Some(Part::Batch(mem::replace(&mut self.second, none)));
        }
        None
    }

    /// The room that they take, in bytes.
    pub fn room(&self) -> usize
        ensures value { result ≡ parts_room self.now }
        ensures most { result < 2 ^ 28 }
    {
        let clearing = if self.clears { CLEARING_ROOM } else { 0 };
        clearing + batch_room(self.first.items()) + batch_room(self.second.items())
    }
}

fn batch_room(changes: &[TableMod]) -> usize
    requires { CanBeSent changes.now }
    ensures value { result ≡ parts_room (batch_part changes.now) }
    ensures most { result < 2 ^ 26 }
{
    if changes.is_empty() {
        0
    } else {
        MOST_CHANGE * changes.len() + BARRIER
    }
}

/// The parts of an update from one list to another.
pub fn parts_between(
    alloc: Global,
    from: &RuleList,
    to: &RuleList,
    capacity: u32,
) -> Result<Parts, NoMemory>
    requires from { IsList capacity from.now }
    requires to { IsList capacity to.now }
    requires capacity { capacity ≤ 65535 }
    ensures parts { IfOk result (λ parts. AreParts capacity from.now to.now parts) }
    ensures nowhere { IfOk result (λ parts. is_nil parts ≡ leads_nowhere capacity from.now to.now) }
{
    batch_laws();
    Ok(Parts::of_plan(plan(alloc, from, to, capacity)?))
}

/// An update that is to start: the rules that it leads to, and its parts. A session that headed for
/// these rules already when it was planned changes nothing by it.
#[derive(Drop)]
pub struct Aim {
    pub(crate) rules: RuleList,
    pub(crate) parts: Parts,
    pub(crate) settled: bool,
}

impl Model for Aim {
    ghost use Rattle.switch_session.specs.Parts.{Update};

    ghost Value = { Update };

    ghost view = { λ a. record { rules = a.rules; parts = a.parts; settled = a.settled } };
}

impl Aim {
    /// The room that its parts take, in bytes.
    pub fn room(&self) -> usize
        ensures value { result ≡ parts_room self.now.parts }
        ensures most { result < 2 ^ 28 }
    {
        self.parts.room()
    }
}

/// An update from the target to these rules, of a session that heads for the rules of its next
/// update, or else for the target.
pub fn aim_at(
    alloc: Global,
    capacity: u32,
    target: &RuleList,
    next: &Option<Aim>,
    rules: &RuleList,
) -> Result<Aim, NoMemory>
    requires target { IsList capacity target.now }
    requires next { IfSome next.now (λ aim. IsList capacity aim.rules) }
    requires rules { IsList capacity rules.now }
    requires capacity { capacity ≤ 65535 }
    ensures rules { IfOk result (λ aim. aim.rules ≡ rules.now) }
    ensures parts { IfOk result (λ aim. AreParts capacity target.now rules.now aim.parts) }
    ensures settled { IfOk result (λ aim. aim.settled ≡ leads_nowhere capacity (next_rules next.now target.now) rules.now) }
{
    let parts = parts_between(alloc, target, rules, capacity)?;
    let settled = is_settled(alloc, capacity, next, &parts, target, rules)?;
    Ok(Aim {
        rules: copy_of(alloc, rules)?,
        parts,
        settled,
    })
}

// Whether the session heads for these rules already; these are the parts from the target to them.
fn is_settled(
    alloc: Global,
    capacity: u32,
    next: &Option<Aim>,
    parts: &Parts,
    target: &RuleList,
    rules: &RuleList,
) -> Result<bool, NoMemory>
    requires next { IfSome next.now (λ aim. IsList capacity aim.rules) }
    requires parts { is_nil parts.now ≡ leads_nowhere capacity target.now rules.now }
    requires rules { IsList capacity rules.now }
    requires capacity { capacity ≤ 65535 }
    ensures { IfOk result (λ settled. settled ≡ leads_nowhere capacity (next_rules next.now target.now) rules.now) }
{
    match next {
        None => Ok(parts.is_empty()),
        Some(aim) => Ok(parts_between(alloc, &aim.rules, rules, capacity)?.is_empty()),
    }
}

/// No rules, which a switch may always be led to.
pub fn no_rules(alloc: Global) -> RuleList
    ensures none { result ≡ no_rules }
    ensures list { (capacity : ℕ) → IsList capacity result }
{
    RuleList::new(Vec::new(alloc), Vec::new(alloc))
}

/// The same rules.
pub fn copy_of(alloc: Global, rules: &RuleList) -> Result<RuleList, NoMemory>
    ensures { IfOk result (λ copy. copy ≡ rules.now) }
{
    let facts = Vec::from_slice(alloc, rules.facts())?;
    let barriers = Vec::from_slice(alloc, rules.barriers())?;
    Ok(RuleList::new(facts, barriers))
}
