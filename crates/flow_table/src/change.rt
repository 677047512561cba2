// What changes do to the rules of a table.
ghost use Rattle.std.specs.Prelude.{◌≡◌, ◌⊎◌, ℕ, ◌<◌, ◌^◌, length};
ghost use Rattle.std.specs.List.{AllPairs};
ghost use Rattle.maple_base.specs.declared.decision.TableMod.TheVariants.{Add, DeleteStrict, DeleteAll};
ghost use Rattle.flow_table.specs.declared.applied.Applied.TheVariants.{Added, NoMemory};
ghost use Rattle.flow_table.specs.Effects.{answer_of};
ghost use Rattle.maple_base.specs.Choice.{Differ};
ghost use Rattle.flow_table.specs.Tables.{Leaves};
ghost use Rattle.flow_table.specs.Orders.{IsKept, entries};

use crate::Applied;
use crate::lookup::{place_for, place_of};
use maple_base::{Match, Rule};

/// Puts a rule in, in the place of one of equal match and priority.
pub fn add(rules: &mut Vec<Rule>, capacity: u32, rule: &Rule) -> Applied
    requires { IsKept rules.old.items capacity }
    ensures answer { (result ≡ NoMemory) ⊎ (result ≡ answer_of (Add rule.now) rules.old.items capacity) }
    ensures memory { result ≡ NoMemory → answer_of (Add rule.now) rules.old.items capacity ≡ Added }
    ensures effect { Leaves result (Add rule.now) (entries rules.old.items capacity) (entries rules.new.items capacity) }
    ensures kept { IsKept rules.new.items capacity }
{
    if let Some(place) = place_of(rules, &rule.of, rule.priority) {
        rules[place] = *rule;
        return Applied::Replaced;
    }
    if rules.len() >= capacity as usize {
        return Applied::Full;
    }
    let place = place_for(rules, rule);
    match rules.insert(place, *rule) {
        Ok(()) => Applied::Added,
        Err(_) => Applied::NoMemory,
    }
}

/// Removes the rule of this match and this priority.
pub fn delete_strict(rules: &mut Vec<Rule>, of: &Match, priority: u16) -> Applied
    requires { AllPairs Differ rules.old.items }
    ensures answer { (capacity : ℕ) → result ≡ answer_of (DeleteStrict of.now priority) rules.old.items capacity }
    ensures effect { (capacity : ℕ) → Leaves result (DeleteStrict of.now priority) (entries rules.old.items capacity) (entries rules.new.items capacity) }
    ensures kept { (capacity : ℕ) → IsKept rules.old.items capacity → IsKept rules.new.items capacity }
{
    match place_of(rules, of, priority) {
        Some(place) => {
            let _rule = rules.remove(place);
            Applied::Deleted(1)
        }
        None => Applied::Deleted(0),
    }
}

/// Removes all rules.
pub fn delete_all(rules: &mut Vec<Rule>) -> Applied
    requires { length rules.old.items < 2 ^ 32 }
    ensures answer { (capacity : ℕ) → result ≡ answer_of DeleteAll rules.old.items capacity }
    ensures effect { (capacity : ℕ) → Leaves result DeleteAll (entries rules.old.items capacity) (entries rules.new.items capacity) }
    ensures kept { (capacity : ℕ) → IsKept rules.old.items capacity → IsKept rules.new.items capacity }
{
    let count = rules.len() as u32;
    rules.clear();
    Applied::Deleted(count)
}
