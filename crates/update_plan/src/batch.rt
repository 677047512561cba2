// A batch in the order in which it is sent.
ghost use Rattle.std.specs.Prelude.{◌≡◌, [], ◌++◌, map, IfOk, OnOk};
ghost use Rattle.maple_base.specs.declared.decision.TableMod.TheVariants.{Add};
ghost use Rattle.update_plan.specs.Batches.{IsSent, deletion};

use maple_base::{Mods, NoMemory, Rule, TableMod};
use of10_codec::in_order;
use std::alloc::Global;

/// The additions, and behind them the deletions, each in the order of rules.
pub fn sent(alloc: Global, adds: Vec<Rule>, deletes: Vec<Rule>) -> Result<Mods, NoMemory>
    ensures { IfOk result (λ mods. IsSent adds.items deletes.items mods) }
{
    let adds = in_order(adds)?;
    let deletes = in_order(deletes)?;
    let mut mods = Vec::new(alloc);
    push_adds(&adds, &mut mods)?;
    push_deletes(&deletes, &mut mods)?;
    Ok(Mods::new(mods))
}

/// A batch that only adds.
pub fn additions(alloc: Global, rules: &[Rule]) -> Result<Mods, NoMemory>
    ensures { IfOk result (λ mods. IsSent rules.now [] mods) }
{
    let adds = Vec::from_slice(alloc, rules)?;
    sent(alloc, adds, Vec::new(alloc))
}

fn push_adds(rules: &[Rule], mods: &mut Vec<TableMod>) -> Result<(), NoMemory>
    ensures { OnOk result (mods.new.items ≡ mods.old.items ++ map Add rules.now) }
{
    for rule in rules {
        mods.push(TableMod::Add(*rule))?;
    }
    Ok(())
}

fn push_deletes(rules: &[Rule], mods: &mut Vec<TableMod>) -> Result<(), NoMemory>
    ensures { OnOk result (mods.new.items ≡ mods.old.items ++ map deletion rules.now) }
{
    for rule in rules {
        mods.push(TableMod::DeleteStrict {
            of: rule.of,
            priority: rule.priority,
        })?;
    }
    Ok(())
}
