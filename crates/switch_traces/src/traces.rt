// The traces of a switch.
ghost use Rattle.std.specs.Prelude.{◌≡◌, ◌≢◌, ◌≤◌, ◌<◌, ◌+◌, ◌^◌, ◌++◌, [], ◌∷◌, length, IsTrue, Ok, IfOk, IfErr, OnOk, OnErr, option_copied};
ghost use Rattle.maple_base.specs.Limits.{most_items};
ghost use Rattle.maple_base.specs.Questions.{asks_once};
ghost use Rattle.topo_paths.specs.Scenes.{cell_in};
ghost use Rattle.trace_tree.specs.Bounds.{items_within};
ghost use Rattle.trace_tree.specs.Growth.{scratch, admits, leaf_found};
ghost use Rattle.trace_tree.specs.Stands.{has_other_number};
ghost use Rattle.tree_prune.specs.Current.{is_current};
ghost use Rattle.priority_plan.specs.Rules.{level_limit, levels_of, rules_needed};
ghost use Rattle.report_text.specs.declared.line.Learnt.TheVariants.{Learned};
ghost use Rattle.switch_traces.specs.Traces.{those, with_those};
ghost use Rattle.switch_traces.specs.Lists.{AreRulesOf};
ghost use Rattle.switch_traces.specs.Learning.{CanTake, judged};

use crate::laws::traces_laws;
use crate::list;
use maple_base::{EnvNow, GhostList, Key, NoMemory, RuleList};
use priority_plan::{levels, rules_needed};
use report_text::Learnt;
use rule_builder::{rules, rules_where};
use std::alloc::Global;
use std::marker::Model;
use topo_paths::Scene;
use trace_tree::{Leaf, Trace, Tree, scratch_laws};
use tree_prune::{count_current, prune};

/// The traces of a switch, in the order in which they were learned, as a tree.
#[derive(Drop)]
pub struct SwitchTraces {
    alloc: Global,
    switch: u64,
    tree: Tree,
    list: GhostList<Trace>,
}

impl Model for SwitchTraces {
    ghost use Rattle.std.specs.Coded.{codes};
    ghost use Rattle.switch_traces.specs.Coding.{traces_code};
    ghost use Rattle.switch_traces.specs.Traces.{Learnings};
    ghost use Rattle.trace_tree.specs.Stands.{StandsFor};

    ghost Value = { Learnings };

    ghost coded = { Prim.hlevel (codes, traces_code) };

    ghost view = { λ a. record { switch = a.switch; traces = a.list.value } };

    ghost invariant = { λ a. StandsFor a.tree a.list.value };
}

impl SwitchTraces {
    /// A switch of this datapath id without traces.
    pub fn new(alloc: Global, switch: u64) -> SwitchTraces
        ensures { result ≡ record { switch = switch; traces = [] } }
    {
        scratch_laws();
        SwitchTraces {
            alloc,
            switch,
            tree: Tree::new(alloc),
            list: GhostList::none(),
        }
    }

    /// The switch's datapath id.
    pub fn switch(&self) -> u64
        ensures { result ≡ self.now.switch }
    {
        self.switch
    }

    /// How many traces there are.
    pub fn len(&self) -> u32
        ensures { result ≡ length self.now.traces }
    {
        scratch_laws();
        self.tree.leaves()
    }

    /// How many traces have in each recorded cell its recorded value.
    pub fn count_current<E: EnvNow>(&self, env: &E) -> u32
        ensures { result ≡ length (those (is_current (E.has env.now)) self.now.traces) }
    {
        scratch_laws();
        count_current(&self.tree, env)
    }

    /// How many priorities the rules take.
    pub fn levels(&self) -> u64
        ensures { result ≡ levels_of (scratch self.now.traces) }
    {
        levels(&self.tree)
    }

    /// How many rules there are.
    pub fn rules_needed(&self) -> u64
        ensures { result ≡ rules_needed (scratch self.now.traces) }
    {
        rules_needed(&self.tree)
    }

    /// The rules, facts and barriers each in the order of rules.
    ///
    /// # Errors
    ///
    /// `NoMemory`.
    pub fn rules(&self) -> Result<RuleList, NoMemory>
        requires levels { levels_of (scratch self.now.traces) ≤ level_limit }
        ensures { IfOk result (λ list. AreRulesOf self.now.traces list) }
    {
        rules(self.alloc, &self.tree)
    }

    /// The rules without the traces of which a recorded cell has another value.
    ///
    /// # Errors
    ///
    /// `NoMemory`.
    pub fn rules_where<E: EnvNow>(&self, env: &E) -> Result<RuleList, NoMemory>
        requires levels { levels_of (scratch self.now.traces) ≤ level_limit }
        ensures { IfOk result (λ list. AreRulesOf (those (is_current (E.has env.now)) self.now.traces) list) }
    {
        scratch_laws();
        rules_where(self.alloc, &self.tree, env)
    }

    /// Adds a trace behind the others. Where memory runs out it comes back, and nothing changes.
    pub fn augment(&mut self, trace: Trace) -> Result<(), Trace>
        requires admitted { IsTrue (admits trace.items (scratch self.old.traces)) }
        requires within { IsTrue (items_within trace.items) }
        requires once { IsTrue (asks_once [] trace.items) }
        requires short { length trace.items ≤ most_items }
        requires room { length self.old.traces + 1 < 2 ^ 32 }
        ensures ok { OnOk result (self.new ≡ with_those (self.old.traces ++ trace ∷ []) self.old) }
        ensures err { IfErr result (λ back. back ≡ trace) }
        ensures unchanged { OnErr result (self.new ≡ self.old) }
    {
        let more = list::with(&self.list, &trace);
        scratch_laws();
        self.tree.augment(trace)?;
        self.list = more;
        Ok(())
    }

    /// Puts a trace behind the others, where their rules with it keep to so many levels and rules and
    /// the switch isn't `quiet`, and says what becomes of it.
    ///
    /// # Errors
    ///
    /// `NoMemory`.
    pub fn learn(
        &mut self,
        trace: Trace,
        levels: u32,
        capacity: u32,
        quiet: bool,
    ) -> Result<Learnt, NoMemory>
        requires can { CanTake self.old.traces trace }
        ensures judged { IfOk result (λ learnt. learnt ≡ judged levels capacity quiet (self.old.traces ++ trace ∷ [])) }
        ensures learned { result ≡ Ok Learned → self.new ≡ with_those (self.old.traces ++ trace ∷ []) self.old }
        ensures kept { result ≢ Ok Learned → self.new ≡ self.old }
    {
        traces_laws();
        let number = trace.number;
        let Ok(()) = self.augment(trace) else {
            return Err(NoMemory);
        };
        let learnt = self.judge(levels, capacity, quiet);
        if learnt != Learnt::Learned {
            self.retire(number);
        }
        Ok(learnt)
    }

    // What becomes of the last trace, where these are the limits.
    fn judge(&self, levels: u32, capacity: u32, quiet: bool) -> Learnt
        ensures { result ≡ judged levels capacity quiet self.now.traces }
    {
        let need = self.levels();
        if need > levels as u64 {
            return Learnt::Levels {
                need,
                limit: levels,
            };
        }
        let need = self.rules_needed();
        if need > capacity as u64 {
            return Learnt::Rows { need, capacity };
        }
        if quiet {
            return Learnt::Quiet;
        }
        Learnt::Learned
    }

    /// Takes out the trace of this number.
    pub fn retire(&mut self, number: u64)
        ensures { self.new ≡ with_those (those (has_other_number number) self.old.traces) self.old }
    {
        self.list = list::others(&self.list, number);
        self.tree.retire(number);
    }

    /// Removes the traces of which a recorded cell has another value.
    pub fn prune(&mut self, scene: &Scene)
        ensures { self.new ≡ with_those (those (is_current (cell_in scene.now)) self.old.traces) self.old }
    {
        self.list = list::current(&self.list, scene);
        let _gone = prune(&mut self.tree, scene);
    }

    /// Removes all traces.
    pub fn clear(&mut self)
        ensures { self.new ≡ with_those [] self.old }
    {
        scratch_laws();
        self.tree = Tree::new(self.alloc);
        self.list = GhostList::none();
    }

    /// The leaf of the trace that a key meets.
    pub fn search(&self, key: &Key) -> Option<&Leaf>
        ensures { option_copied result ≡ leaf_found self.now.traces key.now }
    {
        scratch_laws();
        self.tree.search(key)
    }
}
