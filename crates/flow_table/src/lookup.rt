// Places among the rules of a table.
ghost use Rattle.std.specs.Prelude.{◌≡◌, ◌≤◌, false, length, IfSome, IfNone, Contains, MatchOption};
ghost use Rattle.maple_base.specs.declared.decision.Rule.{Rule};
ghost use Rattle.maple_base.specs.Choice.{MayChoose, fits, stands_above};
ghost use Rattle.flow_table.specs.Effects.{is_at};
ghost use Rattle.flow_table.specs.Orders.{AreOrdered, IsPlaceFor, NoneAt, StandsAt};

use maple_base::{Key, Match, Rule};

/// The first rule that fits, which no other that fits stands above.
pub fn first_fit<'a>(rules: &'a [Rule], key: &Key) -> Option<&'a Rule>
    requires { AreOrdered rules.now }
    ensures found { IfSome result (λ rule. MayChoose rules.now key.now rule.now) }
    ensures none { IfNone result ((rule : Rule) → Contains rules.now rule → fits rule key.now ≡ false) }
{
    rules.iter().find(|rule| rule.of.fits(key))
}

/// Where a rule of this match and this priority stands.
pub fn place_of(rules: &[Rule], of: &Match, priority: u16) -> Option<usize>
    ensures { MatchOption result (NoneAt of.now priority rules.now) (λ place. StandsAt of.now priority rules.now place) }
{
    rules.iter().position(|rule| is_at(rule, of, priority))
}

/// The place for a further rule: behind all rules that it does not stand above.
pub fn place_for(rules: &[Rule], rule: &Rule) -> usize
    requires { AreOrdered rules.now }
    ensures { IsPlaceFor rule.now rules.now result }
{
    rules
        .iter()
        .position(|other| stands_above(rule, other))
        .unwrap_or(rules.len())
}

fn is_at(rule: &Rule, of: &Match, priority: u16) -> bool
    ensures { result ≡ is_at of.now priority rule.now }
{
    rule.of == *of && rule.priority == priority
}

fn stands_above(rule: &Rule, other: &Rule) -> bool
    ensures { result ≡ stands_above rule.now other.now }
{
    !other.of.is_exact() && (rule.of.is_exact() || rule.priority > other.priority)
}
