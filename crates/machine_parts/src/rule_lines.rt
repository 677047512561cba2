// Rules, as lines.
ghost use Rattle.std.specs.Prelude.{◌≡◌, ◌+◌, ◌^◌, ◌≤◌, ◌<◌, ◌++◌, ◌∷◌, [], length, map, vec_len, vec_capacity};
ghost use Rattle.report_text.specs.declared.line.Line.TheVariants.{Rules};
ghost use Rattle.machine_steps.specs.Steps.{rule_line};

use maple_base::Rule;
use report_text::Line;

/// Tells the rules of a switch, and how many they are, within the room that was made.
pub fn tell_rules(lines: &mut Vec<Line>, switch: u64, rules: &[Rule])
    requires room { vec_len lines.old + (length rules.now + 1) ≤ vec_capacity lines.old }
    requires few { length rules.now < 2 ^ 32 }
    ensures lines { lines.new.items ≡ lines.old.items ++ (map (rule_line switch) rules.now ++ Rules switch (length rules.now) ∷ []) }
    ensures len { vec_len lines.new ≡ vec_len lines.old + (length rules.now + 1) }
    ensures capacity { vec_capacity lines.new ≡ vec_capacity lines.old }
{
    for rule in rules {
        lines.push_reserved(rule_line(switch, rule));
    }
    let count = rules.len() as u32;
    lines.push_reserved(Line::Rules { switch, count });
}

// The line of a rule.
fn rule_line(switch: u64, rule: &Rule) -> Line
    ensures { result ≡ rule_line switch rule.now }
{
    Line::Rule {
        switch,
        priority: rule.priority,
        actions: rule.actions,
        of: rule.of,
    }
}
