//! What holds of the scripts that a number makes, and of the policy under which they run.
#![tactic(auto)]

ghost use Rattle.gen_laws.specs.Laws.{IsPolicy, PlacesDecide};

use gen_script::round_law;
use script_text::grammar_laws;

/// The policy under which a script runs is one.
pub fn policy_law()
    ensures { IsPolicy }
{}

/// No line of a script is refused but for a place that isn't there.
pub fn script_law()
    ensures { PlacesDecide }
{
    grammar_laws();
    round_law();
}
