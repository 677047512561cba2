// What a prepared update outlasts, and when aiming changes nothing.
ghost use Rattle.switch_session.specs.Laws.{AimLaw, SettledLaw};

use update_plan::shield_laws;

/// A good aim stays good over `answer` and `take_out`. Aiming at the rules that a session heads for
/// already, in whatever order, changes nothing.
pub fn session_laws()
    ensures aims { AimLaw }
    ensures settled { SettledLaw }
{
    shield_laws();
}
