// What holds of traces and of the rules that a switch can be led to.
ghost use Rattle.switch_traces.specs.Laws.{RulesAreList, FewerAreFit, NoneAreFit, LastGoes};

/// The rules of traces are a list that a session can be aimed at, also when some of the traces go, and
/// the trace that was put in last goes by its number.
pub fn traces_laws()
    ensures list { RulesAreList }
    ensures fewer { FewerAreFit }
    ensures none { NoneAreFit }
    ensures back { LastGoes }
{}
