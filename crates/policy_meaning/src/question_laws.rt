// What holds of every tree of questions.
ghost use Rattle.policy_meaning.specs.Example.{ExampleTraces};
ghost use Rattle.policy_meaning.specs.QuestionLaws.{OwnTrace, SameTrace, OnePath, NoClash, OnlyItsCells, AsEvaluated, AsksFew, TracesEndSo, ValuesWithin, LawOfTraces, TrueAnswers, NotedTrace};

/// What holds of each tree: a key and an environment meet their own trace, whoever meets a trace
/// has it, and a cell that isn't asked changes nothing. Two traces whose cells are of one
/// environment are equal or don't clash, and so they don't where one key doesn't meet the other.
pub fn tree_laws()
    ensures own { OwnTrace }
    ensures same { SameTrace }
    ensures cells { OnlyItsCells }
    ensures one_path { OnePath }
    ensures no_clash { NoClash }
{}

/// What holds of each tree without the settled questions: it ends as plain evaluation does, and the
/// law of traces. A trace of a tree that asks at most `n` questions on any way has at most `n + 2`
/// items: the type and the protocol are each read once for the questions of other fields. Where a
/// tree's ends have a property whenever cells have values of their kinds, so has each end whose trace
/// read such values. And of a tree whose tests are all of values of their fields' domains, each item
/// is.
pub fn reading_laws()
    ensures evaluated { AsEvaluated }
    ensures traces { LawOfTraces }
    ensures few { AsksFew }
    ensures ends { TracesEndSo }
    ensures values { ValuesWithin }
{}

/// What holds of the answers that lead through a tree: true ones lead to plain evaluation's outcome
/// and to no other, and those that were noted by the rules for settled questions, to a trace.
pub fn answer_laws()
    ensures outcome { TrueAnswers }
    ensures trace { NotedTrace }
{}

/// What is asked of some packets in one run.
pub fn example_laws()
    ensures { ExampleTraces }
{}
