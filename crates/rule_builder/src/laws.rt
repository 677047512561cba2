// What holds of the rules of a tree.
ghost use Rattle.rule_builder.specs.Chosen.{ChoiceLaw, TableLaw};
ghost use Rattle.rule_builder.specs.Rows.{RowsOfTwo, RowsOfDrop};
ghost use Rattle.rule_builder.specs.Laws.{NoneExact, DistinctLaw, NormalLaw, FactLaw, BarrierLaw};

/// What a switch may choose among the rules of a tree is the rule of the trace that the key finds.
pub fn choice_law()
    ensures choice { ChoiceLaw }
    ensures table { TableLaw }
{}

/// The matches and the actions of the rules of a tree.
pub fn rules_law()
    ensures exact { NoneExact }
    ensures distinct { DistinctLaw }
    ensures normal { NormalLaw }
    ensures facts { FactLaw }
    ensures barriers { BarrierLaw }
{}

/// The rules of two small trees.
pub fn rules_rows()
    ensures two { RowsOfTwo }
    ensures drop_alone { RowsOfDrop }
{}
