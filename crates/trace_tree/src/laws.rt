// What holds of the tree that a list of traces makes.
ghost use Rattle.trace_tree.specs.Laws.{ApartIsAdmitted, OnlyApartIsAdmitted, FreeIsAdmitted, EmptyStandsForNone, GrowsByInsertion, SearchIsFound, LeavesAreTraces, FewerAreAdmitted, KeptIsScratch, FewerAskOnce, NewNumberIsOwn, FewerHaveOwnNumbers};

/// The laws of trees of traces. After calls of `augment` on a new tree, it is the tree of those traces in their order.
pub fn scratch_laws()
    ensures apart { ApartIsAdmitted }
    ensures only { OnlyApartIsAdmitted }
    ensures free { FreeIsAdmitted }
    ensures none { EmptyStandsForNone }
    ensures grows { GrowsByInsertion }
    ensures found { SearchIsFound }
    ensures leaves { LeavesAreTraces }
    ensures fewer { FewerAreAdmitted }
    ensures kept { KeptIsScratch }
    ensures fewer_once { FewerAskOnce }
    ensures numbers { NewNumberIsOwn }
    ensures fewer_numbers { FewerHaveOwnNumbers }
{}
