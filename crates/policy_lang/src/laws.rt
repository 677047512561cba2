// What holds of the nodes of a policy.
ghost use Rattle.policy_lang.specs.Laws.{FewNodes, CountsNodes};

/// What holds of the nodes of a body: they are as many as its parts, and at most 4,096 where it is well
/// formed.
pub fn form_laws()
    ensures few { FewNodes }
    ensures counts { CountsNodes }
{}
