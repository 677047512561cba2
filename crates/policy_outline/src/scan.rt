// Finds the nodes of a text, and the first limit that is passed.
ghost use Rattle.std.specs.Prelude.{◌≡◌, ◌≤◌, ◌+◌, ◌<◌, ◌++◌, None, length, IfOk, IfErr, OnOk};
ghost use Rattle.maple_base.specs.PolicyLimits.{most_bytes, most_nodes};
ghost use Rattle.policy_outline.specs.Bounds.{begun_in, most_counted};
ghost use Rattle.policy_outline.specs.Outlining.{AreCountable, IsStopOf};
ghost use Rattle.policy_outline.specs.Scanning.{nodes_at, whole_behind, scanned, limit_at, first_passed};

use crate::OutlineError;
use crate::count::Count;
use maple_base::policy_limit::{DEEPEST, MOST_NODES, MOST_PARENTHESES, MOST_TABLES};
use maple_base::{NoMemory, PolicyFault};
use policy_lang::Node;
use std::alloc::Global;

// The limit that is passed at a token, behind so many nodes that began and that ended.
fn limit_at(begun: usize, ended: usize, count: Count) -> Option<PolicyFault>
    requires { begun + count.begun ≤ most_counted + 1 }
    ensures { result ≡ limit_at begun ended count }
{
    let begins = count.begun() > 0;
    let nodes = begun + count.begun();
    let too_deep = begins && nodes.saturating_sub(ended) > DEEPEST as usize;
    if too_deep || count.parentheses() > MOST_PARENTHESES {
        Some(PolicyFault::Nesting)
    } else if begins && nodes > MOST_NODES as usize {
        Some(PolicyFault::Nodes)
    } else if count.tables() == MOST_TABLES + 1 {
        Some(PolicyFault::TooLong)
    } else {
        None
    }
}

// The nodes that begin with a token, the outermost of them first.
fn push_nodes(
    nodes: &mut Vec<Node>,
    whole: usize,
    token: usize,
    count: Count,
    begun: usize,
    ended: usize,
) -> Result<(), NoMemory>
    requires near { token ≤ most_bytes }
    requires ahead { whole ≤ token }
    requires few { begun + count.begun ≤ most_nodes }
    ensures { OnOk result (nodes.new.items ≡ nodes.old.items ++ nodes_at whole token (token + count.name) begun ended count.begun) }
{
    let named = (token + count.name()) as u32;
    let mut outer = whole as u32;
    let last = begun + count.begun();
    for number in begun..last {
        nodes.push(Node {
            first: token as u32,
            whole: outer,
            named,
            depth: (number + 1).saturating_sub(ended) as u32,
        })?;
        outer = token as u32;
    }
    Ok(())
}

// Where the parentheses of the outermost node of the next token begin.
fn whole_behind(whole: usize, token: usize, count: Count) -> usize
    requires { token ≤ most_bytes }
    ensures { result ≡ whole_behind whole token count }
{
    if count.parentheses() == 0 {
        token + 1
    } else if count.begun() > 0 {
        token
    } else {
        whole
    }
}

/// The nodes of a text with these counts, in its order, or the first limit that is passed.
pub fn scan(alloc: Global, counts: &[Count]) -> Result<Vec<Node>, OutlineError>
    requires few { length counts.now ≤ most_bytes }
    requires countable { AreCountable counts.now }
    ensures free { OnOk result (first_passed 0 0 0 counts.now ≡ None) }
    ensures nodes { IfOk result (λ nodes. nodes.items ≡ scanned 0 0 0 0 counts.now) }
    ensures stop { IfErr result (IsStopOf counts.now) }
{
    let mut nodes = Vec::new(alloc);
    let mut whole = 0;
    let mut begun = 0;
    let mut ended = 0;
    for (token, count) in counts.iter().enumerate() {
        let count = *count;
        if let Some(kind) = limit_at(begun, ended, count) {
            return Err(OutlineError::Fault { token, kind });
        }
        push_nodes(&mut nodes, whole, token, count, begun, ended)?;
        whole = whole_behind(whole, token, count);
        begun += count.begun();
        ended += count.ended();
    }
    Ok(nodes)
}
