// What is wrong with names and types, in the order of any text.
ghost use Rattle.std.specs.Prelude.{◌≡◌, ◌≤◌, length, IfOk, OnOk};
ghost use Rattle.maple_base.specs.PolicyLimits.{most_nodes};
ghost use Rattle.policy_lang.specs.TreeOf.{tree_of};
ghost use Rattle.policy_lang.specs.Nodes.{nodes_of};
ghost use Rattle.policy_lang.specs.Faults.{name_faults, first_by, place_in};
ghost use Rattle.policy_lang.specs.Sound.{IsSound};
ghost use Rattle.policy_lang.specs.Walks.{told};

use crate::Block;
use crate::faults::{Fault, earlier};
use crate::names::Scope;
use crate::nodes::Node;
use crate::types::{check_body, tables_fault};
use maple_base::{Name, NoMemory};
use std::alloc::Global;

/// The first fault of names and types, where the nodes lie so: of several the one of the least
/// token comes first, then the one of the least kind, then of the least node. The body has at most
/// 4,096 nodes.
#[tactic(auto, using(crate::proofs::Told::names_told, crate::proofs::NodeCounts::body_size))]
pub fn first_name_fault(
    alloc: Global,
    tables: &[Name],
    body: &Block,
    nodes: &[Node],
) -> Result<Option<Fault>, NoMemory>
    requires few { length (nodes_of (tree_of body.now)) ≤ most_nodes }
    ensures fault { IfOk result (λ fault. told fault ≡ first_by (place_in nodes.now) (name_faults tables.now (tree_of body.now))) }
    ensures sound { OnOk result (IsSound tables.now (tree_of body.now)) }
{
    let scope = Scope::of_tables(alloc, tables)?;
    let wrong = check_body(body, scope, nodes)?;
    Ok(earlier(tables_fault(tables, nodes), wrong, nodes))
}
