// Policies that are well formed.
ghost use Rattle.std.specs.Prelude.{◌≡◌, ◌≤◌, [], length, IfOk, OnOk, IfErr};
ghost use Rattle.maple_base.specs.PolicyLimits.{most_tables};
ghost use Rattle.policy_lang.specs.declared.build.BuildError.TheVariants.{NoMemory as no_memory};
ghost use Rattle.policy_lang.specs.Built.{IsErrorOf};
ghost use Rattle.policy_lang.specs.Nodes.{nodes_of, AreFree};
ghost use Rattle.policy_lang.specs.Faults.{IsWellFormed};
ghost use Rattle.policy_lang.specs.Sound.{IsSound};
ghost use Rattle.policy_lang.specs.TreeOf.{tree_of};

use crate::name_fault::first_name_fault;
use crate::nodes::{Node, WalkStop, nodes};
use crate::{Block, Policy};
use maple_base::{Name, Names, NoMemory};
use std::alloc::Global;

/// Why no policy was built.
#[derive(Clone, Copy, Debug, PartialEq, Eq)]
pub enum BuildError {
    /// The first fault: the node, by its number in the order of the text from 1, or 0 for a table
    /// that is named twice; and the number of its kind: 4 an unknown name, 5 a name declared while
    /// it is in force, 6 a type that is not the one that is wanted, 8 a node more than 32 deep, 9
    /// the 4,097th node.
    Fault { node: u32, kind: u8 },
    /// Memory ran out.
    NoMemory,
}

impl From<NoMemory> for BuildError {
    ghost from_gives = { λ _ error. error ≡ no_memory };

    fn from(_error: NoMemory) -> BuildError {
        BuildError::NoMemory
    }
}

impl Policy {
    /// A policy of these parts: its tables, at most 16, whether the controller learns hosts, and
    /// what is done with each packet.
    ///
    /// # Errors
    ///
    /// The first fault of the parts, where they are not well formed: what passes a limit comes ahead
    /// of names and types; then the earlier place in the text decides.
    pub fn build(
        alloc: Global,
        tables: Vec<Name>,
        learning: bool,
        body: Block,
    ) -> Result<Policy, BuildError>
        requires { length tables.items ≤ most_tables }
        ensures tables { IfOk result (λ policy. policy.tables ≡ tables.items) }
        ensures learning { IfOk result (λ policy. policy.learning ≡ learning) }
        ensures body { IfOk result (λ policy. policy.body ≡ body) }
        ensures formed { OnOk result (IsWellFormed tables.items (tree_of body)) }
        ensures sound { OnOk result (IsSound tables.items (tree_of body)) }
        ensures fault { IfErr result (λ error. IsErrorOf error tables.items (tree_of body)) }
    {
        check_parts(alloc, &tables, &body)?;
        Ok(Policy::new(Names::new(tables), learning, body))
    }
}

// Finds the first fault of these parts. A node that passes a limit decides over all else.
#[tactic(auto, using(crate::proofs::Told::limit_told))]
fn check_parts(alloc: Global, tables: &[Name], body: &Block) -> Result<(), BuildError>
    ensures formed { OnOk result (IsWellFormed tables.now (tree_of body.now)) }
    ensures sound { OnOk result (IsSound tables.now (tree_of body.now)) }
    ensures fault { IfErr result (λ error. IsErrorOf error tables.now (tree_of body.now)) }
{
    match nodes(alloc, body) {
        Ok(nodes) => check_names(alloc, tables, body, &nodes),
        Err(WalkStop::Limit(limit)) => Err(BuildError::Fault {
            node: limit.node,
            kind: limit.kind.number(),
        }),
        Err(WalkStop::NoMemory) => Err(BuildError::NoMemory),
    }
}

// The same of parts that pass no limit, and whose nodes are these.
#[tactic(auto, using(crate::proofs::Told::fault_told, crate::proofs::Told::well_formed, crate::proofs::Told::few_nodes))]
fn check_names(
    alloc: Global,
    tables: &[Name],
    body: &Block,
    nodes: &[Node],
) -> Result<(), BuildError>
    requires nodes { nodes.now ≡ nodes_of (tree_of body.now) }
    requires free { AreFree nodes.now }
    ensures formed { OnOk result (IsWellFormed tables.now (tree_of body.now)) }
    ensures sound { OnOk result (IsSound tables.now (tree_of body.now)) }
    ensures fault { IfErr result (λ error. IsErrorOf error tables.now (tree_of body.now)) }
{
    match first_name_fault(alloc, tables, body, nodes)? {
        None => Ok(()),
        Some(fault) => Err(BuildError::Fault {
            node: fault.site.node(),
            kind: fault.kind.number(),
        }),
    }
}
