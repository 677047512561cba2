// What may be wrong with a policy, and which of two faults comes first.
ghost use Rattle.std.specs.Prelude.{◌≡◌};
ghost use Rattle.policy_lang.specs.Faults.{numbered, place_in, node_of, is_before_by};
ghost use Rattle.policy_lang.specs.Walks.{site_of, fault_of, told, merged_by};

use crate::nodes::Node;
use maple_base::PolicyFault;

/// Where a fault lies. Nodes are numbered from 1 in the order of the text.
#[derive(Clone, Copy)]
pub enum Site {
    /// At the name of a table.
    AtTable,
    /// At the first word of a node.
    AtNode(u32),
    /// At the first word of an expression, with the parentheses round it.
    AtWhole(u32),
    /// At the name that a `let` declares or a head binds.
    AtName(u32),
}

/// What is wrong, and where.
#[derive(Clone, Copy)]
pub struct Fault {
    pub kind: PolicyFault,
    pub site: Site,
}

// The node of a number, from 1 on.
fn numbered(nodes: &[Node], number: u32) -> Node
    ensures { result ≡ numbered nodes.now number }
{
    let index = number.saturating_sub(1) as usize;
    match nodes.get(index) {
        Some(node) => *node,
        None => Node {
            first: 0,
            whole: 0,
            named: 0,
            depth: 0,
        },
    }
}

impl Site {
    /// The node in which the fault lies; 0 for a table.
    pub fn node(self) -> u32
        ensures { result ≡ node_of (site_of self) }
    {
        match self {
            Site::AtTable => 0,
            Site::AtNode(node) | Site::AtWhole(node) | Site::AtName(node) => node,
        }
    }

    /// Its token, where these are the nodes; tables come ahead of all nodes.
    pub fn place(self, nodes: &[Node]) -> u32
        ensures { result ≡ place_in nodes.now (site_of self) }
    {
        match self {
            Site::AtTable => 0,
            Site::AtNode(node) => numbered(nodes, node).first,
            Site::AtWhole(node) => numbered(nodes, node).whole,
            Site::AtName(node) => numbered(nodes, node).named,
        }
    }
}

impl Fault {
    fn is_before(self, other: Fault, nodes: &[Node]) -> bool
        ensures { result ≡ is_before_by (place_in nodes.now) (fault_of self) (fault_of other) }
    {
        let key = (self.site.place(nodes), self.kind.number(), self.site.node());
        let other_key = (
            other.site.place(nodes),
            other.kind.number(),
            other.site.node(),
        );
        key < other_key
    }
}

// The first of two faults; of two that neither is before the other, the first given.
pub(crate) fn earlier(fault: Option<Fault>, other: Option<Fault>, nodes: &[Node]) -> Option<Fault>
    ensures { told result ≡ merged_by (place_in nodes.now) (told fault) (told other) }
{
    match (fault, other) {
        (Some(fault), Some(other)) => {
            if other.is_before(fault, nodes) {
                Some(other)
            } else {
                Some(fault)
            }
        }
        (None, other) => other,
        (fault, None) => fault,
    }
}
