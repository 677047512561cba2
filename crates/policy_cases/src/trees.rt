// Policies of trees.
use crate::outline::parts_in;
use case_text::{CaseStop, Words, push_text};
use policy_lang::{BuildError, Policy};
use policy_text::print_policy;
use policy_tree::PolicyParts;
use std::alloc::Global;

/// tree TEXT: the printed form of the policy of a text's tree; or the node and the kind of the tree's
/// first fault.
pub fn tree(alloc: Global, words: Words<'_>, out: &mut String) -> Result<(), CaseStop> {
    let (parts, _nodes) = parts_in(alloc, words)?;
    push_tree(alloc, parts, out)
}

/// The same of the tree that these parts are.
pub fn push_tree(alloc: Global, parts: PolicyParts, out: &mut String) -> Result<(), CaseStop> {
    if parts.tables.len() > 16 {
        return Err(CaseStop::Unread);
    }
    match Policy::build(alloc, parts.tables, parts.learning, parts.body) {
        Ok(policy) => push_printed(alloc, &policy, out),
        Err(BuildError::Fault { node, kind }) => Ok(write!(out, "node {node} kind {kind}")?),
        Err(BuildError::NoMemory) => Err(CaseStop::NoMemory),
    }
}

fn push_printed(alloc: Global, policy: &Policy, out: &mut String) -> Result<(), CaseStop> {
    let mut form = Vec::new(alloc);
    print_policy(policy, &mut form)?;
    Ok(push_text(&form, out)?)
}
