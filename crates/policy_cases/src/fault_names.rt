// What is wrong with the names of a policy, by the places of a text.
use crate::texts::policy_in;
use case_text::{CaseStop, Words};
use maple_base::{Name, NoMemory};
use policy_lang::nodes::nodes;
use policy_lang::{Node, Policy, first_name_fault};
use std::alloc::Global;

/// names TABLES TEXT: the node and the kind of the first fault of names, if a policy had these tables, of
/// one letter each, in place of its own; in the order of the tree, and where all stands at one place, so
/// that the kind decides, and then the node. `0 0`, where none is wrong, and `-` for no table.
pub fn names(alloc: Global, mut words: Words<'_>, out: &mut String) -> Result<(), CaseStop> {
    let tables = tables_of(alloc, words.word())?;
    let policy = policy_in(alloc, words)?;
    let Ok(places) = nodes(alloc, policy.body()) else {
        return Err(CaseStop::Unread);
    };
    push_fault(alloc, &policy, &tables, &places, out)?;
    out.push_str(", ")?;
    Ok(push_fault(alloc, &policy, &tables, &[], out)?)
}

fn tables_of(alloc: Global, letters: &str) -> Result<Vec<Name>, CaseStop> {
    let mut tables = Vec::new(alloc);
    if letters == "-" {
        return Ok(tables);
    }
    for letter in letters.as_bytes() {
        tables.push(Name::new(&[*letter]).ok_or(CaseStop::Unread)?)?;
    }
    Ok(tables)
}

fn push_fault(
    alloc: Global,
    policy: &Policy,
    tables: &[Name],
    nodes: &[Node],
    out: &mut String,
) -> Result<(), NoMemory> {
    match first_name_fault(alloc, tables, policy.body(), nodes)? {
        Some(fault) => Ok(write!(out, "{} {}", fault.site.node(), fault.kind.number())?),
        None => Ok(out.push_str("0 0")?),
    }
}
