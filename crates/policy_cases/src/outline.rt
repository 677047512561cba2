// The limits of texts, their nodes, and where these lie, by the number of tokens ahead.
use crate::texts::text_in;
use case_text::{CaseStop, Words};
use policy_lang::{Node, Site};
use policy_outline::{OutlineError, read_outline, site_token};
use policy_tokens::read_tokens;
use policy_tree::{PolicyParts, build};
use std::alloc::{AllocError, Global};

/// outline TEXT: how many nodes a text has that passes no limit; or the number of tokens ahead of its
/// first fault, and the fault's number.
pub fn outline(alloc: Global, words: Words<'_>, out: &mut String) -> Result<(), CaseStop> {
    let text = text_in(alloc, words)?;
    let Ok(tokens) = read_tokens(alloc, &text) else {
        return Err(CaseStop::Unread);
    };
    match read_outline(alloc, tokens.items()) {
        Ok(outline) => Ok(write!(out, "{} nodes", outline.nodes.len())?),
        Err(OutlineError::Fault { token, kind }) => {
            Ok(write!(out, "token {token} kind {}", kind.number())?)
        }
        Err(OutlineError::NoMemory) => Err(CaseStop::NoMemory),
    }
}

/// The parts of the text that all words are, and its nodes.
pub fn parts_in(alloc: Global, words: Words<'_>) -> Result<(PolicyParts, Vec<Node>), CaseStop> {
    let text = text_in(alloc, words)?;
    let Ok(tokens) = read_tokens(alloc, &text) else {
        return Err(CaseStop::Unread);
    };
    let Ok(outline) = read_outline(alloc, tokens.items()) else {
        return Err(CaseStop::Unread);
    };
    let parts = build(alloc, &outline.events)?;
    Ok((parts, outline.nodes))
}

/// nodes TEXT: of each node its first token, that token with its parentheses, the token of its name, and
/// how deep it is.
pub fn nodes(alloc: Global, words: Words<'_>, out: &mut String) -> Result<(), CaseStop> {
    let (_parts, nodes) = parts_in(alloc, words)?;
    Ok(push_nodes(&nodes, out)?)
}

fn push_nodes(nodes: &[Node], out: &mut String) -> Result<(), AllocError> {
    let mut ahead = "";
    for node in nodes {
        write!(out, "{ahead}{}-{}", node.first, node.whole)?;
        write!(out, "-{}-{}", node.named, node.depth)?;
        ahead = " ";
    }
    Ok(())
}

/// place SITE NODE TEXT: the number of tokens ahead of a site.
pub fn place(alloc: Global, mut words: Words<'_>, out: &mut String) -> Result<(), CaseStop> {
    let site = site_of(words.word(), words.number_u32()?)?;
    let (parts, nodes) = parts_in(alloc, words)?;
    if parts.tables.len() > 16 {
        return Err(CaseStop::Unread);
    }
    Ok(write!(out, "{}", site_token(&parts.tables, &nodes, site))?)
}

fn site_of(kind: &str, node: u32) -> Result<Site, CaseStop> {
    match kind {
        "table" => Ok(Site::AtTable),
        "node" => Ok(Site::AtNode(node)),
        "whole" => Ok(Site::AtWhole(node)),
        "name" => Ok(Site::AtName(node)),
        _ => Err(CaseStop::Unread),
    }
}
