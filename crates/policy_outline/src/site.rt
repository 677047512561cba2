// Where the parts of a policy stand in its text.
ghost use Rattle.std.specs.Prelude.{◌≡◌, ◌≤◌, [], length};
ghost use Rattle.std.specs.List.{list_any};
ghost use Rattle.std.specs.Str.{bytes_eq};
ghost use Rattle.maple_base.specs.PolicyLimits.{most_tables};
ghost use Rattle.policy_lang.specs.Walks.{site_of};
ghost use Rattle.policy_grammar.specs.Grammar.{File};
ghost use Rattle.policy_outline.specs.FileNodes.{repeated_table, file_nodes, site_token};

use maple_base::Name;
use policy_lang::{Node, Site};

/// The token at which a site of a policy lies, by the number of tokens ahead of it, where these are
/// the tables and the nodes of its text.
pub fn site_token(tables: &[Name], nodes: &[Node], site: Site) -> usize
    requires { length tables.now ≤ most_tables }
    ensures { (f : File) → tables.now ≡ f.tables → nodes.now ≡ file_nodes f → result ≡ site_token f (site_of site) }
{
    match site {
        Site::AtTable => repeated_table(tables),
        Site::AtNode(_) | Site::AtWhole(_) | Site::AtName(_) => site.place(nodes) as usize,
    }
}

fn is_same(name: &Name, other: &Name) -> bool
    ensures { result ≡ bytes_eq name.now other.now }
{
    name.text() == other.text()
}

fn is_among(tables: &[Name], name: &Name) -> bool
    ensures { result ≡ list_any (bytes_eq name.now) tables.now }
{
    tables.iter().any(|table| is_same(name, table))
}

// The name of the first table that is named like an earlier one.
fn repeated_table(tables: &[Name]) -> usize
    requires { length tables.now ≤ most_tables }
    ensures { result ≡ repeated_table [] tables.now }
{
    for (index, table) in tables.iter().enumerate() {
        if is_among(&tables[..index], table) {
            return 3 * index + 1;
        }
    }
    0
}
