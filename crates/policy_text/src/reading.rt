// Reads the text of a policy.
ghost use Rattle.std.specs.Prelude.{◌≡◌, ◌≤◌, length, IfOk, IfErr};
ghost use Rattle.maple_base.specs.PolicyLimits.{most_tables, most_bytes};
ghost use Rattle.policy_lang.specs.Faults.{IsWellFormed};
ghost use Rattle.policy_lang.specs.TreeOf.{tree_of};
ghost use Rattle.policy_outline.specs.Limits.{IsOutline};
ghost use Rattle.policy_text.specs.declared.reading.ReadError.TheVariants.{Refused, NoMemory as no_memory};
ghost use Rattle.policy_text.specs.Texts.{plain, token_position, IsTextOf, IsRefused, IsPolicyOf, IsWrong};

use maple_base::NoMemory;
use policy_lang::{BuildError, Policy, first_name_fault};
use policy_outline::{Outline, OutlineError, outline_laws, read_outline, site_token};
use policy_tokens::{Position, Tokens, TokensError, read_tokens};
use policy_tree::{PolicyParts, build, one_file};
use std::alloc::Global;

/// Why no policy was read.
#[derive(Clone, Copy, Debug, PartialEq, Eq)]
pub enum ReadError {
    /// What is wrong with the text, and where: the line and the column, from 1, counted in bytes;
    /// and the kind. 1 a byte that is neither printable ASCII nor a blank; 2 a word or a sign of no
    /// kind; 3 a token with which no policy can go on, where the end counts as one; 4 a name that is
    /// not in force; 5 a name that is declared while it is in force; 6 an expression or a name of
    /// another type than is wanted; 7 a number of 2^64 or more, or a part of an address past 255; 8
    /// a node more than 32 deep, or a parenthesis inside 64 open ones; 9 the 4,097th node; 10 the
    /// 65,537th byte, or the 17th table.
    Refused { line: u32, column: u32, kind: u8 },
    /// Memory ran out.
    NoMemory,
}

impl From<NoMemory> for ReadError {
    ghost from_gives = { λ _ error. error ≡ no_memory };

    fn from(_error: NoMemory) -> ReadError {
        ReadError::NoMemory
    }
}

/// The policy of a text.
///
/// # Errors
///
/// The first fault of the text. It is tested in three passes, of which the first that finds a fault
/// decides: over its bytes, words and signs (kinds 1, 2, 7 and the bytes of 10); over its grammar and
/// its limits (3, 8, 9 and the tables of 10); over its names and types (4, 5, 6). In a pass the
/// first position decides, and at one position the least kind.
pub fn read_policy(alloc: Global, text: &[u8]) -> Result<Policy, ReadError>
    ensures policy { IfOk result (λ policy. IsTextOf policy text.now) }
    ensures refused { IfErr result (IsRefused text.now) }
{
    one_file();
    outline_laws();
    match read_tokens(alloc, text) {
        Ok(tokens) => policy_of(alloc, &tokens),
        Err(TokensError::Fault { position, kind }) => Err(refused(position, kind.number())),
        Err(TokensError::NoMemory) => Err(ReadError::NoMemory),
    }
}

fn refused(position: Position, kind: u8) -> ReadError
    ensures { result ≡ Refused position.line position.column kind }
{
    ReadError::Refused {
        line: position.line,
        column: position.column,
        kind,
    }
}

// The position of the token that has so many ahead of it, or of the end.
fn token_position(tokens: &Tokens, index: usize) -> Position
    ensures { result ≡ token_position tokens.now index }
{
    match tokens.items().get(index) {
        Some(token) => token.position,
        None => tokens.end(),
    }
}

// The policy of tokens.
fn policy_of(alloc: Global, tokens: &Tokens) -> Result<Policy, ReadError>
    requires { length tokens.now.tokens ≤ most_bytes }
    ensures policy { IfOk result (λ policy. IsPolicyOf policy (plain tokens.now)) }
    ensures wrong { IfErr result (IsWrong tokens.now) }
{
    match read_outline(alloc, tokens.items()) {
        Ok(outline) => outlined_policy(alloc, tokens, &outline),
        Err(OutlineError::Fault { token, kind }) => {
            Err(refused(token_position(tokens, token), kind.number()))
        }
        Err(OutlineError::NoMemory) => Err(ReadError::NoMemory),
    }
}

// The policy of what was read of tokens.
fn outlined_policy(alloc: Global, tokens: &Tokens, outline: &Outline) -> Result<Policy, ReadError>
    requires { IsOutline (plain tokens.now) outline.now.events.items outline.now.nodes.items }
    ensures policy { IfOk result (λ policy. IsPolicyOf policy (plain tokens.now)) }
    ensures wrong { IfErr result (IsWrong tokens.now) }
{
    let parts = build(alloc, &outline.events)?;
    match first_name_fault(alloc, &parts.tables, &parts.body, &outline.nodes)? {
        Some(fault) => {
            let token = site_token(&parts.tables, &outline.nodes, fault.site);
            Err(refused(token_position(tokens, token), fault.kind.number()))
        }
        None => built_policy(alloc, parts),
    }
}

// The policy of parts that are well formed: nothing is wrong with them.
fn built_policy(alloc: Global, parts: PolicyParts) -> Result<Policy, ReadError>
    requires few { length parts.tables.items ≤ most_tables }
    requires formed { IsWellFormed parts.tables.items (tree_of parts.body) }
    ensures tables { IfOk result (λ policy. policy.tables ≡ parts.tables.items) }
    ensures learning { IfOk result (λ policy. policy.learning ≡ parts.learning) }
    ensures body { IfOk result (λ policy. policy.body ≡ parts.body) }
    ensures error { IfErr result (λ error. error ≡ no_memory) }
{
    let PolicyParts {
        tables,
        learning,
        body,
    } = parts;
    match Policy::build(alloc, tables, learning, body) {
        Ok(policy) => Ok(policy),
        Err(BuildError::Fault { .. }) => unreachable!(),
        Err(BuildError::NoMemory) => Err(ReadError::NoMemory),
    }
}
