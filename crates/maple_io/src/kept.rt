// What a board over memory keeps: where it stands in its turns, what it took, which connections were closed.
ghost use Rattle.std.specs.Prelude.{◌≡◌, ℕ, ◌<◌, ◌≤◌, ◌++◌, ◌∷◌, [], true, false, IfOk, OnErr, OnOk, None, vec_len, vec_capacity};
ghost use Rattle.std.specs.Prelude.{Some, if◌then◌else◌, ◌==◌, ◌+◌, length, map, min, take, drop};
ghost use Rattle.std.specs.List.{flat_map};
ghost use Rattle.maple_base.specs.Counts.{HasRisen};
ghost use Rattle.maple_io.specs.Turns.{IsBreak, broken_turns, given_acts};
ghost use Rattle.maple_io.specs.Schedules.{are_pieces, bytes_of, has_bytes, left_behind, next_bytes, next_turn, opens_in, rest_of, turn_of};
ghost use Rattle.maple_io.specs.Kept.{cut, has_link, is_closed, left_at, marked, more_at, taken_for};

use crate::memory::copy_from;
use crate::{MemTurn, Piece, Turn};
use maple_base::NoMemory;
use std::alloc::Global;

/// The turn that comes next, by its index, and how many of its bytes were given.
#[derive(Clone, Copy)]
pub struct Cursor {
    pub turn: usize,
    pub byte: usize,
}

/// Bytes that were taken for a connection.
#[derive(Drop)]
pub struct Taken {
    pub connection: u32,
    pub bytes: Piece,
}

/// A connection that is opened in some turn, and whether it was closed.
#[derive(Clone, Copy)]
pub struct Link {
    pub connection: u32,
    pub closed: bool,
}

/// Gives the turn that comes next, with as many of its bytes as fit, and tells where the one behind
/// it stands.
pub fn give_next(turns: &[MemTurn], from: Cursor, into: &mut [u8]) -> (Turn, Cursor)
    requires { are_pieces (left_at from turns.now) ≡ true }
    ensures turn { result.0 ≡ next_turn (left_at from turns.now) (length into.old) }
    ensures bytes { given_acts result.0 into.new ≡ given_acts result.0 (next_bytes (left_at from turns.now)) }
    ensures left { left_at result.1 turns.now ≡ left_behind result.0 (left_at from turns.now) }
{
    let Some(turn) = turns.get(from.turn) else {
        return (Turn::End, from);
    };
    match give(turn, from.byte, into) {
        (given, Some(byte)) => (
            given,
            Cursor {
                turn: from.turn,
                byte,
            },
        ),
        (given, None) => (
            given,
            Cursor {
                turn: from.turn + 1,
                byte: 0,
            },
        ),
    }
}

// Gives a turn from one of its bytes on, and tells from which byte on there is more of it.
fn give(turn: &MemTurn, byte: usize, into: &mut [u8]) -> (Turn, Option<usize>)
    requires { has_bytes (cut byte turn.now) ≡ true }
    ensures turn { result.0 ≡ turn_of (cut byte turn.now) (length into.old) }
    ensures bytes { given_acts result.0 into.new ≡ given_acts result.0 (bytes_of (cut byte turn.now)) }
    ensures more { more_at result.1 turn.now ≡ rest_of result.0 (cut byte turn.now) }
{
    match turn {
        MemTurn::Opened(connection) => (Turn::Opened(*connection), None),
        MemTurn::Bytes(connection, piece) => {
            let (count, more) = give_bytes(piece.items(), byte, into);
            (Turn::Bytes(*connection, count), more)
        }
        MemTurn::Closed(connection) => (Turn::Closed(*connection), None),
        MemTurn::Broken(connection) => (Turn::Broken(*connection), None),
        MemTurn::Control(piece) => {
            let (count, more) = give_bytes(piece.items(), byte, into);
            (Turn::Control(count), more)
        }
        MemTurn::Idle => (Turn::Idle, None),
        MemTurn::End => (Turn::End, None),
    }
}

// Copies what fits of a piece from one of its bytes on, and tells how many bytes that was and from which on there is more.
fn give_bytes(piece: &[u8], from: usize, into: &mut [u8]) -> (usize, Option<usize>)
    requires { from ≤ length piece.now }
    ensures count { result.0 ≡ min (length (drop from piece.now)) (length into.old) }
    ensures bytes { take result.0 into.new ≡ take result.0 (drop from piece.now) }
    ensures more { result.1 ≡ (if result.0 == length (drop from piece.now) then None else Some (from + result.0)) }
{
    let count = copy_from(piece, from, into);
    if count == piece.len() - from {
        (count, None)
    } else {
        (count, Some(from + count))
    }
}

/// How many connections broke, with this turn.
pub fn breaks_after(breaks: u64, turn: Turn) -> u64
    ensures counted { result ≡ broken_turns breaks turn }
    ensures broken { IsBreak turn → HasRisen breaks result }
    ensures count { breaks ≤ result }
    ensures whole { (IsBreak turn → ⊥) → result ≡ breaks }
{
    match turn {
        Turn::Broken(_) => breaks.saturating_add(1),
        _ => breaks,
    }
}

/// Keeps bytes for a connection.
pub fn keep(
    alloc: Global,
    taken: &mut Vec<Taken>,
    connection: u32,
    piece: &[u8],
) -> Result<(), NoMemory>
    ensures kept { OnOk result (taken.new.items ≡ taken.old.items ++ (record { connection = connection; bytes = piece.now }) ∷ []) }
    ensures same { OnErr result (taken.new.items ≡ taken.old.items) }
{
    let bytes = Piece::new(Vec::from_slice(alloc, piece)?);
    taken.push(Taken { connection, bytes })?;
    Ok(())
}

/// Appends the bytes that were taken for a connection, or none of them.
pub fn append_taken(taken: &[Taken], connection: u32, out: &mut Vec<u8>) -> Result<(), NoMemory>
    ensures all { OnOk result (out.new.items ≡ out.old.items ++ flat_map (taken_for connection) taken.now) }
    ensures kept { OnErr result (out.new.items ≡ out.old.items) }
    ensures room { OnErr result (vec_capacity out.old < vec_len out.old + length (flat_map (taken_for connection) taken.now)) }
{
    let before = out.len();
    for part in taken {
        if part.connection == connection {
            let Ok(()) = out.extend_from_slice(part.bytes.items()) else {
                out.truncate(before);
                return Err(NoMemory);
            };
        }
    }
    Ok(())
}

/// A link for each connection that is opened in some turn, of which none is closed.
pub fn links_of(alloc: Global, turns: &[MemTurn]) -> Result<Vec<Link>, NoMemory>
    ensures links { IfOk result (λ links. (c : ℕ) → has_link c links.items ≡ opens_in c turns.now) }
    ensures open { IfOk result (λ links. (c : ℕ) → is_closed c links.items ≡ false) }
{
    let mut links = Vec::new(alloc);
    for turn in turns {
        if let MemTurn::Opened(connection) = turn {
            links.push(Link {
                connection: *connection,
                closed: false,
            })?;
        }
    }
    Ok(links)
}

/// Marks a connection as closed.
pub fn close_links(links: &mut [Link], connection: u32)
    ensures { links.new ≡ map (marked connection) links.old }
{
    for link in links.iter_mut() {
        mark(link, connection);
    }
}

fn mark(link: &mut Link, connection: u32)
    ensures { link.new ≡ marked connection link.old }
{
    if link.connection == connection {
        link.closed = true;
    }
}

/// Whether a connection has a link.
pub fn has_link(links: &[Link], connection: u32) -> bool
    ensures { result ≡ has_link connection links.now }
{
    links.iter().any(|link| link.connection == connection)
}

/// Whether a connection is marked as closed.
pub fn is_closed(links: &[Link], connection: u32) -> bool
    ensures { result ≡ is_closed connection links.now }
{
    links
        .iter()
        .any(|link| link.connection == connection && link.closed)
}
