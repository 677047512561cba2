// Moves of a world.
ghost use Rattle.std.specs.Prelude.{IfOk};
ghost use Rattle.machine_cases.specs.Entries.{IsPlainMove};

use crate::entries::entry_of;
use crate::packet_entries::arrival_of;
use case_text::{CaseStop, Words};
use packet_key::key_of;
use std::alloc::Global;
use world_model::Move;

/// The move of a call: `machine` and an entry, `look` and a packet, or what the switch of a connection is to do.
pub fn move_of(alloc: Global, call: Words<'_>) -> Result<Move, CaseStop>
    ensures { IfOk result (λ step. IsPlainMove step) }
{
    let mut words = call;
    match words.word() {
        "machine" => Ok(Move::Machine(entry_of(alloc, words)?)),
        "look" => look_of(alloc, words),
        _ => switch_move(call),
    }
}

fn look_of(alloc: Global, words: Words<'_>) -> Result<Move, CaseStop>
    ensures { IfOk result (λ step. IsPlainMove step) }
{
    let arrival = arrival_of(alloc, words.rest())?;
    let Ok(key) = key_of(arrival.port, &arrival.frame) else {
        return Err(CaseStop::Unread);
    };
    Ok(Move::Look(arrival.connection, key))
}

// take C, answer C, process C PLACE, refuse C PLACE
fn switch_move(call: Words<'_>) -> Result<Move, CaseStop>
    ensures { IfOk result (λ step. IsPlainMove step) }
{
    let mut words = call;
    let verb = words.word();
    let connection = words.number_u32()?;
    match verb {
        "take" => Ok(Move::Take(connection)),
        "answer" => Ok(Move::Answer(connection)),
        "process" => Ok(Move::Process(connection, words.number_u32()?)),
        "refuse" => Ok(Move::Refuse(connection, words.number_u32()?)),
        _ => Err(CaseStop::Unread),
    }
}
