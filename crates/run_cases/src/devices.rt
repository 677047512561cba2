// The devices of a run, each with the ports of the program's own.
ghost use Rattle.std.specs.Prelude.{◌≡◌, [], IfOk};
ghost use Rattle.model_switch.specs.Meanings.{of_backward, of_failing, of_liar, of_logged, of_orderly, of_refusing};

use case_text::{CaseStop, Words};
use maple_top::{MOST_RULES, PORTS};
use model_switch::{Backward, Failing, Liar, Logged, Orderly, Refusing};
use std::alloc::{AllocError, Global};

/// A device.
#[derive(Clone, Copy)]
pub enum Kind {
    /// As the program's own at this place.
    Shuffled(u64),
    /// With this datapath id, and room for so many rules.
    Orderly(u64, u16),
    /// With this datapath id.
    Backward(u64),
    /// With this datapath id, and it keeps its calls.
    Logged(u64),
    /// With the datapath id 1; its call of this number fails.
    Failing(u64),
    /// With the datapath id 1; it refuses the flow mods of these numbers, where 0 is that of none.
    Refusing([u64; 2]),
    /// With the datapath id 1; its turn of the first number tells the lie of the second.
    Liar(u64, usize),
}

/// The device that these words tell. What a liar says is put behind the lies of others.
pub fn kind_of(
    mut call: Words<'_>,
    alloc: Global,
    lies: &mut Vec<Vec<u8>>,
) -> Result<Kind, CaseStop> {
    match call.word() {
        "shuffled" => Ok(Kind::Shuffled(call.number()?)),
        "orderly" => Ok(Kind::Orderly(call.number()?, call.number_u16()?)),
        "backward" => Ok(Kind::Backward(call.number()?)),
        "logged" => Ok(Kind::Logged(call.number()?)),
        "failing" => Ok(Kind::Failing(call.number()?)),
        "refusing" => refusing_of(call),
        "liar" => liar_of(call, alloc, lies),
        _ => Err(CaseStop::Unread),
    }
}

// One number or two.
fn refusing_of(mut call: Words<'_>) -> Result<Kind, CaseStop> {
    let first = call.number()?;
    let second = if call.is_empty() { 0 } else { call.number()? };
    Ok(Kind::Refusing([first, second]))
}

fn liar_of(mut call: Words<'_>, alloc: Global, lies: &mut Vec<Vec<u8>>) -> Result<Kind, CaseStop> {
    let at = call.number()?;
    let number = lies.len();
    lies.push(call.bytes(alloc)?)?;
    Ok(Kind::Liar(at, number))
}

pub fn orderly(alloc: Global, dpid: u64, room: u16) -> Orderly
    ensures { (of_orderly result).pending ≡ [] }
{
    Orderly::new(alloc, dpid, PORTS, room as u32)
}

pub fn backward(alloc: Global, dpid: u64) -> Backward
    ensures { (of_backward result).pending ≡ [] }
{
    Backward::new(alloc, dpid, PORTS, MOST_RULES)
}

pub fn logged(alloc: Global, dpid: u64) -> Logged
    ensures { (of_logged result).pending ≡ [] }
{
    Logged::new(alloc, orderly(alloc, dpid, MOST_RULES as u16))
}

pub fn failing(alloc: Global, call: u64) -> Result<Failing, AllocError>
    ensures { IfOk result (λ device. (of_failing device).pending ≡ []) }
{
    let fails = vec![in alloc; call]?;
    Ok(Failing::new(orderly(alloc, 1, MOST_RULES as u16), fails))
}

pub fn refusing(alloc: Global, numbers: [u64; 2]) -> Result<Refusing, AllocError>
    ensures { IfOk result (λ device. (of_refusing device).pending ≡ []) }
{
    let refuses = Vec::from_slice(alloc, &numbers)?;
    Ok(Refusing::new(orderly(alloc, 1, MOST_RULES as u16), refuses))
}

pub fn liar(alloc: Global, at: u64, lie: &[u8]) -> Result<Liar, AllocError>
    ensures { IfOk result (λ device. (of_liar device).pending ≡ []) }
{
    let bytes = Vec::from_slice(alloc, lie)?;
    Ok(Liar::new(orderly(alloc, 1, MOST_RULES as u16), at, bytes))
}
