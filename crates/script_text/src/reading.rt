// Reading the lines of a script.
ghost use Rattle.std.specs.Prelude.{◌≡◌, true, ◌<◌, ◌≤◌, ◌↔◌, None, Some, IfOk, IfSome, length};
ghost use Rattle.std.specs.Option.{option_map};
ghost use Rattle.maple_text.specs.Parts.{rest_parts};
ghost use Rattle.script_text.specs.Hexadecimal.{are_pairs};
ghost use Rattle.script_text.specs.Grammar.{IsLine, IsNoLine, IsFrameLine, most_bytes};
ghost use Rattle.script_text.specs.Reading.{port_of, address_of, turns_of, place_of, alone, packet_command, frame_words, command_of, is_silent, line_command, holds_bytes};

use crate::hexadecimal::{are_pairs, paired_bytes};
use crate::packet_fields::{key_by, named_fields};
use crate::verb::Verb;
use crate::words::{four_words, is_empty, name_of, number_below, one_word, three_words, two_parts};
use crate::{Command, LineError, PacketSpec};
use maple_base::{Bytes, Place};
use maple_text::{cut, value_of};
use std::alloc::Global;

const MOST_BYTES: usize = 8_192;

const MOST_TURNS: u64 = 100_000;

/// The command of a line of a script. Its words are parted by single spaces; numbers have any
/// spelling of `value_of`. An empty line, and one that begins with `#`, say nothing.
///
/// # Errors
///
/// `TooLong` exactly where the line has more than 8,192 bytes, else `Grammar` exactly where it is
/// no line of a script. Only the bytes of a `Frame` take memory.
pub fn read_line(alloc: Global, line: &[u8]) -> Result<Command, LineError>
    ensures command { IfOk result (IsLine line.now) }
    ensures too_long { (result ≡ Err LineError.TooLong) ↔ (most_bytes < length line.now) }
    ensures grammar { (result ≡ Err LineError.Grammar) ↔ ((length line.now ≤ most_bytes) × IsNoLine line.now) }
    ensures memory { result ≡ Err LineError.NoMemory → IsFrameLine line.now }
{
    if line.len() > MOST_BYTES {
        Err(LineError::TooLong)
    } else {
        line_command(alloc, line)
    }
}

fn line_command(alloc: Global, line: &[u8]) -> Result<Command, LineError>
    ensures command { IfOk result (λ command. line_command line.now ≡ Some command) }
    ensures short { result ≡ Err LineError.TooLong → ⊥ }
    ensures grammar { (result ≡ Err LineError.Grammar) ↔ (line_command line.now ≡ None) }
    ensures memory { result ≡ Err LineError.NoMemory → holds_bytes (line_command line.now) ≡ true }
{
    if is_silent(line) {
        return Ok(Command::Nothing);
    }
    let (word, rest) = cut(b' ', line);
    match Verb::named(word) {
        None => Err(LineError::Grammar),
        Some(Verb::Frame) => frame_command(alloc, rest),
        Some(verb) => command_of(verb, rest).ok_or(LineError::Grammar),
    }
}

fn is_silent(line: &[u8]) -> bool
    ensures { result ≡ is_silent line.now }
{
    match line {
        [] => true,
        [first, ..] => *first == b'#',
    }
}

fn port_of(word: &[u8]) -> Option<u16>
    ensures { result ≡ port_of word.now }
{
    let port = number_below(1 << 16, word)?;
    Some(port as u16)
}

fn address_of(word: &[u8]) -> Option<u64>
    ensures { result ≡ address_of word.now }
{
    number_below(1 << 48, word)
}

fn turns_of(word: &[u8]) -> Option<u32>
    ensures { result ≡ turns_of word.now }
{
    let turns = number_below(MOST_TURNS + 1, word)?;
    if 1 <= turns { Some(turns as u32) } else { None }
}

fn place_of(switch: &[u8], port: &[u8]) -> Option<Place>
    ensures { result ≡ place_of switch.now port.now }
{
    let switch = value_of(switch)?;
    let port = port_of(port)?;
    Some(Place {
        switch,
        port: port as u64,
    })
}

fn alone(rest: Option<&[u8]>, command: Command) -> Option<Command>
    ensures { result ≡ alone (rest_parts 32 rest.entry) command }
{
    if is_empty(rest) { Some(command) } else { None }
}

fn packet_command(rest: Option<&[u8]>) -> Option<Command>
    ensures { result ≡ packet_command (rest_parts 32 rest.entry) }
{
    let (device, rest) = cut(b' ', rest?);
    let (port, rest) = cut(b' ', rest?);
    let device = value_of(device)?;
    let port = port_of(port)?;
    let fields = named_fields(rest)?;
    let spec = PacketSpec::new(key_by(port, fields))?;
    Some(Command::Packet(device, spec))
}

fn command_of(verb: Verb, rest: Option<&[u8]>) -> Option<Command>
    requires { verb ≡ Verb.Frame → ⊥ }
    ensures { result ≡ command_of verb (rest_parts 32 rest.entry) }
{
    match verb {
        Verb::Plug => Some(Command::Plug(value_of(one_word(rest?)?)?)),
        Verb::Unplug => Some(Command::Unplug(value_of(one_word(rest?)?)?)),
        Verb::Packet => packet_command(rest),
        Verb::Frame => unreachable!(),
        Verb::Turn => turn_command(rest),
        Verb::Settle => alone(rest, Command::Settle),
        Verb::Host => host_command(rest),
        Verb::NoHost => Some(Command::NoHost(address_of(one_word(rest?)?)?)),
        Verb::Link => link_command(rest),
        Verb::NoLink => nolink_command(rest),
        Verb::Set => set_command(rest),
        Verb::Unset => unset_command(rest),
        Verb::NewPolicy => alone(rest, Command::NewPolicy),
        Verb::Rules => Some(Command::Rules(value_of(one_word(rest?)?)?)),
        Verb::Quit => alone(rest, Command::Quit),
    }
}

fn turn_command(rest: Option<&[u8]>) -> Option<Command>
    ensures { result ≡ command_of Verb.Turn (rest_parts 32 rest.entry) }
{
    let (device, turns) = two_parts(b' ', rest?)?;
    Some(Command::Turn(value_of(device)?, turns_of(turns)?))
}

fn host_command(rest: Option<&[u8]>) -> Option<Command>
    ensures { result ≡ command_of Verb.Host (rest_parts 32 rest.entry) }
{
    let (address, switch, port) = three_words(rest?)?;
    Some(Command::Host(address_of(address)?, place_of(switch, port)?))
}

fn link_command(rest: Option<&[u8]>) -> Option<Command>
    ensures { result ≡ command_of Verb.Link (rest_parts 32 rest.entry) }
{
    let (switch, port, to_switch, to_port) = four_words(rest?)?;
    let from = place_of(switch, port)?;
    let to = place_of(to_switch, to_port)?;
    Some(Command::Link(from, to))
}

fn nolink_command(rest: Option<&[u8]>) -> Option<Command>
    ensures { result ≡ command_of Verb.NoLink (rest_parts 32 rest.entry) }
{
    let (switch, port) = two_parts(b' ', rest?)?;
    Some(Command::NoLink(place_of(switch, port)?))
}

fn set_command(rest: Option<&[u8]>) -> Option<Command>
    ensures { result ≡ command_of Verb.Set (rest_parts 32 rest.entry) }
{
    let (name, key, value) = three_words(rest?)?;
    Some(Command::Set(name_of(name)?, value_of(key)?, value_of(value)?))
}

fn unset_command(rest: Option<&[u8]>) -> Option<Command>
    ensures { result ≡ command_of Verb.Unset (rest_parts 32 rest.entry) }
{
    let (name, key) = two_parts(b' ', rest?)?;
    Some(Command::Unset(name_of(name)?, value_of(key)?))
}

// The command of a frame's words; the one command that takes memory.
fn frame_command(alloc: Global, rest: Option<&[u8]>) -> Result<Command, LineError>
    ensures command { IfOk result (λ command. command_of Verb.Frame (rest_parts 32 rest.entry) ≡ Some command) }
    ensures grammar { (result ≡ Err LineError.Grammar) ↔ (command_of Verb.Frame (rest_parts 32 rest.entry) ≡ None) }
    ensures short { result ≡ Err LineError.TooLong → ⊥ }
    ensures memory { result ≡ Err LineError.NoMemory → holds_bytes (command_of Verb.Frame (rest_parts 32 rest.entry)) ≡ true }
{
    let Some((device, port, digits)) = frame_words(rest) else {
        return Err(LineError::Grammar);
    };
    match paired_bytes(alloc, digits) {
        Ok(bytes) => Ok(Command::Frame(device, port, Bytes::new(bytes))),
        Err(_) => Err(LineError::NoMemory),
    }
}

// A device, a port, and pairs of hexadecimal digits.
fn frame_words(rest: Option<&[u8]>) -> Option<(u64, u16, &[u8])>
    ensures words { option_map (λ w. (w.0, w.1, w.2.now)) result ≡ frame_words (rest_parts 32 rest.entry) }
    ensures digits { IfSome result (λ w. are_pairs w.2.now ≡ true) }
{
    let (device, port, digits) = three_words(rest?)?;
    let device = value_of(device)?;
    let port = port_of(port)?;
    if are_pairs(digits) {
        Some((device, port, digits))
    } else {
        None
    }
}
