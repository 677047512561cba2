// Commands as text.
use crate::spelling::push_tail;
use case_text::push_text;
use case_values::{push_key, push_place};
use script_text::Command;
use std::alloc::AllocError;

/// Appends a command.
pub fn push_command(command: &Command, out: &mut String) -> Result<(), AllocError> {
    match command {
        Command::Nothing => out.push_str("nothing"),
        Command::Plug(device) => write!(out, "plug {device}"),
        Command::Unplug(device) => write!(out, "unplug {device}"),
        Command::NoHost(address) => write!(out, "nohost {address}"),
        Command::Rules(switch) => write!(out, "rules {switch}"),
        Command::Turn(device, turns) => write!(out, "turn {device} {turns}"),
        Command::Settle => out.push_str("settle"),
        Command::NewPolicy => out.push_str("newpolicy"),
        Command::Quit => out.push_str("quit"),
        _ => push_change(command, out),
    }
}

fn push_change(command: &Command, out: &mut String) -> Result<(), AllocError> {
    match command {
        Command::Host(address, place) => {
            write!(out, "host {address} ")?;
            push_place(*place, out)
        }
        Command::Link(from, to) => {
            write!(out, "link {} {} ", from.switch, from.port)?;
            push_place(*to, out)
        }
        Command::NoLink(from) => write!(out, "nolink {} {}", from.switch, from.port),
        Command::Set(name, key, value) => {
            out.push_str("set ")?;
            push_text(name.text(), out)?;
            write!(out, " {key} {value}")
        }
        Command::Unset(name, key) => {
            out.push_str("unset ")?;
            push_text(name.text(), out)?;
            write!(out, " {key}")
        }
        Command::Packet(device, spec) => {
            write!(out, "packet {device} ")?;
            push_key(spec.key(), out)
        }
        Command::Frame(device, port, bytes) => {
            write!(out, "frame {device} {port}")?;
            push_tail(bytes.items(), out)
        }
        _ => out.push_str("another"),
    }
}
