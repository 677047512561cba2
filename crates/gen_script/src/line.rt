// The lines of the script.
ghost use Rattle.std.specs.Prelude.{◌≡◌, ◌++◌, OnOk};
ghost use Rattle.report_text.specs.Report.{◌&◌};
ghost use Rattle.gen_script.specs.Lines.{address, source_text, spelled};

use crate::pieces::{push_number, push_pair};
use std::alloc::AllocError;

/// A line of the script. Hosts and sources are named by the last byte of their address.
#[derive(Clone, Copy)]
pub enum ScriptLine {
    /// `plug C`.
    Plug {
        device: u8,
    },
    /// `settle`.
    Settle,
    /// `link S P S P`.
    Link {
        switch: u8,
        port: u8,
        to_switch: u8,
        to_port: u8,
    },
    /// `host M S P`: the host is behind the port of its own number and ten.
    Host {
        host: u8,
        switch: u8,
    },
    /// `set blocked A 1`.
    Block {
        source: u8,
    },
    /// `unset blocked A`.
    Unblock {
        source: u8,
    },
    /// `packet C P` from a source to a host's address and TCP port 80.
    Packet {
        device: u8,
        port: u8,
        host: u8,
        source: u8,
    },
    /// `quit`.
    Quit,
}

/// Appends a line, with its line feed.
pub fn push_line(text: &mut Vec<u8>, line: ScriptLine) -> Result<(), AllocError>
    ensures { OnOk result (text.new.items ≡ text.old.items ++ spelled line) }
{
    match line {
        ScriptLine::Plug { device } => push_plug(text, device),
        ScriptLine::Settle => text.extend_from_slice(b"settle\n"),
        ScriptLine::Link {
            switch,
            port,
            to_switch,
            to_port,
        } => push_link(text, switch, port, to_switch, to_port),
        ScriptLine::Host { host, switch } => push_host(text, host, switch),
        ScriptLine::Block { source } => push_block(text, source),
        ScriptLine::Unblock { source } => push_unblock(text, source),
        ScriptLine::Packet {
            device,
            port,
            host,
            source,
        } => push_packet(text, device, port, host, source),
        ScriptLine::Quit => text.extend_from_slice(b"quit\n"),
    }
}

fn push_plug(text: &mut Vec<u8>, device: u8) -> Result<(), AllocError>
    ensures { OnOk result (text.new.items ≡ text.old.items ++ spelled (ScriptLine.Plug device)) }
{
    push_number(text, b"plug ", device as u64)?;
    text.extend_from_slice(b"\n")
}

fn push_link(
    text: &mut Vec<u8>,
    switch: u8,
    port: u8,
    to_switch: u8,
    to_port: u8,
) -> Result<(), AllocError>
    ensures { OnOk result (text.new.items ≡ text.old.items ++ spelled (ScriptLine.Link switch port to_switch to_port)) }
{
    push_number(text, b"link ", switch as u64)?;
    push_number(text, b" ", port as u64)?;
    push_number(text, b" ", to_switch as u64)?;
    push_number(text, b" ", to_port as u64)?;
    text.extend_from_slice(b"\n")
}

fn push_host(text: &mut Vec<u8>, host: u8, switch: u8) -> Result<(), AllocError>
    ensures { OnOk result (text.new.items ≡ text.old.items ++ spelled (ScriptLine.Host host switch)) }
{
    push_address(text, b"host ", host)?;
    push_number(text, b" ", switch as u64)?;
    push_number(text, b" ", 10 + host as u64)?;
    text.extend_from_slice(b"\n")
}

fn push_block(text: &mut Vec<u8>, source: u8) -> Result<(), AllocError>
    ensures { OnOk result (text.new.items ≡ text.old.items ++ spelled (ScriptLine.Block source)) }
{
    push_source(text, b"set blocked ", source)?;
    text.extend_from_slice(b" 1\n")
}

fn push_unblock(text: &mut Vec<u8>, source: u8) -> Result<(), AllocError>
    ensures { OnOk result (text.new.items ≡ text.old.items ++ spelled (ScriptLine.Unblock source)) }
{
    push_source(text, b"unset blocked ", source)?;
    text.extend_from_slice(b"\n")
}

fn push_packet(
    text: &mut Vec<u8>,
    device: u8,
    port: u8,
    host: u8,
    source: u8,
) -> Result<(), AllocError>
    ensures { OnOk result (text.new.items ≡ text.old.items ++ spelled (ScriptLine.Packet device port host source)) }
{
    push_number(text, b"packet ", device as u64)?;
    push_number(text, b" ", port as u64)?;
    push_address(text, b" dl_dst=", host)?;
    push_source(text, b" nw_src=", source)?;
    text.extend_from_slice(b" tp_dst=80\n")
}

// A text and the Ethernet address of a host.
fn push_address(text: &mut Vec<u8>, head: &[u8], host: u8) -> Result<(), AllocError>
    ensures { OnOk result (text.new.items ≡ text.old.items ++ (head.now & address host)) }
{
    text.extend_from_slice(head)?;
    push_pair(text, b"02:00:00:00:00:", host)
}

// A text and the IP address of a source.
fn push_source(text: &mut Vec<u8>, head: &[u8], source: u8) -> Result<(), AllocError>
    ensures { OnOk result (text.new.items ≡ text.old.items ++ (head.now & source_text source)) }
{
    text.extend_from_slice(head)?;
    push_number(text, b"10.0.0.", source as u64)
}
