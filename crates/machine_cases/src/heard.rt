// What a session makes of a message, as text.
use case_text::push_hex;
use maple_base::Port;
use std::alloc::AllocError;
use switch_session::Heard;

/// Appends what a session makes of a message.
pub fn push_heard(heard: &Heard, out: &mut String) -> Result<(), AllocError> {
    match heard {
        Heard::Passed => out.push_str("passed"),
        Heard::Features { dpid, ports } => push_features(*dpid, ports.items(), out),
        Heard::PacketIn {
            buffer,
            in_port,
            frame,
        } => {
            write!(out, "packet {buffer} {in_port}:")?;
            push_hex(frame.items(), out)
        }
        Heard::Port { port, up } => write!(out, "port {port} {up}"),
        Heard::Acknowledged { ready } => out.push_str(if *ready { "ready" } else { "done" }),
        Heard::Refused { kind, code, quiet } => write!(out, "refused {kind} {code} {quiet}"),
        Heard::Ended(end) => write!(out, "ended {end:?}"),
    }
}

fn push_features(dpid: u64, ports: &[Port], out: &mut String) -> Result<(), AllocError> {
    write!(out, "features {dpid}")?;
    for port in ports {
        write!(out, " {} {}", port.number, port.up)?;
    }
    Ok(())
}
