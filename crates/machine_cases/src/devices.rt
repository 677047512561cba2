// Devices, call by call.
use crate::begun::Begins;
use crate::messages::push_sent;
use crate::offers::is_offer;
use case_text::{CaseStop, Words};
use case_values::push_actions;
use device_port::{Device, Took};
use maple_base::Seen;
use model_switch::{Backward, Failing, Logged, Orderly, Shuffled};
use std::alloc::Global;

// The most bytes of a frame.
const MOST_BYTES: usize = 65_517;

/// A device with the datapath id 1, three ports and room for two rules.
#[derive(Drop)]
pub enum Tried {
    Orderly(Orderly),
    Logged(Logged),
    Backward(Backward),
    Shuffled(Shuffled),
    Failing(Failing),
}

impl Begins for Tried {
    // new orderly, new logged, new backward, new shuffled SEED, new failing CALL .., whose calls of these numbers fail
    fn begin(alloc: Global, mut words: Words<'_>) -> Result<Tried, CaseStop> {
        match words.word() {
            "orderly" => Ok(Tried::Orderly(orderly(alloc))),
            "logged" => Ok(Tried::Logged(Logged::new(alloc, orderly(alloc)))),
            "backward" => Ok(Tried::Backward(Backward::new(alloc, 1, 3, 2))),
            "shuffled" => shuffled(alloc, words),
            "failing" => failing(alloc, words),
            _ => Err(CaseStop::Unread),
        }
    }

    fn tell(&mut self, alloc: Global, call: Words<'_>, out: &mut String) -> Result<(), CaseStop> {
        match self {
            Tried::Orderly(device) => answer(alloc, device, call, out),
            Tried::Logged(device) => answer(alloc, device, call, out),
            Tried::Backward(device) => answer(alloc, device, call, out),
            Tried::Shuffled(device) => answer(alloc, device, call, out),
            Tried::Failing(device) => answer(alloc, device, call, out),
        }
    }
}

fn orderly(alloc: Global) -> Orderly {
    Orderly::new(alloc, 1, 3, 2)
}

fn shuffled(alloc: Global, mut words: Words<'_>) -> Result<Tried, CaseStop> {
    Ok(Tried::Shuffled(Shuffled::new(alloc, 1, 3, 2, words.number()?)))
}

fn failing(alloc: Global, mut words: Words<'_>) -> Result<Tried, CaseStop> {
    let fails = words.numbers(alloc)?;
    Ok(Tried::Failing(Failing::new(orderly(alloc), fails)))
}

// Appends the answer to a call.
fn answer<D: Device>(
    alloc: Global,
    device: &mut D,
    call: Words<'_>,
    out: &mut String,
) -> Result<(), CaseStop> {
    let mut words = call;
    match words.word() {
        "offer" => offer(alloc, device, words, out),
        "turn" => turn(alloc, device, out),
        "packet" => packet(alloc, device, words, out),
        "faults" => Ok(write!(out, "{}", device.faults())?),
        "boxed" => boxed(alloc, words, out),
        _ => Err(CaseStop::Unread),
    }
}

// boxed CALL / CALL ..: the answers to calls on a new orderly device in a box, parted in the same way.
fn boxed(alloc: Global, words: Words<'_>, out: &mut String) -> Result<(), CaseStop> {
    let mut device: Box<dyn Device + Send> = Box::new(alloc, orderly(alloc))?;
    let mut is_first = true;
    for call in words.rest().split(" / ") {
        out.push_str(if is_first { "" } else { " / " })?;
        in_box(alloc, &mut device, Words::new(call), out)?;
        is_first = false;
    }
    Ok(())
}

fn in_box(
    alloc: Global,
    device: &mut Box<dyn Device + Send>,
    call: Words<'_>,
    out: &mut String,
) -> Result<(), CaseStop> {
    let mut words = call;
    match words.word() {
        "offer" => offer(alloc, device, words, out),
        "turn" => turn(alloc, device, out),
        "packet" => packet(alloc, device, words, out),
        "faults" => Ok(write!(out, "{}", device.faults())?),
        _ => Err(CaseStop::Unread),
    }
}

// offer BYTES
fn offer<D: Device>(
    alloc: Global,
    device: &mut D,
    words: Words<'_>,
    out: &mut String,
) -> Result<(), CaseStop> {
    let message = words.bytes(alloc)?;
    if !is_offer(alloc, &message) {
        return Err(CaseStop::Unread);
    }
    match device.offer(&message) {
        Took::Taken => Ok(out.push_str("taken")?),
        Took::Failed => Ok(out.push_str("failed")?),
        Took::NoMemory => Err(CaseStop::NoMemory),
    }
}

// turn: what was done, and the bytes that are sent.
fn turn<D: Device>(alloc: Global, device: &mut D, out: &mut String) -> Result<(), CaseStop> {
    let mut sent = Vec::new(alloc);
    let turned = device.turn(&mut sent);
    write!(out, "{turned:?}")?;
    Ok(push_sent(&sent, out)?)
}

// packet PORT BYTES
fn packet<D: Device>(
    alloc: Global,
    device: &mut D,
    mut words: Words<'_>,
    out: &mut String,
) -> Result<(), CaseStop> {
    let port = words.number_u16()?;
    let frame = words.bytes(alloc)?;
    if frame.len() > MOST_BYTES {
        return Err(CaseStop::Unread);
    }
    let mut sent = Vec::new(alloc);
    let seen = device.packet(port, &frame, &mut sent);
    push_seen(seen, out)?;
    Ok(push_sent(&sent, out)?)
}

/// Appends what a packet met: `hit ACTIONS`, `miss REASON` or `failed`.
pub fn push_seen(seen: Seen, out: &mut String) -> Result<(), CaseStop> {
    match seen {
        Seen::Hit(actions) => {
            out.push_str("hit ")?;
            Ok(push_actions(&actions, out)?)
        }
        Seen::Miss { reason } => Ok(write!(out, "miss {reason}")?),
        Seen::Failed => Ok(out.push_str("failed")?),
        Seen::NoMemory => Err(CaseStop::NoMemory),
    }
}
