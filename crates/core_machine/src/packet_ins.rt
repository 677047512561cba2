// A packet came to the controller.
ghost use Rattle.std.specs.Prelude.{◌≡◌, ◌≤◌, ◌==◌, if◌then◌else◌, [], length, not, true, is_none, IfOk, OnOk, OnErr};
ghost use Rattle.std.specs.List.{list_all};
ghost use Rattle.maple_base.specs.declared.cells.Value.TheVariants.{At};
ghost use Rattle.maple_base.specs.Keys.{valid_key};
ghost use Rattle.env_cells.specs.Refusals.{refusal_of, HasRoomForTables};
ghost use Rattle.maple_base.specs.OpenFlow.{no_buffer};
ghost use Rattle.tree_prune.specs.Current.{same_value};
ghost use Rattle.machine_steps.specs.Sound.{IsSound};
ghost use Rattle.machine_steps.specs.Steps.{begins_at, entry_of, is_individual, is_too_big, teaches};
ghost use Rattle.core_machine.specs.Following.{IsNext};
ghost use Rattle.core_machine.specs.Packets.{HearsPacketOf, TakesIn, TeachesThen, lesson_of};

use crate::next::{Next, follow_now};
use crate::updates::reach_then;
use env_cells::{Update, UpdateError};
use machine_parts::Parts;
use machine_parts::shared::{next_number, tell};
use machine_steps::{Job, JobItem, Reply};
use maple_base::openflow::NO_BUFFER;
use maple_base::{Bytes, Cell, EnvNow, Key, NoMemory, Place, Value, is_port};
use packet_key::key_of;
use report_text::Line;
use std::alloc::Global;
use topo_paths::Scene;

// The most bytes of a packet that is sent back whole.
const MOST_SENT_BACK: usize = 65_391;

// As many jobs may be open at a time.
const MOST_JOBS: usize = 4096;

/// A packet came by a connection, whose session has this switch, in a message, which has at most
/// 65,535 bytes: what it teaches is learned, and a job is opened for it.
///
/// # Errors
///
/// `NoMemory`. Nothing changes then.
pub fn hear_packet(
    parts: &mut Parts,
    connection: u32,
    switch: u64,
    buffer: u32,
    in_port: u16,
    frame: Bytes,
) -> Result<Reply, NoMemory>
    requires sound { IsSound parts.old }
    requires small { length frame ≤ 65535 }
    ensures heard { IfOk result (λ reply. HearsPacketOf connection switch buffer in_port frame parts.old reply parts.new) }
    ensures kept { OnErr result (parts.new ≡ parts.old) }
{
    let device = connection;
    let key = match key_of(in_port, frame.items()) {
        Ok(key) => key,
        Err(fault) => {
            let kind = fault.number();
            tell(parts, Line::Malformed { device, kind })?;
            return Ok(Reply::Malformed(kind));
        }
    };
    if is_too_big(buffer, frame.items()) {
        let bytes = frame.items().len() as u32;
        tell(parts, Line::TooBig { device, bytes })?;
        return Ok(Reply::TooBig(bytes));
    }
    take_in(parts, connection, switch, key, buffer, frame)
}

// Learns what a packet of this key teaches, and opens a job where one more may be open.
fn take_in(
    parts: &mut Parts,
    connection: u32,
    switch: u64,
    key: Key,
    buffer: u32,
    frame: Bytes,
) -> Result<Reply, NoMemory>
    requires sound { IsSound parts.old }
    requires valid { valid_key key ≡ true }
    ensures taken { IfOk result (λ reply. TakesIn connection switch key buffer frame parts.old reply parts.new) }
    ensures kept { OnErr result (parts.new ≡ parts.old) }
{
    if parts.jobs.len() >= MOST_JOBS {
        teach(parts, switch, &key, Next::Overload(connection))?;
        return Ok(Reply::Overload);
    }
    let number = next_number(parts.job_count)?;
    let job = Job {
        number,
        connection,
        switch,
        key,
        buffer,
        frame: kept_frame(parts.alloc, buffer, frame),
    };
    teach(parts, switch, &key, Next::Job(job))?;
    Ok(Reply::Job(JobItem::new(number, switch, key)))
}

// Learns what a packet teaches, and does what follows.
fn teach(parts: &mut Parts, switch: u64, key: &Key, next: Next) -> Result<(), NoMemory>
    requires sound { IsSound parts.old }
    requires next { IsNext next parts.old }
    ensures taught { OnOk result (TeachesThen switch key.now next parts.old parts.new) }
    ensures kept { OnErr result (parts.new ≡ parts.old) }
{
    let Some(update) = lesson(parts, switch, key)? else {
        return follow_now(parts, next);
    };
    match reach_then(parts, &update, next) {
        Ok(_) => Ok(()),
        Err(UpdateError::NoMemory) => Err(NoMemory),
        Err(UpdateError::Refused(_)) => unreachable!(),
    }
}

// The update that a packet teaches, where it isn't refused.
fn lesson(parts: &Parts, switch: u64, key: &Key) -> Result<Option<Update>, NoMemory>
    ensures { IfOk result (λ lesson. lesson ≡ lesson_of switch key.now parts.now) }
{
    if !teaches(parts, switch, key) {
        return Ok(None);
    }
    let update = Update::Host {
        mac: key.dl_src,
        place: entry_of(switch, key),
    };
    if is_accepted(&parts.scene, &update)? {
        Ok(Some(update))
    } else {
        Ok(None)
    }
}

// Whether a packet teaches where its sender is.
fn teaches(parts: &Parts, switch: u64, key: &Key) -> bool
    ensures { result ≡ teaches switch key.now parts.now }
{
    let place = entry_of(switch, key);
    parts.policy.learning()
        && is_individual(key.dl_src)
        && is_port(key.in_port as u64)
        && !is_at(parts.scene.cell(Cell::Host(key.dl_src)), place)
        && no_link_begins(parts.scene.links(), place)
}

// Whether a packet whose bytes came whole is too big to be sent back.
fn is_too_big(buffer: u32, frame: &[u8]) -> bool
    ensures { result ≡ is_too_big buffer frame.now }
{
    buffer == NO_BUFFER && frame.len() > MOST_SENT_BACK
}

// What a job keeps of a packet's bytes: none where the switch keeps them.
fn kept_frame(alloc: Global, buffer: u32, frame: Bytes) -> Bytes
    ensures { result ≡ (if buffer == no_buffer then frame else []) }
{
    if buffer == NO_BUFFER {
        frame
    } else {
        Bytes::new(Vec::new(alloc))
    }
}

// Whether a scene takes an update.
fn is_accepted(scene: &Scene, update: &Update) -> Result<bool, NoMemory>
    requires tables { HasRoomForTables update.now }
    ensures { IfOk result (λ accepted. accepted ≡ is_none (refusal_of scene.now update.now)) }
{
    match scene.behind(update) {
        Ok(_) => Ok(true),
        Err(UpdateError::Refused(_)) => Ok(false),
        Err(UpdateError::NoMemory) => Err(NoMemory),
    }
}

// The place at which a packet came in.
fn entry_of(switch: u64, key: &Key) -> Place
    ensures { result ≡ entry_of switch key.now }
{
    Place {
        switch,
        port: key.in_port as u64,
    }
}

// Whether an Ethernet address is that of one interface.
fn is_individual(mac: u64) -> bool
    ensures { result ≡ is_individual mac }
{
    (mac >> 40) % 2 == 0
}

fn no_link_begins(links: &[(Place, Place)], place: Place) -> bool
    ensures { result ≡ list_all (λ link. not (begins_at place link)) links.now }
{
    links.iter().all(|link| !(link.0.switch == place.switch && link.0.port == place.port))
}

// Whether a cell tells this place.
fn is_at(value: Value, place: Place) -> bool
    ensures { result ≡ same_value value (At place) }
{
    match value {
        Value::At(other) => other.switch == place.switch && other.port == place.port,
        _ => false,
    }
}
