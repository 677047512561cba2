// The messages that wait to be taken out.
ghost use Rattle.std.specs.Prelude.{◌≡◌, ◌+◌, ◌*◌, ◌<◌, ◌≤◌, ◌^◌, ◌++◌, ◌∷◌, [], true, length, vec_len, vec_capacity, OnOk, OnErr, IfOk};
ghost use Rattle.std.specs.List.{flat_map, list_all};
ghost use Rattle.maple_base.specs.declared.decision.TableMod.TheVariants.{Add};
ghost use Rattle.of10_codec.specs.Types.{most_bytes};
ghost use Rattle.of10_codec.specs.Lent.{body_of, message_of};
ghost use Rattle.of10_codec.specs.Written.{written, written_body, fits_fields};
ghost use Rattle.switch_session.specs.declared.part.Part.TheVariants.{Batch};
ghost use Rattle.switch_session.specs.Parts.{flow_mod, change_body, change_message, changes_from, changes_of, barrier_of, part_messages, barrier_request, last_start};
ghost use Rattle.switch_session.specs.Room.{change_fits, most_change, part_room, CanBeSent};

use crate::part::Part;
use maple_base::openflow::{ADD, DELETE, DELETE_STRICT, NO_BUFFER, NO_PORT};
use maple_base::{Actions, GhostList, Match, NoMemory, Rule, TableMod, Witness};
use of10_codec::{BodyRef, Message, MessageRef, encode_ref};
use std::alloc::Global;
use std::mem;

// The most ports that a change sends out of.
pub const MOST_ACTIONS: usize = 16;

/// Messages as they are written, one behind the other.
#[derive(Drop)]
pub struct Outbox {
    pub bytes: Vec<u8>,
    /// What they spell.
    pub log: GhostList<Message>,
    ghost spells: { bytes.items ≡ flat_map written log.value },
}

impl Outbox {
    pub fn new(alloc: Global) -> Outbox
        ensures log { result.log.value ≡ [] }
        ensures len { vec_len result.bytes ≡ 0 }
    {
        Outbox {
            bytes: Vec::new(alloc),
            log: GhostList::none(),
        }
    }

    /// Puts a message behind the others, and leaves room for so many bytes more.
    pub fn put(&mut self, message: &MessageRef<'_>, spare: usize) -> Result<(), NoMemory>
        requires fits { fits_fields (body_of message.now.body) ≡ true }
        requires short { length (written (message_of message.now)) ≤ most_bytes }
        requires spare { spare < 2 ^ 40 }
        ensures log { OnOk result (self.new.log.value ≡ self.old.log.value ++ message_of message.now ∷ []) }
        ensures room { OnOk result (vec_len self.new.bytes + spare ≤ vec_capacity self.new.bytes) }
        ensures kept { OnErr result (self.new.log.value ≡ self.old.log.value) }
        ensures len { OnErr result (vec_len self.new.bytes ≡ vec_len self.old.bytes) }
        ensures capacity { vec_capacity self.old.bytes ≤ vec_capacity self.new.bytes }
    {
        self.bytes.reserve(message.encoded_len() as usize + spare)?;
        self.put_within(message);
        Ok(())
    }

    /// Makes room for so many bytes more.
    pub fn reserve(&mut self, room: usize) -> Result<(), NoMemory>
        ensures log { self.new.log.value ≡ self.old.log.value }
        ensures len { vec_len self.new.bytes ≡ vec_len self.old.bytes }
        ensures room { OnOk result (vec_len self.new.bytes + room ≤ vec_capacity self.new.bytes) }
        ensures capacity { vec_capacity self.old.bytes ≤ vec_capacity self.new.bytes }
    {
        self.bytes.reserve(room)?;
        Ok(())
    }

    /// Takes all bytes out, and leaves room for so many.
    pub fn take(&mut self, alloc: Global, room: usize) -> Result<Vec<u8>, NoMemory>
        requires { vec_len self.old.bytes + room ≤ vec_capacity self.old.bytes }
        ensures bytes { IfOk result (λ bytes. bytes.items ≡ flat_map written self.old.log.value) }
        ensures log { OnOk result (self.new.log.value ≡ []) }
        ensures room { OnOk result (vec_len self.new.bytes + room ≤ vec_capacity self.new.bytes) }
        ensures kept { OnErr result (self.new.log.value ≡ self.old.log.value) }
        ensures same { OnErr result (vec_len self.new.bytes + room ≤ vec_capacity self.new.bytes) }
    {
        if self.bytes.is_empty() {
            self.log = GhostList::none();
            return Ok(Vec::new(alloc));
        }
        let fresh = Vec::with_capacity(alloc, room)?;
        let full = mem::replace(&mut self.bytes, fresh);
        self.log = GhostList::none();
        Ok(full)
    }

    /// Puts a message into the room that is there.
    pub fn put_within(&mut self, message: &MessageRef<'_>)
        requires fits { fits_fields (body_of message.now.body) ≡ true }
        requires short { length (written (message_of message.now)) ≤ most_bytes }
        requires room { vec_len self.old.bytes + length (written (message_of message.now)) ≤ vec_capacity self.old.bytes }
        ensures log { self.new.log.value ≡ self.old.log.value ++ message_of message.now ∷ [] }
        ensures len { vec_len self.new.bytes ≡ vec_len self.old.bytes + length (written (message_of message.now)) }
        ensures capacity { vec_capacity self.old.bytes ≤ vec_capacity self.new.bytes }
    {
        if encode_ref(message, &mut self.bytes).is_err() {
            unreachable!();
        }
        self.log = with(&self.log, message);
    }

    /// Puts a part into the room that is there, with the numbers behind this one. The answer is the
    /// number of its barrier.
    pub fn put_part(&mut self, used: u32, part: &Part) -> u32
        requires can { CanBeSent (changes_of part.now) }
        requires numbers { used < last_start }
        requires room { vec_len self.old.bytes + part_room part.now ≤ vec_capacity self.old.bytes }
        ensures barrier { result ≡ barrier_of used part.now }
        ensures log { self.new.log.value ≡ self.old.log.value ++ part_messages used part.now }
        ensures len { vec_len self.new.bytes ≤ vec_len self.old.bytes + part_room part.now }
        ensures capacity { vec_capacity self.old.bytes ≤ vec_capacity self.new.bytes }
    {
        match part {
            Part::Clearing => self.put_batch(used, &[TableMod::DeleteAll]),
            Part::Batch(changes) => self.put_batch(used, changes.items()),
        }
    }

    fn put_batch(&mut self, used: u32, changes: &[TableMod]) -> u32
        requires can { CanBeSent changes.now }
        requires numbers { used < last_start }
        requires room { vec_len self.old.bytes + part_room (Batch changes.now) ≤ vec_capacity self.old.bytes }
        ensures barrier { result ≡ barrier_of used (Batch changes.now) }
        ensures log { self.new.log.value ≡ self.old.log.value ++ part_messages used (Batch changes.now) }
        ensures len { vec_len self.new.bytes ≤ vec_len self.old.bytes + part_room (Batch changes.now) }
        ensures capacity { vec_capacity self.old.bytes ≤ vec_capacity self.new.bytes }
    {
        let barrier = self.put_changes(used + 1, changes);
        self.put_within(&MessageRef {
            xid: barrier,
            body: BodyRef::BarrierRequest,
        });
        barrier
    }

    // The number behind those that the changes took.
    fn put_changes(&mut self, xid: u32, changes: &[TableMod]) -> u32
        requires fits { list_all change_fits changes.now ≡ true }
        requires numbers { xid + length changes.now < 2 ^ 32 }
        requires room { vec_len self.old.bytes + most_change * length changes.now ≤ vec_capacity self.old.bytes }
        ensures next { result ≡ xid + length changes.now }
        ensures log { self.new.log.value ≡ self.old.log.value ++ changes_from xid changes.now }
        ensures len { vec_len self.new.bytes ≤ vec_len self.old.bytes + most_change * length changes.now }
        ensures capacity { vec_capacity self.old.bytes ≤ vec_capacity self.new.bytes }
    {
        let mut xid = xid;
        let mut rest = changes;
        while let [change, more @ ..] = rest {
            self.put_change(xid, *change);
            xid += 1;
            rest = more;
        }
        xid
    }

    fn put_change(&mut self, xid: u32, change: TableMod)
        requires fits { change_fits change ≡ true }
        requires room { vec_len self.old.bytes + most_change ≤ vec_capacity self.old.bytes }
        ensures log { self.new.log.value ≡ self.old.log.value ++ change_message xid change ∷ [] }
        ensures len { vec_len self.new.bytes ≤ vec_len self.old.bytes + most_change }
        ensures capacity { vec_capacity self.old.bytes ≤ vec_capacity self.new.bytes }
    {
        self.put_within(&MessageRef {
            xid,
            body: change_body(change),
        });
    }
}

// With this message behind those.
fn with(log: &GhostList<Message>, message: &MessageRef<'_>) -> GhostList<Message>
    ensures { result.value ≡ log.now.value ++ message_of message.now ∷ [] }
{
    Witness::picked(&(log, message))
}

fn change_body(change: TableMod) -> BodyRef<'static>
    ensures body { body_of result ≡ change_body change }
    ensures most { 8 + length (written_body (body_of result)) ≤ most_change }
{
    match change {
        TableMod::Add(rule) => addition(rule),
        TableMod::DeleteStrict { of, priority } => deletion(of, DELETE_STRICT, priority),
        TableMod::DeleteAll => deletion(Match::any(), DELETE, 0),
    }
}

fn addition(rule: Rule) -> BodyRef<'static>
    ensures body { body_of result ≡ change_body (Add rule) }
    ensures most { 8 + length (written_body (body_of result)) ≤ most_change }
{
    flow_mod(
        rule.of,
        rule.cookie,
        ADD,
        rule.idle,
        rule.priority,
        rule.actions,
    )
}

fn deletion(of: Match, command: u16, priority: u16) -> BodyRef<'static>
    ensures body { body_of result ≡ flow_mod of 0 command 0 priority [] }
    ensures most { 8 + length (written_body (body_of result)) ≤ most_change }
{
    flow_mod(of, 0, command, 0, priority, Actions::new(&[]))
}

fn flow_mod(
    of: Match,
    cookie: u64,
    command: u16,
    idle: u16,
    priority: u16,
    actions: Actions,
) -> BodyRef<'static>
    ensures body { body_of result ≡ flow_mod of cookie command idle priority actions }
    ensures most { 8 + length (written_body (body_of result)) ≤ most_change }
{
    prove!(actions.items().len() <= MOST_ACTIONS);
    BodyRef::FlowMod {
        of,
        cookie,
        command,
        idle,
        hard: 0,
        priority,
        buffer: NO_BUFFER,
        out_port: NO_PORT,
        flags: 0,
        actions,
    }
}
