// What is put into an outbox, and taken out.
ghost use Rattle.std.specs.Prelude.{◌≡◌, ◌≢◌, ◌≤◌, ◌+◌, ◌<◌, ◌^◌, [], ◌++◌, true, length, ◌==◌, if◌then◌else◌, IfOk, OnOk, OnErr};
ghost use Rattle.of10_codec.specs.Types.{most_bytes};
ghost use Rattle.of10_codec.specs.Lent.{body_of, message_of};
ghost use Rattle.of10_codec.specs.Written.{written, written_body, fits_fields};
ghost use Rattle.maple_base.specs.OpenFlow.{no_buffer};
ghost use Rattle.switch_session.specs.Parts.{packet_body};

use super::{Session, owed};
use crate::outbox::MOST_ACTIONS;
use maple_base::openflow::NO_BUFFER;
use maple_base::{Actions, Bytes, NoMemory};
use of10_codec::{BodyRef, MessageRef};

impl Session {
    ghost use Rattle.switch_session.specs.Sessions.{put};
    ghost use Rattle.switch_session.specs.Parts.{packet_out};
    ghost use Rattle.switch_session.specs.Calls.{IsGood, TakesOut};

    // Puts a message behind the others, with the room that is kept on top.
    pub(super) fn put(&mut self, message: &MessageRef<'_>) -> Result<(), NoMemory>
        requires fits { fits_fields (body_of message.now.body) ≡ true }
        requires short { length (written (message_of message.now)) ≤ most_bytes }
        ensures put { OnOk result (self.new ≡ put (message_of message.now) self.old) }
        ensures kept { OnErr result (self.new ≡ self.old) }
    {
        let spare = owed(&self.to_come, &self.next, self.prepared_room, self.quiet);
        self.outbox.put(message, spare)
    }

    /// Puts a PACKET_OUT into the outbox, with the frame exactly where the buffer is 0xffffffff.
    /// There the frame has at most 65,391 bytes.
    ///
    /// # Errors
    ///
    /// `NoMemory`. Nothing changes then.
    pub fn answer(
        &mut self,
        buffer: u32,
        in_port: u16,
        actions: Actions,
        frame: &[u8],
    ) -> Result<(), NoMemory>
        requires { buffer ≡ no_buffer → length frame.now ≤ 65391 }
        ensures put { OnOk result (self.new ≡ put (packet_out buffer in_port actions frame.now) self.old) }
        ensures kept { OnErr result (self.new ≡ self.old) }
    {
        self.put(&MessageRef {
            xid: 0,
            body: packet_out(buffer, in_port, actions, frame),
        })
    }

    /// Takes all messages out, as they are written. Their numbers are taken out then.
    ///
    /// # Errors
    ///
    /// `NoMemory`. Nothing changes then.
    pub fn take_out(&mut self) -> Result<Bytes, NoMemory>
        ensures taken { IfOk result (λ bytes. TakesOut self.old bytes self.new) }
        ensures kept { OnErr result (self.new ≡ self.old) }
    {
        let spare = owed(&self.to_come, &self.next, self.prepared_room, self.quiet);
        let bytes = self.outbox.take(self.alloc, spare)?;
        self.taken = self.used;
        Ok(Bytes::new(bytes))
    }
}

fn packet_out(buffer: u32, in_port: u16, actions: Actions, frame: &[u8]) -> BodyRef<'_>
    requires { buffer ≡ no_buffer → length frame.now ≤ 65391 }
    ensures body { body_of result ≡ packet_body buffer in_port actions frame.now }
    ensures short { 8 + length (written_body (body_of result)) ≤ most_bytes }
{
    prove!(actions.items().len() <= MOST_ACTIONS);
    BodyRef::PacketOut {
        buffer,
        in_port,
        actions,
        bytes: bytes_for(buffer, frame),
    }
}

fn bytes_for(buffer: u32, frame: &[u8]) -> &[u8]
    requires { buffer ≡ no_buffer → length frame.now ≤ 65391 }
    ensures bytes { result.now ≡ (if buffer == no_buffer then frame.now else []) }
    ensures most { length result.now ≤ 65391 }
{
    if buffer == NO_BUFFER { frame } else { &[] }
}
