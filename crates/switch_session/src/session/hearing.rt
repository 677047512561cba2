// What a session makes of a message.
ghost use Rattle.std.specs.Prelude.{◌≡◌, ◌==◌, ◌≤◌, ◌+◌, ◌<◌, true, length, Ok, is_ok, is_some};
ghost use Rattle.of10_codec.specs.Types.{most_bytes};
ghost use Rattle.switch_session.specs.Parts.{last_start};

use super::Session;
use crate::told::{End, Heard, Phase};
use maple_base::openflow::{HELLO_FAILED, INCOMPATIBLE, PORT_DELETED};
use maple_base::{Bytes, NoMemory, Port, Ports, is_port};
use of10_codec::{Body, BodyRef, Message, MessageRef};

// From here on no number is left for one more part.
const LAST_START: u32 = 0xfff0_0000;

impl Session {
    ghost use Rattle.switch_session.specs.Calls.{CanBeHeard, Hears, HearsHello, HearsError, HearsEcho, HearsFeatures, HearsPacket, HearsPort, HearsReply, is_awaited, of_batch, of_clearing, takes_none, RefusesVersion, acknowledged_now};

    /// Hears a message, which some bytes spell.
    ///
    /// # Errors
    ///
    /// `NoMemory`. Nothing changes then. It doesn't come of a BARRIER_REPLY or an ERROR.
    pub fn hear(&mut self, message: &Message) -> Result<Heard, NoMemory>
        requires { CanBeHeard message.now }
        ensures heard { Hears message.now self.old result self.new }
        ensures spared { takes_none message.now.body ≡ true → is_ok result ≡ true }
    {
        let xid = message.xid;
        match &message.body {
            Body::Hello { version } => self.hear_hello(xid, *version),
            Body::Error { kind, code, .. } => Ok(self.hear_error(xid, *kind, *code)),
            Body::EchoRequest(bytes) => self.hear_echo(xid, bytes.items()),
            Body::FeaturesReply { dpid, ports } => self.hear_features(*dpid, ports.items()),
            Body::PacketIn {
                buffer,
                in_port,
                bytes,
                ..
            } => self.hear_packet(*buffer, *in_port, bytes.items()),
            Body::PortStatus { reason, port } => Ok(self.hear_port(*reason, *port)),
            Body::BarrierReply => Ok(self.hear_reply(xid)),
            _ => Ok(Heard::Passed),
        }
    }

    fn hear_hello(&mut self, xid: u32, version: u8) -> Result<Heard, NoMemory>
        ensures { HearsHello xid version self.old result self.new }
    {
        let Phase::First = self.phase else {
            return Ok(Heard::Passed);
        };
        if version == 0 {
            return self.refuse_version(xid);
        }
        self.put(&MessageRef {
            xid: 0,
            body: BodyRef::FeaturesRequest,
        })?;
        self.phase = Phase::Second;
        Ok(Heard::Passed)
    }

    fn refuse_version(&mut self, xid: u32) -> Result<Heard, NoMemory>
        ensures { RefusesVersion xid self.old result self.new }
    {
        self.put(&MessageRef {
            xid,
            body: BodyRef::Error {
                kind: HELLO_FAILED,
                code: INCOMPATIBLE,
                bytes: &[],
            },
        })?;
        self.end();
        Ok(Heard::Ended(End::Version))
    }

    fn hear_echo(&mut self, xid: u32, bytes: &[u8]) -> Result<Heard, NoMemory>
        requires { 8 + length bytes.now ≤ most_bytes }
        ensures { HearsEcho xid bytes.now self.old result self.new }
    {
        if let Phase::Ended = self.phase {
            return Ok(Heard::Passed);
        }
        self.put(&MessageRef {
            xid,
            body: BodyRef::EchoReply(bytes),
        })?;
        Ok(Heard::Passed)
    }

    fn hear_features(&mut self, dpid: u64, ports: &[Port]) -> Result<Heard, NoMemory>
        ensures { HearsFeatures dpid ports.now self.old result self.new }
    {
        let Phase::Second = self.phase else {
            return Ok(Heard::Passed);
        };
        let ports = Ports::new(Vec::from_slice(self.alloc, ports)?);
        self.dpid = Some(dpid);
        Ok(Heard::Features { dpid, ports })
    }

    fn hear_packet(&mut self, buffer: u32, in_port: u16, bytes: &[u8]) -> Result<Heard, NoMemory>
        ensures { HearsPacket buffer in_port bytes.now self.old result self.new }
    {
        let Phase::Live = self.phase else {
            return Ok(Heard::Passed);
        };
        let frame = Bytes::new(Vec::from_slice(self.alloc, bytes)?);
        Ok(Heard::PacketIn {
            buffer,
            in_port,
            frame,
        })
    }

    fn hear_port(&mut self, reason: u8, port: Port) -> Heard
        ensures { HearsPort reason port self.old (Ok result) self.new }
    {
        let Phase::Live = self.phase else {
            return Heard::Passed;
        };
        if !is_port(port.number as u64) {
            return Heard::Passed;
        }
        Heard::Port {
            port: port.number,
            up: port.up && !(reason == PORT_DELETED),
        }
    }

    fn hear_reply(&mut self, xid: u32) -> Heard
        ensures { HearsReply xid self.old (Ok result) self.new }
    {
        if !self.awaits(xid) {
            return Heard::Passed;
        }
        if self.taken < xid {
            self.end();
            return Heard::Ended(End::Early(xid));
        }
        if self.used >= LAST_START {
            self.end();
            return Heard::Ended(End::Xids);
        }
        let ready = !self.ready;
        self.acknowledge();
        Heard::Acknowledged { ready }
    }

    // Whether the barrier of this number is outstanding.
    fn awaits(&self, xid: u32) -> bool
        ensures { result ≡ is_awaited xid self.now.under_way }
    {
        match &self.under_way {
            None => false,
            Some(part) => part.barrier == xid,
        }
    }

    fn acknowledge(&mut self)
        requires free { self.old.used < last_start }
        requires under_way { is_some self.old.under_way ≡ true }
        ensures { self.new ≡ acknowledged_now self.old }
    {
        match self.under_way.take() {
            None => unreachable!(),
            Some(part) => {
                self.ready = true;
                self.follow(part.lists);
            }
        }
    }

    fn hear_error(&mut self, xid: u32, kind: u16, code: u16) -> Heard
        ensures { HearsError xid kind code self.old (Ok result) self.new }
    {
        if let Phase::Ended = self.phase {
            return Heard::Passed;
        }
        if !self.is_of_batch(xid) {
            return Heard::Refused {
                kind,
                code,
                quiet: false,
            };
        }
        if self.is_of_clearing(xid) {
            self.end();
            return Heard::Ended(End::ClearRefused);
        }
        let quiet = !self.quiet;
        if quiet {
            self.break_off();
        }
        Heard::Refused { kind, code, quiet }
    }

    // Whether the number is that of a message of a batch which was taken out.
    fn is_of_batch(&self, xid: u32) -> bool
        ensures { result ≡ of_batch xid self.now }
    {
        match self.phase {
            Phase::Live => 1 <= xid && xid <= self.taken,
            _ => false,
        }
    }

    // Whether the number is that of the DELETE or of the barrier of a clearing under way.
    fn is_of_clearing(&self, xid: u32) -> bool
        ensures { result ≡ of_clearing xid self.now }
    {
        match &self.under_way {
            None => false,
            Some(part) => part.clears && (part.barrier == xid || is_next(part.barrier, xid)),
        }
    }
}

// Whether a number is the one behind another.
fn is_next(number: u32, other: u32) -> bool
    ensures { result ≡ (number == other + 1) }
{
    number > 0 && number - 1 == other
}
