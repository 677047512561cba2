// A frame comes to a device.
ghost use Rattle.std.specs.Prelude.{◌≡◌, ◌<◌, ◌≤◌, false, map, length, IfOk, Ok, OnErr};
ghost use Rattle.of10_stream.specs.Steps.{fed};
ghost use Rattle.machine_desk.specs.Hearing.{IsSameSession};
ghost use Rattle.machine_desk.specs.declared.inbound.Stage.TheVariants.{Live};
ghost use Rattle.script_text.specs.Grammar.{most_bytes};
ghost use Rattle.sim_steps.specs.Stretches.{BreaksOff};
ghost use Rattle.sim_channels.specs.Channels.{Fits, IsSame, bench};
ghost use Rattle.sim_channels.specs.Looking.{IsAnswered, LooksUpBy, is_failed, is_failure};
ghost use Rattle.sim_channels.specs.Staging.{HasStage};
ghost use Rattle.sim_channels.specs.Waiting.{IsAtRest};

use crate::outbox::connection_of;
use crate::{Channel, Driver, Stopped};
use core_machine::Note;
use device_port::Device;
use machine_desk::driving_laws;
use maple_base::{Bytes, NoMemory, Seen};
use std::alloc::Global;
use std::sync::Wait;

/// What a device did with a frame.
#[derive(Clone, Copy)]
pub enum Answer {
    /// It failed, and is to be left.
    Failed,
    /// It appended bytes, which are to be heard.
    Spoke,
    /// It appended nothing.
    Silent,
}

impl<'h> Driver<'h> {
    /// A frame comes to the device with this index, and that is noted. Tells what the device did with it.
    ///
    /// # Errors
    ///
    /// `Stopped`.
    pub fn call<R: Wait, D: Device>(
        &mut self,
        rt: &R,
        devices: &mut [D],
        at: usize,
        port: u16,
        frame: Bytes,
    ) -> Result<Answer, Stopped>
        requires fits { Fits self.old (map D.meaning devices.old) }
        requires rest { IsAtRest self.old }
        requires plugged { HasStage at Live self.old }
        requires within { at < length devices.old }
        requires short { length frame ≤ most_bytes }
        ensures called { IfOk result (λ answer. IsAnswered at port frame answer self.old (map D.meaning devices.old) self.new (map D.meaning devices.new)) }
        ensures silent { result ≡ Ok Answer.Silent → IsAtRest self.new }
        ensures broken { OnErr result (BreaksOff (bench self.old (map D.meaning devices.old)) self.new.desk.past) }
        ensures same { IsSame self.old self.new }
    {
        driving_laws();
        let alloc = self.alloc;
        let (seen, spoke) = look_up(
            alloc,
            &mut self.channels[at],
            &mut devices[at],
            port,
            frame.items(),
        )?;
        let answer = answer_of(&seen, spoke);
        let device = connection_of(at);
        self.note(
            rt,
            Note::Seen {
                device,
                port,
                frame,
                seen,
            },
        )?;
        Ok(answer)
    }
}

fn answer_of(seen: &Seen, spoke: bool) -> Answer
    ensures failed { is_failed result ≡ is_failure seen.now }
    ensures silent { result ≡ Answer.Silent → spoke ≡ false }
{
    match seen {
        Seen::Failed => Answer::Failed,
        _ if spoke => Answer::Spoke,
        _ => Answer::Silent,
    }
}

// A frame comes to the device behind a channel. Tells, too, whether the device appended something.
fn look_up<D: Device>(
    alloc: Global,
    channel: &mut Channel,
    device: &mut D,
    port: u16,
    frame: &[u8],
) -> Result<(Seen, bool), NoMemory>
    requires short { length frame.now ≤ most_bytes }
    ensures looks { IfOk result (λ told. LooksUpBy port frame.now told.0 channel.old (D.meaning device.old) channel.new (D.meaning device.new)) }
    ensures silent { IfOk result (λ told. told.1 ≡ false → channel.new ≡ channel.old) }
{
    let mut bytes = Vec::new(alloc);
    match device.packet(port, frame, &mut bytes) {
        Seen::NoMemory => Err(NoMemory),
        seen => {
            let spoke = feed(channel, &bytes)?;
            Ok((seen, spoke))
        }
    }
}

// These bytes come from a device, if there are some.
fn feed(channel: &mut Channel, bytes: &[u8]) -> Result<bool, NoMemory>
    ensures from { IfOk result (λ spoke. channel.new.inbound.from.stream ≡ fed bytes.now channel.old.inbound.from.stream) }
    ensures session { IsSameSession channel.old.inbound channel.new.inbound }
    ensures to { channel.new.to ≡ channel.old.to }
    ensures waiting { channel.new.waiting ≡ channel.old.waiting }
    ensures silent { IfOk result (λ spoke. spoke ≡ false → channel.new ≡ channel.old) }
{
    if bytes.is_empty() {
        return Ok(false);
    }
    channel.inbound.feed(bytes)?;
    Ok(true)
}
