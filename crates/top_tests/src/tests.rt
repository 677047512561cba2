// An input without an end, and a script whose numbers begin elsewhere.
use crate::running::no_turns;
use device_port::Device;
use maple_base::{Bytes, NoMemory, Settings, Words};
use maple_io::{MemSink, ReadSource, WriteSink};
use maple_top::{Status, program_device, push_idle, run_program};
use packet_workers::Open;
use policy_text::read_policy;
use report_text::ScriptRefusal;
use sim_driver::{SimEnd, run_sim};
use std::alloc::Global;
use std::io;
use std::io::Read;
use std::test::Fail;

// Gives blanks for ever.
#[derive(Drop)]
struct Endless;

impl Read for Endless {
    fn read(&mut self, buf: &mut [u8]) -> io::Result<usize> {
        buf.fill(b' ');
        Ok(buf.len())
    }
}

#[test]
fn stops_at_an_endless_input(rt: HostRuntime) -> Result<(), Fail> {
    let alloc = rt.alloc();
    let words = sim_alone(alloc)?;
    let mut bytes = Vec::new(alloc);
    let mut input = ReadSource::new(Endless);
    let mut output = WriteSink::new(&mut bytes);
    let mut board = no_turns(alloc)?;
    let status = run_program(&rt, alloc, &words, &mut input, &mut output, &mut board);
    assert_eq!(&rt; status, Status::TooLong);
    assert_eq!(&rt; bytes.as_slice(), b"refused input\n".as_slice());
    Ok(())
}

fn sim_alone(alloc: Global) -> Result<Words, NoMemory> {
    let word = Vec::from_slice(alloc, b"sim")?;
    let mut words = Vec::new(alloc);
    words.push(Bytes::new(word))?;
    Ok(Words::new(words))
}

// The settings of the program.
const SETTINGS: Settings = Settings {
    capacity: 1024,
    levels: 32_768,
    budget: 4096,
    workers: 0,
};

#[test]
fn refuses_the_second_line(rt: HostRuntime) -> Result<(), Fail> {
    let alloc = rt.alloc();
    let Ok(policy) = read_policy(alloc, b"policy { drop; }") else {
        return Err(Fail::from("a policy"));
    };
    let script = b"plug 1\nplug 65\n";
    let mut devices: Vec<Box<dyn Device + Send>> = Vec::new(alloc);
    push_idle(&mut devices, Box::new(alloc, program_device(alloc, 1))?)?;
    let mut sink = MemSink::new(Vec::new(alloc));
    let end = run_sim(
        &rt,
        alloc,
        policy,
        script,
        7,
        SETTINGS,
        &mut devices,
        &Open,
        &mut sink,
    );
    let refused = SimEnd::Script {
        line: 8,
        kind: ScriptRefusal::Switch,
    };
    assert_eq!(&rt; end, refused);
    assert_eq!(&rt; sink.bytes(), b"open c1\n".as_slice());
    Ok(())
}
