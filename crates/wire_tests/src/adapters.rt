// What the adapters ask of a reader and of a writer of std, and what they answer, call after call.
use maple_io::{Got, Put, ReadSource, Sink, Source, WriteSink};
use std::alloc::{AllocError, Global};
use std::io;
use std::io::{ErrorKind, Read, Write};
use std::test::Fail;

// What a reader or a writer answers to its first call.
#[derive(Clone, Copy, Debug)]
enum First {
    Count(usize),
    Fails(ErrorKind),
}

// Gives its first answer once, and then as many bytes as there is room for, and counts its calls.
#[derive(Drop)]
struct CountedReader {
    first: First,
    reads: u32,
}

impl Read for CountedReader {
    fn read(&mut self, buf: &mut [u8]) -> io::Result<usize> {
        self.reads = self.reads.saturating_add(1);
        match self.first {
            _ if self.reads > 1 => Ok(buf.len()),
            First::Count(count) => Ok(count.min(buf.len())),
            First::Fails(kind) => Err(io::Error::from(kind)),
        }
    }
}

// Gives its first answer once, and then takes whole pieces, and counts its calls.
#[derive(Drop)]
struct CountedWriter {
    first: First,
    writes: u32,
    flushes: u32,
}

impl Write for CountedWriter {
    fn write(&mut self, buf: &[u8]) -> io::Result<usize> {
        self.writes = self.writes.saturating_add(1);
        match self.first {
            _ if self.writes > 1 => Ok(buf.len()),
            First::Count(count) => Ok(count.min(buf.len())),
            First::Fails(kind) => Err(io::Error::from(kind)),
        }
    }

    fn flush(&mut self) -> io::Result<()> {
        self.flushes = self.flushes.saturating_add(1);
        Ok(())
    }
}

// A reader's first answer, and what one read of its source into four bytes says and counts.
const READS: [(First, Got, u64); 6] = [
    (First::Count(4), Got::Bytes(4), 0),
    (First::Count(1), Got::Bytes(1), 0),
    (First::Count(0), Got::End, 0),
    (First::Fails(ErrorKind::Interrupted), Got::Failed, 1),
    (First::Fails(ErrorKind::WouldBlock), Got::Failed, 1),
    (First::Fails(ErrorKind::BrokenPipe), Got::Failed, 1),
];

// A writer's first answer, and what one write of four bytes to its sink says and counts.
const WRITES: [(First, Put, u64); 6] = [
    (First::Count(4), Put::Took(4), 0),
    (First::Count(1), Put::Took(1), 0),
    (First::Count(0), Put::Failed, 1),
    (First::Fails(ErrorKind::Interrupted), Put::Failed, 1),
    (First::Fails(ErrorKind::WouldBlock), Put::Failed, 1),
    (First::Fails(ErrorKind::OutOfMemory), Put::Failed, 1),
];

// One read of a source over a reader with this first answer: what it says, how many reads failed,
// and how many the reader was asked for.
fn one_read(first: First) -> (Got, u64, u32) {
    let mut reader = CountedReader { first, reads: 0 };
    let mut source = ReadSource::new(&mut reader);
    let got = source.read(&mut [0u8; 4]);
    let faults = source.faults();
    (got, faults, reader.reads)
}

// One write to a sink over a writer with this first answer: what it says, how many writes failed,
// and how many writes and flushes the writer was asked for.
fn one_write(first: First) -> (Put, u64, u32, u32) {
    let mut writer = CountedWriter {
        first,
        writes: 0,
        flushes: 0,
    };
    let mut sink = WriteSink::new(&mut writer);
    let put = sink.write(b"abcd");
    let faults = sink.faults();
    (put, faults, writer.writes, writer.flushes)
}

#[test]
fn a_read_asks_once(rt: HostRuntime) {
    for (first, got, faults) in READS {
        assert_eq!(rt; one_read(first), (got, faults, 1), "{first:?}");
    }
}

#[test]
fn a_write_asks_once_and_never_flushes(rt: HostRuntime) {
    for (first, put, faults) in WRITES {
        assert_eq!(rt; one_write(first), (put, faults, 1, 0), "{first:?}");
    }
}

// Gives one byte, then fails once, and then gives another.
#[derive(Drop)]
struct Faltering {
    calls: u8,
}

impl Read for Faltering {
    fn read(&mut self, buf: &mut [u8]) -> io::Result<usize> {
        self.calls = self.calls.saturating_add(1);
        if self.calls == 2 {
            return Err(io::Error::from(ErrorKind::BrokenPipe));
        }
        if buf.is_empty() || self.calls > 3 {
            return Ok(0);
        }
        buf[0] = self.calls;
        Ok(1)
    }
}

// Takes one byte, then none, then fails, and then takes another.
#[derive(Drop)]
struct Stubborn {
    calls: u8,
}

impl Write for Stubborn {
    fn write(&mut self, buf: &[u8]) -> io::Result<usize> {
        self.calls = self.calls.saturating_add(1);
        match self.calls {
            2 => Ok(0),
            3 => Err(io::Error::from(ErrorKind::OutOfMemory)),
            _ => Ok(buf.len().min(1)),
        }
    }

    fn flush(&mut self) -> io::Result<()> {
        Ok(())
    }
}

// Appends what one read into two bytes gave, and how many reads failed up to now.
fn read_once<S: Source>(source: &mut S, answers: &mut String) -> Result<(), AllocError> {
    let mut into = [0u8; 2];
    let got = source.read(&mut into);
    let faults = source.faults();
    match got {
        Got::Bytes(count) => push_got(answers, into.get(..count).unwrap_or(&[]), faults),
        Got::End => write!(answers, " end/{faults}"),
        Got::Failed => write!(answers, " failed/{faults}"),
    }
}

fn push_got(answers: &mut String, bytes: &[u8], faults: u64) -> Result<(), AllocError> {
    answers.push_str(" ")?;
    for byte in bytes {
        write!(answers, "{byte:02x}")?;
    }
    write!(answers, "/{faults}")
}

// Fails with the answers of six reads, where they are not these.
fn check_reads<S: Source>(alloc: Global, source: &mut S, expected: &str) -> Result<(), Fail> {
    let mut answers = String::new(alloc);
    for _ in 0..6 {
        read_once(source, &mut answers)?;
    }
    if answers.as_str() == expected {
        Ok(())
    } else {
        Err(Fail::from(answers))
    }
}

#[test]
fn reads(rt: HostRuntime) -> Result<(), Fail> {
    let alloc = rt.alloc();
    let text: &[u8] = b"abc";
    let mut reader = ReadSource::new(text);
    check_reads(alloc, &mut reader, " 6162/0 63/0 end/0 end/0 end/0 end/0")?;
    let mut faltering = ReadSource::new(Faltering { calls: 0 });
    check_reads(
        alloc,
        &mut faltering,
        " 01/0 failed/1 03/1 end/1 end/1 end/1",
    )
}

// Appends what became of one write of a piece, and how many writes failed up to now.
fn write_once<S: Sink>(sink: &mut S, piece: &str, answers: &mut String) -> Result<(), Fail> {
    if piece.is_empty() {
        return Err(Fail::from("an empty piece"));
    }
    let put = sink.write(piece.as_bytes());
    let faults = sink.faults();
    match put {
        Put::Took(count) => write!(answers, " {count}/{faults}")?,
        Put::Failed => write!(answers, " failed/{faults}")?,
        Put::NoMemory => write!(answers, " no memory/{faults}")?,
    }
    Ok(())
}

// Fails with the answers of writes of these pieces, where they are not these.
fn check_writes<S: Sink>(
    alloc: Global,
    sink: &mut S,
    pieces: &[&str],
    expected: &str,
) -> Result<(), Fail> {
    let mut answers = String::new(alloc);
    for piece in pieces {
        write_once(sink, piece, &mut answers)?;
    }
    if answers.as_str() == expected {
        Ok(())
    } else {
        Err(Fail::from(answers))
    }
}

#[test]
fn writes(rt: HostRuntime) -> Result<(), Fail> {
    let alloc = rt.alloc();
    let mut bytes = Vec::new(alloc);
    let mut sink = WriteSink::new(&mut bytes);
    check_writes(alloc, &mut sink, &["ab", "c"], " 2/0 1/0")?;
    assert_eq!(rt; bytes.as_slice(), b"abc".as_slice());
    Ok(())
}

#[test]
fn writes_that_falter(rt: HostRuntime) -> Result<(), Fail> {
    let alloc = rt.alloc();
    let mut stubborn = WriteSink::new(Stubborn { calls: 0 });
    check_writes(
        alloc,
        &mut stubborn,
        &["ab", "b", "b", "b"],
        " 1/0 failed/1 failed/2 1/2",
    )
}
