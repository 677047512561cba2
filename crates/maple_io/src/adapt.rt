// A source over a reader of std, and a sink over a writer.
ghost use Rattle.std.specs.Prelude.{◌≡◌, ◌≢◌, ◌<◌, ◌≤◌, ◌++◌, ◌∷◌, [], length};
ghost use Rattle.maple_io.specs.Adapters.{answers_of, read_faults, reader_of, took_of, write_faults, writer_of};
ghost use Rattle.maple_io.specs.Answers.{answer_of};
ghost use Rattle.maple_base.specs.Counts.{HasRisen};
ghost use Rattle.maple_io.specs.Reads.{GivesWithin, ReadsBytes, failed_reads};
ghost use Rattle.maple_io.specs.Writes.{TakesWithin, WritesBytes, failed_writes, taken_of};

use crate::answer::{Answer, answered, took};
use crate::{Got, Put, Sink, Source};
use maple_base::GhostList;
use std::io::{Read, Write};

/// A source over a reader. A read is one `read` of the reader, with no second try: an error of any
/// kind, `Interrupted` too, is `Got::Failed`.
#[derive(Drop)]
pub struct ReadSource<R> {
    reader: R,
    faults: u64,
    /// What it answered.
    answers: GhostList<Answer>,
}

impl<R> ReadSource<R> {
    /// A source of what the reader gives, with no fault so far.
    pub fn new(reader: R) -> ReadSource<R>
        ensures reader { reader_of result ≡ reader }
        ensures faults { read_faults result ≡ 0 }
        ensures answers { answers_of result ≡ [] }
    {
        ReadSource {
            reader,
            faults: 0,
            answers: GhostList::none(),
        }
    }
}

impl<R: Read> ReadSource<R> {
    // One `read` of the reader.
    fn read_once(&mut self, into: &mut [u8]) -> Got
        requires { 0 < length into.old }
        ensures room { GivesWithin result (length into.old) }
        ensures bytes { ReadsBytes (R.remaining (reader_of self.old)) (R.remaining (reader_of self.new))
            result into.new }
        ensures cause { result ≡ Got.Failed → HasRisen (read_faults self.old) (read_faults self.new) }
        ensures count { read_faults self.old ≤ read_faults self.new }
        ensures spared { result ≢ Got.Failed → read_faults self.new ≡ read_faults self.old }
        ensures faults { read_faults self.new ≡ failed_reads (read_faults self.old) result }
        ensures answers { answers_of self.new ≡ answers_of self.old }
    {
        match self.reader.read(into) {
            Ok(0) => Got::End,
            Ok(given) => Got::Bytes(given),
            Err(_) => {
                self.faults = self.faults.saturating_add(1);
                Got::Failed
            }
        }
    }
}

impl<R: Read> Source for ReadSource<R> {
    ghost tells = { λ s. record { left = R.remaining (reader_of s); failed = read_faults s; answers = answers_of s } };

    fn read(&mut self, into: &mut [u8]) -> Got
        requires { 0 < length into.old }
        ensures room { GivesWithin result (length into.old) }
        ensures bytes { ReadsBytes (R.remaining (reader_of self.old)) (R.remaining (reader_of self.new))
            result into.new }
        ensures answers { answers_of self.new ≡ answers_of self.old ++ answer_of result into.new ∷ [] }
        ensures cause { result ≡ Got.Failed → HasRisen (read_faults self.old) (read_faults self.new) }
        ensures count { read_faults self.old ≤ read_faults self.new }
        ensures spared { result ≢ Got.Failed → read_faults self.new ≡ read_faults self.old }

        // Only a failure is counted, and it counts as one.
        ensures faults { read_faults self.new ≡ failed_reads (read_faults self.old) result }
    {
        let got = self.read_once(into);
        self.answers = answered(&self.answers, got, into);
        got
    }

    fn faults(&self) -> u64 {
        self.faults
    }
}

/// A sink over a writer. A write is one `write` of the writer, with no second try and no flush: an
/// error of any kind, and a writer that takes 0 bytes, are `Put::Failed`.
#[derive(Drop)]
pub struct WriteSink<W> {
    writer: W,
    faults: u64,
    /// What it took.
    took: GhostList<u8>,
}

impl<W> WriteSink<W> {
    /// A sink into the writer, with no fault so far.
    pub fn new(writer: W) -> WriteSink<W>
        ensures writer { writer_of result ≡ writer }
        ensures faults { write_faults result ≡ 0 }
        ensures took { took_of result ≡ [] }
    {
        WriteSink {
            writer,
            faults: 0,
            took: GhostList::none(),
        }
    }
}

impl<W: Write> WriteSink<W> {
    // One `write` of the writer.
    fn write_once(&mut self, piece: &[u8]) -> Put
        requires { 0 < length piece.now }
        ensures room { TakesWithin result (length piece.now) }
        ensures bytes { WritesBytes (W.contents (writer_of self.old)) (W.contents (writer_of self.new))
            result piece.now }
        ensures cause { result ≡ Put.Failed → HasRisen (write_faults self.old) (write_faults self.new) }
        ensures count { write_faults self.old ≤ write_faults self.new }
        ensures spared { result ≢ Put.Failed → write_faults self.new ≡ write_faults self.old }
        ensures faults { write_faults self.new ≡ failed_writes (write_faults self.old) result }
        ensures memory { result ≢ Put.NoMemory }
        ensures took { took_of self.new ≡ took_of self.old }
    {
        match self.writer.write(piece) {
            Ok(0) | Err(_) => {
                self.faults = self.faults.saturating_add(1);
                Put::Failed
            }
            Ok(taken) => Put::Took(taken),
        }
    }
}

impl<W: Write> Sink for WriteSink<W> {
    ghost tells = { λ s. record { taken = W.contents (writer_of s); failed = write_faults s; took = took_of s } };

    fn write(&mut self, piece: &[u8]) -> Put
        requires { 0 < length piece.now }
        ensures room { TakesWithin result (length piece.now) }
        ensures bytes { WritesBytes (W.contents (writer_of self.old)) (W.contents (writer_of self.new))
            result piece.now }
        ensures took { took_of self.new ≡ took_of self.old ++ taken_of result piece.now }
        ensures cause { result ≡ Put.Failed → HasRisen (write_faults self.old) (write_faults self.new) }
        ensures count { write_faults self.old ≤ write_faults self.new }
        ensures spared { result ≢ Put.Failed → write_faults self.new ≡ write_faults self.old }

        // Only a failure is counted, and it counts as one. A writer that lacks memory failed too.
        ensures faults { write_faults self.new ≡ failed_writes (write_faults self.old) result }
        ensures memory { result ≢ Put.NoMemory }
    {
        let put = self.write_once(piece);
        self.took = took(&self.took, put, piece);
        put
    }

    fn faults(&self) -> u64 {
        self.faults
    }
}
