// A source and a sink over memory, whose failures are chosen ahead.
ghost use Rattle.std.specs.Prelude.{◌≡◌, ◌≢◌, ◌<◌, ◌≤◌, ◌↔◌, [], ◌∷◌, Some, length, ◌++◌};
ghost use Rattle.std.specs.List.{Contains};
ghost use Rattle.maple_base.specs.Counts.{HasRisen, next_count};
ghost use Rattle.maple_io.specs.Answers.{answer_of};
ghost use Rattle.maple_io.specs.Reads.{FillsUp, GivesWithin, ReadsBytes, failed_reads};
ghost use Rattle.maple_io.specs.Writes.{TakesAll, TakesWithin, WritesBytes, failed_writes, taken_of};

use crate::answer::{Answer, answered};
use crate::memory::{copy_from, is_listed};
use crate::{Got, Put, Sink, Source};
use maple_base::GhostList;
use std::marker::Model;

/// A source over bytes in memory, whose failures are chosen ahead: a read fails exactly where its
/// number is listed, and else gives as many bytes as are left and fit.
#[derive(Drop)]
pub struct MemSource {
    content: Vec<u8>,
    at: usize,
    fails: Vec<u64>,
    calls: u64,
    faults: u64,
    /// What it answered.
    answers: GhostList<Answer>,
}

impl Model for MemSource {
    ghost use Rattle.std.specs.Prelude.{◌≤◌, drop, length};
    ghost use Rattle.maple_io.specs.Memory.{Feed};

    ghost Value = { Feed };

    ghost view = { λ a. record { left = drop a.at a.content.items; fails = a.fails.items; calls = a.calls; failed = a.faults; answers = a.answers.value } };

    ghost invariant = { λ a. a.at ≤ length a.content.items };
}

impl MemSource {
    /// A source of `content`, whose reads with the numbers in `fails` fail. The first read has the
    /// number 1, and each from the 2^64 - 1st on has the number 2^64 - 1.
    pub fn new(content: Vec<u8>, fails: Vec<u64>) -> MemSource
        ensures left { result.left ≡ content.items }
        ensures fails { result.fails ≡ fails.items }
        ensures calls { result.calls ≡ 0 }
        ensures failed { result.failed ≡ 0 }
        ensures answers { result.answers ≡ [] }
    {
        MemSource {
            content,
            at: 0,
            fails,
            calls: 0,
            faults: 0,
            answers: GhostList::none(),
        }
    }

    // One read: it fails where its number is listed, and else gives all that fits.
    fn read_once(&mut self, into: &mut [u8]) -> Got
        requires { 0 < length into.old }
        ensures room { GivesWithin result (length into.old) }
        ensures bytes { ReadsBytes (Some self.old.left) (Some self.new.left) result into.new }
        ensures cause { result ≡ Got.Failed → HasRisen self.old.failed self.new.failed }
        ensures count { self.old.failed ≤ self.new.failed }
        ensures spared { result ≢ Got.Failed → self.new.failed ≡ self.old.failed }

        // The read fails where its number is listed, and else gives all that fits.
        ensures listed { (result ≡ Got.Failed) ↔ Contains self.old.fails self.new.calls }
        ensures fills { FillsUp result self.old.left (length into.old) }

        // What is counted, and what stays.
        ensures calls { self.new.calls ≡ next_count self.old.calls }
        ensures failed { self.new.failed ≡ failed_reads self.old.failed result }
        ensures fails { self.new.fails ≡ self.old.fails }
        ensures answers { self.new.answers ≡ self.old.answers }
    {
        self.calls = self.calls.saturating_add(1);
        if is_listed(&self.fails, self.calls) {
            self.faults = self.faults.saturating_add(1);
            return Got::Failed;
        }
        let given = copy_from(&self.content, self.at, into);
        if given == 0 {
            return Got::End;
        }
        self.at += given;
        Got::Bytes(given)
    }
}

impl Source for MemSource {
    ghost tells = { λ s. record { left = Some s.left; failed = s.failed; answers = s.answers } };

    fn read(&mut self, into: &mut [u8]) -> Got
        requires { 0 < length into.old }
        ensures room { GivesWithin result (length into.old) }
        ensures bytes { ReadsBytes (Some self.old.left) (Some self.new.left) result into.new }
        ensures answers { self.new.answers ≡ self.old.answers ++ answer_of result into.new ∷ [] }
        ensures cause { result ≡ Got.Failed → HasRisen self.old.failed self.new.failed }
        ensures count { self.old.failed ≤ self.new.failed }
        ensures spared { result ≢ Got.Failed → self.new.failed ≡ self.old.failed }

        // The read fails where its number is listed, and else gives all that fits.
        ensures listed { (result ≡ Got.Failed) ↔ Contains self.old.fails self.new.calls }
        ensures fills { FillsUp result self.old.left (length into.old) }

        // What is counted, and what stays.
        ensures calls { self.new.calls ≡ next_count self.old.calls }
        ensures failed { self.new.failed ≡ failed_reads self.old.failed result }
        ensures fails { self.new.fails ≡ self.old.fails }
    {
        let got = self.read_once(into);
        self.answers = answered(&self.answers, got, into);
        got
    }

    fn faults(&self) -> u64 {
        self.faults
    }
}

/// A sink over bytes in memory, whose failures are chosen ahead: a write fails exactly where its
/// number is listed, and else takes the whole piece, unless memory runs out.
#[derive(Drop)]
pub struct MemSink {
    bytes: Vec<u8>,
    fails: Vec<u64>,
    calls: u64,
    faults: u64,
}

impl Model for MemSink {
    ghost use Rattle.maple_io.specs.Memory.{Store};

    ghost Value = { Store };

    ghost view = { λ a. record { taken = a.bytes.items; fails = a.fails.items; calls = a.calls; failed = a.faults } };
}

impl MemSink {
    /// A sink that took nothing, whose writes with the numbers in `fails` fail. The first write has
    /// the number 1, and each from the 2^64 - 1st on has the number 2^64 - 1.
    pub fn new(fails: Vec<u64>) -> MemSink
        ensures taken { result.taken ≡ [] }
        ensures fails { result.fails ≡ fails.items }
        ensures calls { result.calls ≡ 0 }
        ensures failed { result.failed ≡ 0 }
    {
        MemSink {
            bytes: Vec::new(*fails.allocator()),
            fails,
            calls: 0,
            faults: 0,
        }
    }

    /// The bytes that it took, in order.
    pub fn bytes(&self) -> &[u8]
        ensures { result.now ≡ self.now.taken }
    {
        &self.bytes
    }
}

impl Sink for MemSink {
    ghost tells = { λ s. record { taken = Some s.taken; failed = s.failed; took = s.taken } };

    fn write(&mut self, piece: &[u8]) -> Put
        requires { 0 < length piece.now }
        ensures room { TakesWithin result (length piece.now) }
        ensures bytes { WritesBytes (Some self.old.taken) (Some self.new.taken) result piece.now }
        ensures took { self.new.taken ≡ self.old.taken ++ taken_of result piece.now }
        ensures cause { result ≡ Put.Failed → HasRisen self.old.failed self.new.failed }
        ensures count { self.old.failed ≤ self.new.failed }
        ensures spared { result ≢ Put.Failed → self.new.failed ≡ self.old.failed }

        // The write fails where its number is listed, and else takes all, or memory runs out.
        ensures listed { (result ≡ Put.Failed) ↔ Contains self.old.fails self.new.calls }
        ensures all { TakesAll result (length piece.now) }

        // What is counted, and what stays.
        ensures calls { self.new.calls ≡ next_count self.old.calls }
        ensures failed { self.new.failed ≡ failed_writes self.old.failed result }
        ensures fails { self.new.fails ≡ self.old.fails }
    {
        self.calls = self.calls.saturating_add(1);
        if is_listed(&self.fails, self.calls) {
            self.faults = self.faults.saturating_add(1);
            return Put::Failed;
        }
        match self.bytes.extend_from_slice(piece) {
            Ok(()) => Put::Took(piece.len()),
            Err(_) => Put::NoMemory,
        }
    }

    fn faults(&self) -> u64 {
        self.faults
    }
}
