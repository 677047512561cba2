// A packet that waits for an answer, as it is told.
ghost use Rattle.std.specs.Prelude.{◌≡◌, true};
ghost use Rattle.maple_base.specs.Keys.{valid_key};

use maple_base::Key;
use std::marker::Model;

/// A packet that waits for an answer. Its key is valid.
#[derive(Clone, Copy, Debug, PartialEq, Eq)]
pub struct JobItem {
    job: u64,
    switch: u64,
    key: Key,
}

impl Model for JobItem {
    ghost use Rattle.std.specs.Prelude.{◌≡◌, true};
    ghost use Rattle.maple_base.specs.Keys.{valid_key};
    ghost use Rattle.machine_steps.specs.Waiting.{Waiting};

    ghost Value = { Waiting };

    ghost view = { λ a. record { job = a.job; switch = a.switch; key = a.key } };

    ghost invariant = { λ a. valid_key a.key ≡ true };

    ghost inverse = { λ d. record { job = d.job; switch = d.switch; key = d.key } };
}

impl JobItem {
    /// A packet that waits, with a valid key.
    pub fn new(job: u64, switch: u64, key: Key) -> JobItem
        requires { valid_key key ≡ true }
        ensures { result ≡ record { job = job; switch = switch; key = key } }
    {
        JobItem { job, switch, key }
    }

    /// Its number, from 1 on.
    pub fn job(&self) -> u64
        ensures { result ≡ self.now.job }
    {
        self.job
    }

    /// The datapath id of the switch that it came to.
    pub fn switch(&self) -> u64
        ensures { result ≡ self.now.switch }
    {
        self.switch
    }

    /// Its key.
    pub fn key(&self) -> &Key
        ensures key { result.now ≡ self.now.key }
        ensures valid { valid_key result.now ≡ true }
    {
        &self.key
    }
}
