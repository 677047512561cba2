// A policy: what its runs ask and decide, and that evaluation decides the same.
use crate::changing::Changing;
use crate::recorded::push_record;
use case_text::{CaseStop, Subject, Words};
use case_values::{key_of, push_outcome};
use maple_base::{Blank, EnvView, Key, NoMemory, Outcome};
use policy_eval::eval;
use policy_lang::Policy;
use policy_text::{ReadError, read_policy};
use std::alloc::Global;
use trace_record::{RecordError, Run, record};

/// A policy, once its text was read.
#[derive(Drop)]
pub struct Policies {
    alloc: Global,
    policy: Option<Policy>,
}

impl Subject for Policies {
    fn new(alloc: Global) -> Result<Policies, NoMemory> {
        Ok(Policies {
            alloc,
            policy: None,
        })
    }

    fn answer(&mut self, call: Words<'_>, out: &mut String) -> Result<(), CaseStop> {
        let mut words = call;
        match words.word() {
            "policy" => self.read(words, out),
            "eval" => evaluate(self.alloc, self.now()?, words, out),
            "trace" => trace(self.alloc, self.now()?, words, out),
            "trace_over" => trace_over(self.alloc, self.now()?, words, out),
            _ => Err(CaseStop::Unread),
        }
    }
}

impl Policies {
    // policy STATEMENTS: the policy that has these statements.
    fn read(&mut self, words: Words<'_>, out: &mut String) -> Result<(), CaseStop> {
        let text = format!(in self.alloc; "policy {{ {} }}", words.rest())?;
        self.policy = Some(policy_of(self.alloc, text.as_bytes())?);
        Ok(out.push_str("ok")?)
    }

    fn now(&self) -> Result<&Policy, CaseStop> {
        self.policy.as_ref().ok_or(CaseStop::Unread)
    }
}

fn policy_of(alloc: Global, text: &[u8]) -> Result<Policy, CaseStop> {
    match read_policy(alloc, text) {
        Ok(policy) => Ok(policy),
        Err(ReadError::NoMemory) => Err(CaseStop::NoMemory),
        Err(ReadError::Refused { .. }) => Err(CaseStop::Unread),
    }
}

// eval BUDGET KEY: what is decided at switch 7, in an environment without anything.
fn evaluate(
    alloc: Global,
    policy: &Policy,
    mut words: Words<'_>,
    out: &mut String,
) -> Result<(), CaseStop> {
    let budget = words.number_u32()?;
    let key = key_of(words)?;
    Ok(push_outcome(&outcome_of(alloc, policy, budget, &key)?, out)?)
}

fn outcome_of(alloc: Global, policy: &Policy, budget: u32, key: &Key) -> Result<Outcome, CaseStop> {
    if key.valid() && 1 <= budget && budget <= 65_536 {
        Ok(eval(alloc, policy, budget, &Blank, 7, key)?)
    } else {
        Err(CaseStop::Unread)
    }
}

// trace BUDGET KEY: the run of the policy of number 3 at switch 7, in an environment without anything.
fn trace(
    alloc: Global,
    policy: &Policy,
    mut words: Words<'_>,
    out: &mut String,
) -> Result<(), CaseStop> {
    let budget = words.number_u32()?;
    let key = key_of(words)?;
    let run = run_of(alloc, policy, budget, &key, &mut Blank)?;
    push_record(&run, &key, out)
}

// trace_over REFUSES REFUSALS BUDGET KEY: the same, over a view that changes, refuses one read, and
// has refused so many.
fn trace_over(
    alloc: Global,
    policy: &Policy,
    mut words: Words<'_>,
    out: &mut String,
) -> Result<(), CaseStop> {
    let mut view = Changing {
        reads: 0,
        refuses: words.number()?,
        refusals: words.number()?,
    };
    let budget = words.number_u32()?;
    let key = key_of(words)?;
    let run = run_of(alloc, policy, budget, &key, &mut view)?;
    push_record(&run, &key, out)
}

fn run_of<V: EnvView>(
    alloc: Global,
    policy: &Policy,
    budget: u32,
    key: &Key,
    view: &mut V,
) -> Result<Result<Run, RecordError>, CaseStop> {
    if key.valid() && 1 <= budget && budget <= 65_536 {
        Ok(record(alloc, policy, 3, budget, 7, key, view))
    } else {
        Err(CaseStop::Unread)
    }
}
