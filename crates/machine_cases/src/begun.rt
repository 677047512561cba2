// What a call `new` begins.
use case_text::{CaseStop, Subject, Words};
use maple_base::NoMemory;
use std::alloc::Global;

/// What a call `new` begins, and all further calls are made of.
pub trait Begins: Drop {
    /// What the words behind `new` tell of.
    fn begin(alloc: Global, words: Words<'_>) -> Result<Self, CaseStop>;

    /// Appends the answer to a call.
    fn tell(&mut self, alloc: Global, call: Words<'_>, out: &mut String) -> Result<(), CaseStop>;
}

/// What `new` began, once there was one.
#[derive(Drop)]
pub struct Begun<T: Begins> {
    alloc: Global,
    begun: Option<T>,
}

impl<T: Begins> Subject for Begun<T> {
    fn new(alloc: Global) -> Result<Begun<T>, NoMemory> {
        Ok(Begun { alloc, begun: None })
    }

    fn answer(&mut self, call: Words<'_>, out: &mut String) -> Result<(), CaseStop> {
        let mut words = call;
        if words.word() == "new" {
            self.begun = Some(T::begin(self.alloc, words)?);
            return Ok(out.push_str("ok")?);
        }
        match &mut self.begun {
            Some(begun) => begun.tell(self.alloc, call, out),
            None => Err(CaseStop::Unread),
        }
    }
}
