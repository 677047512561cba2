// Calls that have no state.
use crate::bodies::{body, body_form};
use crate::decisions::{decide, out, ports};
use crate::fault_names::names;
use crate::forms::{fault, form, reread, value};
use crate::grammar::{events, first_wrong, stack};
use crate::orders::script;
use crate::outline::{nodes, outline, place};
use crate::tokens::tokens;
use crate::trees::tree;
use case_text::{CaseStop, Subject, Words};
use maple_base::NoMemory;
use std::alloc::Global;

/// What is read of texts, trees with their faults and printed forms, what policies decide, and what scripts ask for.
#[derive(Drop)]
pub struct Calls {
    alloc: Global,
}

impl Subject for Calls {
    fn new(alloc: Global) -> Result<Calls, NoMemory> {
        Ok(Calls { alloc })
    }

    fn answer(&mut self, call: Words<'_>, shown: &mut String) -> Result<(), CaseStop> {
        let mut words = call;
        match words.word() {
            "tokens" => tokens(self.alloc, words, shown),
            "wrong" => first_wrong(self.alloc, words, shown),
            "events" => events(self.alloc, words, shown),
            "stack" => stack(self.alloc, words, shown),
            "outline" => outline(self.alloc, words, shown),
            "nodes" => nodes(self.alloc, words, shown),
            "place" => place(self.alloc, words, shown),
            "tree" => tree(self.alloc, words, shown),
            "body" => body(self.alloc, words, shown),
            "body_form" => body_form(self.alloc, words, shown),
            "names" => names(self.alloc, words, shown),
            "form" => form(self.alloc, words, shown),
            "value" => value(self.alloc, words, shown),
            "reread" => reread(self.alloc, words, shown),
            "fault" => fault(self.alloc, words, shown),
            "decide" => decide(self.alloc, words, shown),
            "out" => out(self.alloc, words, shown),
            "ports" => ports(self.alloc, words, shown),
            "script" => script(self.alloc, words, shown),
            _ => Err(CaseStop::Unread),
        }
    }
}
