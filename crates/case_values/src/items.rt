// Questions with their answers: `field=number?yes`, `field=number?no`, or `field=number`, where the field's number was asked for.
use crate::matches::field_and_number;
use case_text::{CaseStop, Words};
use maple_base::Item;
use std::alloc::AllocError;

/// The question that a word is, with its answer.
pub fn item_of(word: &str) -> Result<Item, CaseStop> {
    match word.split_once('?') {
        None => {
            let (field, value) = field_and_number(word)?;
            Ok(Item::Read { field, value })
        }
        Some((question, answer)) => {
            let (field, value) = field_and_number(question)?;
            let outcome = Words::new(answer).flag()?;
            Ok(Item::Test {
                field,
                value,
                outcome,
            })
        }
    }
}

/// Appends a question with its answer as `item_of` reads it.
pub fn push_item(item: &Item, out: &mut String) -> Result<(), AllocError> {
    match *item {
        Item::Read { field, value } => write!(out, "{}={value}", field.name()),
        Item::Test {
            field,
            value,
            outcome,
        } => {
            let answer = if outcome { "yes" } else { "no" };
            write!(out, "{}={value}?{answer}", field.name())
        }
    }
}
