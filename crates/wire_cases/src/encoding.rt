// Messages and matches as they are written.
use crate::bodies::push_body;
use crate::spelling::repeated;
use crate::writing::{Form, Writing, match_fits};
use case_text::{CaseStop, Words, push_hex};
use case_values::match_of;
use of10_codec::match_bytes;
use std::alloc::Global;

/// XID BODY: what is written of a message, whose body has the bytes behind ` : `.
pub fn push_message(
    alloc: Global,
    form: Form,
    mut call: Words<'_>,
    out: &mut String,
) -> Result<(), CaseStop> {
    let xid = call.number_u32()?;
    let (words, digits) = call.rest().split_once(" : ").unwrap_or((call.rest(), ""));
    let bytes = repeated(alloc, digits)?;
    push_body(Writing { alloc, form, xid }, Words::new(words), &bytes, out)
}

/// match MATCH: its 40 bytes.
pub fn push_match(mut call: Words<'_>, out: &mut String) -> Result<(), CaseStop> {
    let of = match_of(call.word())?;
    if !match_fits(&of) {
        return Err(CaseStop::Unread);
    }
    Ok(push_hex(&match_bytes(&of), out)?)
}
