// Matches: `any`, or `FIELD=NUMBER,FIELD=NUMBER,..`.
use case_text::{CaseStop, Words};
use maple_base::{Field, Match};
use std::alloc::AllocError;

/// The match that a word is.
pub fn match_of(word: &str) -> Result<Match, CaseStop> {
    let mut of = Match::any();
    if word == "any" {
        return Ok(of);
    }
    for part in word.split(',') {
        of = with_part(of, part)?;
    }
    Ok(of)
}

/// A match that fixes besides what `FIELD=NUMBER` tells.
pub fn with_part(of: Match, part: &str) -> Result<Match, CaseStop> {
    let mut new = of;
    if let Some(priority) = part.strip_prefix("dl_pcp=") {
        new.dl_pcp = Some(Words::new(priority).number_u8()?);
        return Ok(new);
    }
    let (field, value) = field_and_number(part)?;
    match field {
        Field::InPort => new.in_port = Some(u16::try_from(value)?),
        Field::DlSrc => new.dl_src = Some(value),
        Field::DlDst => new.dl_dst = Some(value),
        Field::DlVlan => new.dl_vlan = Some(u16::try_from(value)?),
        Field::DlType => new.dl_type = Some(u16::try_from(value)?),
        Field::NwTos => new.nw_tos = Some(u8::try_from(value)?),
        Field::NwProto => new.nw_proto = Some(u8::try_from(value)?),
        Field::NwSrc => new.nw_src = Some(u32::try_from(value)?),
        Field::NwDst => new.nw_dst = Some(u32::try_from(value)?),
        Field::TpSrc => new.tp_src = Some(u16::try_from(value)?),
        Field::TpDst => new.tp_dst = Some(u16::try_from(value)?),
    }
    Ok(new)
}

/// The field and the number of a word `FIELD=NUMBER`.
pub fn field_and_number(word: &str) -> Result<(Field, u64), CaseStop> {
    let (name, value) = word.split_once('=').ok_or(CaseStop::Unread)?;
    let field = Field::named(name.as_bytes()).ok_or(CaseStop::Unread)?;
    Ok((field, Words::new(value).number()?))
}

/// The fields, in their order.
pub fn fields() -> &'static [Field] {
    FIELDS
}

const FIELDS: &[Field] = &Field::ALL;

/// Appends a match as `match_of` reads it, its fields in their order and `dl_pcp` last, its numbers in decimal digits.
pub fn push_match(of: &Match, out: &mut String) -> Result<(), AllocError> {
    let begin = out.len();
    for field in fields() {
        if let Some(value) = of.fixed(*field) {
            push_part(field.name(), value, begin, out)?;
        }
    }
    if let Some(value) = of.dl_pcp {
        push_part("dl_pcp", value as u64, begin, out)?;
    }
    if out.len() == begin {
        out.push_str("any")?;
    }
    Ok(())
}

/// Appends `FIELD=NUMBER`, behind a comma where something stands behind `begin`.
pub fn push_part(
    name: &str,
    number: u64,
    begin: usize,
    out: &mut String,
) -> Result<(), AllocError> {
    let comma = if begin < out.len() { "," } else { "" };
    write!(out, "{comma}{name}={number}")
}
