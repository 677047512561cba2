// The fields of a packet line.
ghost use Rattle.std.specs.Prelude.{◌≡◌, ◌<◌, ◌^◌, IfSome};
ghost use Rattle.maple_base.specs.Keys.{width_of, anything};
ghost use Rattle.maple_text.specs.Parts.{rest_parts};
ghost use Rattle.script_text.specs.FieldReading.{field_called, field_word, with_named, named_by};
ghost use Rattle.script_text.specs.PacketFields.{key_by};

use crate::words::{number_below, two_parts};
use maple_base::{Field, IP_TYPE, Key, Match, NO_VLAN, TCP};
use maple_text::cut;

/// The fields that the words of a text name, each at most once.
pub fn named_fields(words: Option<&[u8]>) -> Option<Match>
    ensures { result ≡ named_by (rest_parts 32 words.entry) anything }
{
    let mut fields = Match::any();
    let mut rest = words;
    while let Some(text) = rest {
        let (word, behind) = cut(b' ', text);
        fields = with_named(fields, word)?;
        rest = behind;
    }
    Some(fields)
}

#[tactic(auto, unfolding(crate::specs::FieldReading::with_named))]
fn with_named(fields: Match, word: &[u8]) -> Option<Match>
    ensures { result ≡ with_named fields word.now }
{
    let (field, value) = field_word(word)?;
    match fields.fixed(field) {
        None => Some(fields.fixing(field, value)),
        Some(_) => None,
    }
}

// The field and the number of a word `name=number`.
#[tactic(auto, unfolding(crate::specs::FieldReading::field_word))]
fn field_word(word: &[u8]) -> Option<(Field, u64)>
    ensures field { result ≡ field_word word.now }
    ensures width { IfSome result (λ f. f.1 < 2 ^ width_of f.0) }
{
    let (name, number) = two_parts(b'=', word)?;
    let field = field_called(name)?;
    let value = number_below(field_end(field), number)?;
    Some((field, value))
}

// The least number that doesn't fit a field's width.
fn field_end(field: Field) -> u64
    ensures { result ≡ 2 ^ width_of field }
{
    1 << field.width()
}

// The field of a name, where a line may name it: in_port is the line's own.
#[tactic(auto, unfolding(crate::specs::FieldReading::field_called))]
fn field_called(name: &[u8]) -> Option<Field>
    ensures { result ≡ field_called name.now }
{
    match Field::named(name)? {
        Field::InPort => None,
        field => Some(field),
    }
}

/// The key of a packet that came in by a port: a field that isn't named is 0, but dl_vlan is
/// 0xffff, dl_type 0x0800, and nw_proto 6 behind an IP type.
pub fn key_by(port: u16, named: Match) -> Key
    ensures { result ≡ key_by port named }
{
    let dl_type = named.dl_type.unwrap_or(IP_TYPE);
    Key {
        in_port: port,
        dl_src: named.dl_src.unwrap_or(0),
        dl_dst: named.dl_dst.unwrap_or(0),
        dl_vlan: named.dl_vlan.unwrap_or(NO_VLAN),
        dl_pcp: 0,
        dl_type,
        nw_tos: named.nw_tos.unwrap_or(0),
        nw_proto: named
            .nw_proto
            .unwrap_or(if dl_type == IP_TYPE { TCP } else { 0 }),
        nw_src: named.nw_src.unwrap_or(0),
        nw_dst: named.nw_dst.unwrap_or(0),
        tp_src: named.tp_src.unwrap_or(0),
        tp_dst: named.tp_dst.unwrap_or(0),
    }
}
