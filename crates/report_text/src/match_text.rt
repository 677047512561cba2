// The text of a match in a report.
ghost use Rattle.std.specs.Prelude.{◌≡◌, ◌<◌, ◌++◌, ◌∷◌, if◌then◌else◌, [], map, decimal, codes};
ghost use Rattle.std.specs.Int.{bytes_high_first};
ghost use Rattle.report_text.specs.Report.{◌&◌, behind, digit, pair, ethernet, dotted, four_digits, spelled_value, spelled_field, spelled_match, fixed_texts, joined, is_free};

use crate::shapes::{number, one};
use crate::sheet::Sheet;
use maple_base::{Field, Match};

/// A match: `name=value` of each fixed field, joined by commas, or `any`.
#[tactic(auto, unfolding(crate::specs::Report::spelled_match))]
pub fn match_text<S: Sheet>(of: &Match, sheet: &mut S)
    ensures { S.takes sheet.old (spelled_match of.now) sheet.new }
{
    if fixes_none(&Field::ALL, of) {
        sheet.text(b"any");
    } else {
        fixed_fields(&Field::ALL, of, sheet);
    }
}

fn fixes_none(fields: &[Field], of: &Match) -> bool
    ensures { result ≡ is_free (fixed_texts of.now fields.now) }
{
    for field in fields {
        if of.fixed(*field).is_some() {
            return false;
        }
    }
    true
}

fn fixed_fields<S: Sheet>(fields: &[Field], of: &Match, sheet: &mut S)
    ensures { S.takes sheet.old (joined (codes ",") (fixed_texts of.now fields.now)) sheet.new }
{
    let mut is_first = true;
    for field in fields {
        match of.fixed(*field) {
            None => {}
            Some(value) => {
                comma_unless(is_first, sheet);
                field_text(*field, value, sheet);
                is_first = false;
            }
        }
    }
}

fn comma_unless<S: Sheet>(is_first: bool, sheet: &mut S)
    ensures { S.takes sheet.old (if is_first then [] else codes ",") sheet.new }
{
    let comma: &[u8] = if is_first { b"" } else { b"," };
    sheet.text(comma);
}

fn field_text<S: Sheet>(field: Field, value: u64, sheet: &mut S)
    ensures { S.takes sheet.old (spelled_field field value) sheet.new }
{
    sheet.text(field.name().as_bytes());
    sheet.text(b"=");
    value_text(field, value, sheet);
}

fn value_text<S: Sheet>(field: Field, value: u64, sheet: &mut S)
    ensures { S.takes sheet.old (spelled_value field value) sheet.new }
{
    match field {
        Field::DlSrc | Field::DlDst => ethernet_text(value, sheet),
        Field::DlType => four_digits_text(value, sheet),
        Field::NwSrc | Field::NwDst => dotted_text(value, sheet),
        _ => number(value, sheet),
    }
}

fn ethernet_text<S: Sheet>(address: u64, sheet: &mut S)
    ensures { S.takes sheet.old (ethernet address) sheet.new }
{
    sheet.text(&six_pairs(low_six(address)));
}

fn low_six(number: u64) -> [u8; 6]
    ensures { result ≡ bytes_high_first 6 number }
{
    let [_, _, a, b, c, d, e, f] = number.to_be_bytes();
    [a, b, c, d, e, f]
}

fn six_pairs(bytes: [u8; 6]) -> [u8; 17]
    ensures { result ≡ joined (codes ":") (map pair bytes) }
{
    let [a, b, c, d, e, f] = bytes;
    let [a1, a0] = pair(a);
    let [b1, b0] = pair(b);
    let [c1, c0] = pair(c);
    let [d1, d0] = pair(d);
    let [e1, e0] = pair(e);
    let [f1, f0] = pair(f);
    [
        a1, a0, b':', b1, b0, b':', c1, c0, b':', d1, d0, b':', e1, e0, b':', f1, f0,
    ]
}

fn pair(byte: u8) -> [u8; 2]
    ensures { result ≡ pair byte }
{
    [digit(byte / 16), digit(byte % 16)]
}

fn digit(worth: u8) -> u8
    requires { worth < 16 }
    ensures { result ≡ digit worth }
{
    if worth < 10 {
        b'0' + worth
    } else {
        b'a' - 10 + worth
    }
}

fn dotted_text<S: Sheet>(address: u64, sheet: &mut S)
    ensures { S.takes sheet.old (dotted address) sheet.new }
{
    let [_, _, _, _, a, b, c, d] = address.to_be_bytes();
    four_numbers(a, b, c, d, sheet);
}

fn four_numbers<S: Sheet>(a: u8, b: u8, c: u8, d: u8, sheet: &mut S)
    ensures { S.takes sheet.old (decimal a & codes "." & decimal b & codes "." & decimal c & codes "." & decimal d) sheet.new }
{
    one(b"", a as u64, b".", sheet);
    one(b"", b as u64, b".", sheet);
    one(b"", c as u64, b".", sheet);
    number(d as u64, sheet);
}

fn four_digits_text<S: Sheet>(number: u64, sheet: &mut S)
    ensures { S.takes sheet.old (four_digits number) sheet.new }
{
    let [_, _, _, _, _, _, high, low] = number.to_be_bytes();
    let [h1, h0] = pair(high);
    let [l1, l0] = pair(low);
    sheet.text(&[b'0', b'x', h1, h0, l1, l0]);
}
