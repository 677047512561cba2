// The shapes of most lines: texts round numbers.
ghost use Rattle.std.specs.Prelude.{◌++◌, decimal, codes};
ghost use Rattle.report_text.specs.Report.{◌&◌};

use crate::sheet::Sheet;
use itoa::Buffer;

/// A number in decimal digits.
pub fn number<S: Sheet>(number: u64, sheet: &mut S)
    ensures { S.takes sheet.old (decimal number) sheet.new }
{
    let mut buffer = Buffer::new();
    sheet.text(buffer.format(number).as_bytes());
}

/// A number between two texts.
pub fn one<S: Sheet>(head: &[u8], n: u64, end: &[u8], sheet: &mut S)
    ensures { S.takes sheet.old (head.now & decimal n & end.now) sheet.new }
{
    sheet.text(head);
    number(n, sheet);
    sheet.text(end);
}

/// Two numbers among three texts.
pub fn two<S: Sheet>(head: &[u8], n: u64, between: &[u8], m: u64, end: &[u8], sheet: &mut S)
    ensures { S.takes sheet.old (head.now & decimal n & between.now & decimal m & end.now) sheet.new }
{
    sheet.text(head);
    number(n, sheet);
    one(between, m, end, sheet);
}

/// Three numbers among four texts.
pub fn three<S: Sheet>(head: &[u8], n: u64, next: &[u8], m: u64, last: &[u8], o: u64, sheet: &mut S)
    ensures { S.takes sheet.old (head.now & decimal n & next.now & decimal m & last.now & decimal o & codes "\n") sheet.new }
{
    sheet.text(head);
    number(n, sheet);
    two(next, m, last, o, b"\n", sheet);
}
