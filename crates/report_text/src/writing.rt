// Writing the lines of a report.
ghost use Rattle.std.specs.Prelude.{◌≡◌, ◌+◌, ◌-◌, ◌<◌, ◌≤◌, ◌^◌, ◌++◌, true, min, length, vec_len, vec_capacity, IsOk, OnOk, OnErr};
ghost use Rattle.report_text.specs.Report.{spelled};
ghost use Rattle.report_text.specs.Short.{is_short};

use crate::line::{Line, SHORT_LINE};
use crate::sheet::Count;
use crate::spelling::spell;
use maple_base::NoMemory;

/// Appends a line of a report, with its line feed. Where `out` has room for the line, it takes no
/// memory.
///
/// # Errors
///
/// Where memory runs out; never where `out` has room for the line. Then `out` has what it had. Its
/// capacity is never lowered.
pub fn write_line(line: &Line, out: &mut Vec<u8>) -> Result<(), NoMemory>
    ensures line { OnOk result (out.new.items ≡ out.old.items ++ spelled line.now) }
    ensures kept { OnErr result (out.new.items ≡ out.old.items) }
    ensures capacity { vec_capacity out.old ≤ vec_capacity out.new }
    ensures room { OnErr result (vec_capacity out.old < vec_len out.old + length (spelled line.now)) }
    ensures short { is_short line.now ≡ true → OnErr result (vec_capacity out.old < vec_len out.old + SHORT_LINE) }
    ensures in_place { vec_len out.old + length (spelled line.now) ≤ vec_capacity out.old → vec_capacity out.new ≡ vec_capacity out.old }
{
    let len = line_len(line);
    if out.capacity() - out.len() < len {
        out.reserve(len)?;
    }
    spell(line, out);
    Ok(())
}

/// How many bytes a line has, with its line feed. The number stands still at `usize::MAX`.
pub fn line_len(line: &Line) -> usize
    ensures len { result ≡ min (length (spelled line.now)) usize.MAX }
    ensures short { is_short line.now ≡ true → result ≤ SHORT_LINE }
{
    let mut count = Count { bytes: 0 };
    spell(line, &mut count);
    count.bytes
}
