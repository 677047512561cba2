// The report as text.
ghost use Rattle.std.specs.Prelude.{◌≡◌, IfOk};
ghost use Rattle.std.specs.List.{flat_map};
ghost use Rattle.report_text.specs.Report.{spelled};

use maple_base::{Bytes, NoMemory};
use report_text::{Line, write_line};
use std::alloc::Global;

/// Lines of a report, as they are spelled.
///
/// # Errors
///
/// `NoMemory`.
pub fn written(alloc: Global, lines: &[Line]) -> Result<Bytes, NoMemory>
    ensures { IfOk result (λ text. text ≡ flat_map spelled lines.now) }
{
    let mut text = Vec::new(alloc);
    for line in lines {
        write_line(line, &mut text)?;
    }
    Ok(Bytes::new(text))
}
