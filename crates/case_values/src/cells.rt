// Cells, `host:MAC`, `hop:FROM:TO`, `up:SWITCH:PORT`, `num:TABLE:KEY`, and what they have.
use crate::updates::name_of;
use case_text::{CaseStop, Words, push_text};
use maple_base::{Cell, Place, Value};
use std::alloc::AllocError;

/// The cell that a word is.
pub fn cell_of(word: &str) -> Result<Cell, CaseStop> {
    let (kind, rest) = word.split_once(':').ok_or(CaseStop::Unread)?;
    let (first, second) = rest.split_once(':').unwrap_or((rest, ""));
    let key = Words::new(second).number();
    match kind {
        "host" => Ok(Cell::Host(Words::new(rest).number()?)),
        "hop" => Ok(Cell::Hop {
            from: Words::new(first).number()?,
            to: key?,
        }),
        "up" => Ok(Cell::Up {
            switch: Words::new(first).number()?,
            port: key?,
        }),
        "num" => Ok(Cell::Num {
            table: name_of(first)?,
            key: key?,
        }),
        _ => Err(CaseStop::Unread),
    }
}

/// Appends a cell as `cell_of` reads it.
pub fn push_cell(cell: Cell, out: &mut String) -> Result<(), AllocError> {
    match cell {
        Cell::Host(mac) => write!(out, "host:{mac}"),
        Cell::Hop { from, to } => write!(out, "hop:{from}:{to}"),
        Cell::Up { switch, port } => write!(out, "up:{switch}:{port}"),
        Cell::Num { table, key } => {
            out.push_str("num:")?;
            push_text(table.text(), out)?;
            write!(out, ":{key}")
        }
    }
}

/// Appends what a cell has: `nothing`, `yes` or `no`, a number, or the switch and the port of a place.
pub fn push_value(value: Value, out: &mut String) -> Result<(), AllocError> {
    match value {
        Value::Nothing => out.push_str("nothing"),
        Value::Flag(flag) => push_flag(flag, out),
        Value::Number(number) => write!(out, "{number}"),
        Value::At(place) => push_place(place, out),
    }
}

/// Appends `yes` or `no`.
pub fn push_flag(flag: bool, out: &mut String) -> Result<(), AllocError> {
    out.push_str(if flag { "yes" } else { "no" })
}

/// Appends the switch and the port of a place.
pub fn push_place(place: Place, out: &mut String) -> Result<(), AllocError> {
    write!(out, "{} {}", place.switch, place.port)
}
