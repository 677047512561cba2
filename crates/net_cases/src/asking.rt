// What the next trace asks.
use case_text::{CaseStop, Words};
use case_values::{cell_of, item_of};
use maple_base::{Cell, EnvNow, Field, Item, Value};
use topo_paths::Scene;

/// ask ITEMS
pub fn push_items(
    items: &mut Vec<Item>,
    words: Words<'_>,
    out: &mut String,
) -> Result<(), CaseStop> {
    for word in words.rest().split_whitespace() {
        items.push(item_of(word)?)?;
    }
    Ok(out.push_str("ok")?)
}

/// many COUNT: whether the source address is each number below this one, and it isn't.
pub fn push_tests(
    items: &mut Vec<Item>,
    mut words: Words<'_>,
    out: &mut String,
) -> Result<(), CaseStop> {
    for value in 0..words.number()? {
        items.push(Item::Test {
            field: Field::DlSrc,
            value,
            outcome: false,
        })?;
    }
    Ok(out.push_str("ok")?)
}

/// read CELLS: with the values that they have now.
pub fn push_cells(
    cells: &mut Vec<(Cell, Value)>,
    scene: &Scene,
    words: Words<'_>,
    out: &mut String,
) -> Result<(), CaseStop> {
    for word in words.rest().split_whitespace() {
        let cell = cell_of(word)?;
        cells.push((cell, scene.cell(cell)))?;
    }
    Ok(out.push_str("ok")?)
}
