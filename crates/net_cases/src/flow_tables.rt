// A flow table: what changes answer, and which rule is chosen.
use case_text::{CaseStop, Subject, Words};
use case_values::{key_of, match_of, push_flag, push_rule, rule_of, rules_of};
use flow_table::Table;
use maple_base::{NoMemory, TableMod};
use std::alloc::Global;

/// A flow table, at first without room.
#[derive(Drop)]
pub struct FlowTable {
    alloc: Global,
    table: Table,
}

impl Subject for FlowTable {
    fn new(alloc: Global) -> Result<FlowTable, NoMemory> {
        Ok(FlowTable {
            alloc,
            table: Table::new(alloc, 0),
        })
    }

    fn answer(&mut self, call: Words<'_>, out: &mut String) -> Result<(), CaseStop> {
        let mut words = call;
        match words.word() {
            "room" => self.make_room(words, out),
            "add" => self.add(words, out),
            "delete" => delete(&mut self.table, words, out),
            "clear" => apply(&mut self.table, &TableMod::DeleteAll, out),
            "len?" => Ok(write!(out, "{}", self.table.len())?),
            "chosen?" => tell_chosen(&self.table, words, out),
            "among?" => tell_among(self.alloc, &self.table, words, out),
            _ => Err(CaseStop::Unread),
        }
    }
}

impl FlowTable {
    // room COUNT: an empty table with room for so many rules.
    fn make_room(&mut self, mut words: Words<'_>, out: &mut String) -> Result<(), CaseStop> {
        self.table = Table::new(self.alloc, words.number_u32()?);
        Ok(out.push_str("ok")?)
    }

    // add RULE
    fn add(&mut self, mut words: Words<'_>, out: &mut String) -> Result<(), CaseStop> {
        let rule = rule_of(self.alloc, &mut words)?;
        apply(&mut self.table, &TableMod::Add(rule), out)
    }
}

fn apply(table: &mut Table, change: &TableMod, out: &mut String) -> Result<(), CaseStop> {
    let applied = table.apply(change);
    Ok(write!(out, "{applied:?}")?)
}

// delete PRIORITY MATCH
fn delete(table: &mut Table, mut words: Words<'_>, out: &mut String) -> Result<(), CaseStop> {
    let priority = words.number_u16()?;
    let of = match_of(words.word())?;
    apply(table, &TableMod::DeleteStrict { of, priority }, out)
}

// chosen? KEY
fn tell_chosen(table: &Table, words: Words<'_>, out: &mut String) -> Result<(), CaseStop> {
    let key = key_of(words)?;
    match table.choose(&key) {
        Some(rule) => Ok(push_rule(rule, out)?),
        None => Ok(out.push_str("none")?),
    }
}

// among? RULES: whether the rule that is chosen for `web` is one of these.
fn tell_among(
    alloc: Global,
    table: &Table,
    words: Words<'_>,
    out: &mut String,
) -> Result<(), CaseStop> {
    let key = key_of(Words::new("web"))?;
    let (rules, _) = rules_of(alloc, words)?;
    match table.choose(&key) {
        Some(rule) => Ok(push_flag(rules.contains(rule), out)?),
        None => Ok(out.push_str("none")?),
    }
}
