// What is asked of a packet: a question that earlier answers settle isn't.
ghost use Rattle.std.specs.Prelude.{◌≡◌, ◌==◌, ◌++◌, ◌∷◌, [], None, IfOk, OnOk};
ghost use Rattle.maple_base.specs.Keys.{field_of, has_ports};
ghost use Rattle.maple_base.specs.Questions.{excluded, field_number, known};
ghost use Rattle.policy_meaning.specs.Through.{no_ports, ask_net, ask_ports, ask_header, ask_field, ask_test};
ghost use Rattle.policy_meaning.specs.Notes.{Asked};
ghost use Rattle.maple_base.specs.declared.items.Item.TheVariants.{Read, Test};

use maple_base::{Field, ICMP, IP_TYPE, Item, Items, Key, NoMemory, TCP, UDP};
use std::alloc::Global;
use std::collections::HashSet;
use std::marker::Model;

// How many fields there are.
const FIELDS: usize = Field::ALL.len();

// What was asked of a packet, with the answers, in order.
#[derive(Drop)]
pub struct AskedItems {
    list: Vec<Item>,
    // The value that each field was fixed to, by the field's number, and the values that fields can't have.
    known: [Option<u64>; FIELDS],
    excluded: HashSet<(Field, u64)>,
}

impl Model for AskedItems {
    ghost use Rattle.std.specs.Prelude.{List};
    ghost use Rattle.maple_base.specs.declared.items.Item.{Item};
    ghost use Rattle.trace_record.specs.Tables.{AreOf};

    ghost Value = { List Item };

    ghost view = { λ a. a.list.items };

    ghost invariant = { λ a. AreOf a.list.items a.known a.excluded };
}

// Where the value of a field stands.
fn place(field: Field) -> usize
    ensures { result ≡ field_number field }
{
    field as usize
}

fn has_ports(proto: u64) -> bool
    ensures { result ≡ has_ports proto }
{
    proto == ICMP as u64 || proto == TCP as u64 || proto == UDP as u64
}

impl AskedItems {
    pub fn new(alloc: Global) -> AskedItems
        ensures { result ≡ [] }
    {
        AskedItems {
            list: Vec::new(alloc),
            known: [None; FIELDS],
            excluded: HashSet::new(alloc),
        }
    }

    // The value that the items fixed a field to.
    fn known(&self, field: Field) -> Option<u64>
        ensures { result ≡ known field self.now }
    {
        self.known[place(field)]
    }

    // Whether a false test excluded this value of a field.
    fn excluded(&self, field: Field, value: u64) -> bool
        ensures { result ≡ excluded field value self.now }
    {
        self.excluded.contains(&(field, value))
    }

    // Reads a field that nothing has fixed.
    fn read(&mut self, field: Field, key: &Key) -> Result<u64, NoMemory>
        requires new { known field self.old ≡ None }
        ensures value { IfOk result (λ value. value ≡ field_of key.now field) }
        ensures items { OnOk result (self.new ≡ self.old ++ Read field (field_of key.now field) ∷ []) }
    {
        let value = key.get(field);
        self.list.reserve(1)?;
        self.known[place(field)] = Some(value);
        self.list.push_reserved(Item::Read { field, value });
        Ok(value)
    }

    // Tests whether a field that nothing has fixed has a value.
    fn test(&mut self, field: Field, value: u64, key: &Key) -> Result<bool, NoMemory>
        requires new { known field self.old ≡ None }
        ensures truth { IfOk result (λ truth. truth ≡ (field_of key.now field == value)) }
        ensures items { OnOk result (self.new ≡ self.old ++ Test field value (field_of key.now field == value) ∷ []) }
    {
        let outcome = key.get(field) == value;
        self.list.reserve(1)?;
        if outcome {
            self.known[place(field)] = Some(value);
        } else {
            self.excluded.insert((field, value))?;
        }
        self.list.push_reserved(Item::Test {
            field,
            value,
            outcome,
        });
        Ok(outcome)
    }

    pub fn into_items(self) -> Items
        ensures { result ≡ self }
    {
        Items::new(self.list)
    }

    // Whether the packet has an IP header.
    fn ask_net(&mut self, key: &Key) -> Result<bool, NoMemory>
        ensures { IfOk result (λ truth. Asked key.now self.old ask_net self.new truth) }
    {
        match self.known(Field::DlType) {
            Some(value) => Ok(value == IP_TYPE as u64),
            None if self.excluded(Field::DlType, IP_TYPE as u64) => Ok(false),
            None => Ok(self.read(Field::DlType, key)? == IP_TYPE as u64),
        }
    }

    // Whether false tests excluded each protocol that has ports.
    fn excludes_ports(&self) -> bool
        ensures { result ≡ no_ports self.now }
    {
        self.excluded(Field::NwProto, ICMP as u64)
            && self.excluded(Field::NwProto, TCP as u64)
            && self.excluded(Field::NwProto, UDP as u64)
    }

    // Whether the packet has ports.
    fn ask_ports(&mut self, key: &Key) -> Result<bool, NoMemory>
        ensures { IfOk result (λ truth. Asked key.now self.old ask_ports self.new truth) }
    {
        if !self.ask_net(key)? {
            return Ok(false);
        }
        match self.known(Field::NwProto) {
            Some(value) => Ok(has_ports(value)),
            None if self.excludes_ports() => Ok(false),
            None => Ok(has_ports(self.read(Field::NwProto, key)?)),
        }
    }

    // Whether the packet has the header of a field.
    fn ask_header(&mut self, field: Field, key: &Key) -> Result<bool, NoMemory>
        ensures { IfOk result (λ truth. Asked key.now self.old (ask_header field) self.new truth) }
    {
        match field {
            Field::NwTos | Field::NwProto | Field::NwSrc | Field::NwDst => self.ask_net(key),
            Field::TpSrc | Field::TpDst => self.ask_ports(key),
            _ => Ok(true),
        }
    }

    // The value of a field.
    pub fn ask_field(&mut self, field: Field, key: &Key) -> Result<u64, NoMemory>
        ensures { IfOk result (λ value. Asked key.now self.old (ask_field field) self.new value) }
    {
        if !self.ask_header(field, key)? {
            return Ok(0);
        }
        match self.known(field) {
            Some(value) => Ok(value),
            None => self.read(field, key),
        }
    }

    // Whether a field has a value.
    pub fn ask_test(&mut self, field: Field, value: u64, key: &Key) -> Result<bool, NoMemory>
        ensures { IfOk result (λ truth. Asked key.now self.old (ask_test field value) self.new truth) }
    {
        if !field.in_domain(value) {
            return Ok(false);
        }
        if !self.ask_header(field, key)? {
            return Ok(0 == value);
        }
        match self.known(field) {
            Some(fixed) => Ok(fixed == value),
            None if self.excluded(field, value) => Ok(false),
            None => self.test(field, value, key),
        }
    }
}
