// The names in force at a place of a policy, and what they stand for.
ghost use Rattle.std.specs.Prelude.{◌≡◌, true, length, take, IfOk, OnOk};
ghost use Rattle.std.specs.List.{list_all};
ghost use Rattle.std.specs.Str.{bytes_eq};
ghost use Rattle.maple_base.specs.Names.{is_name};
ghost use Rattle.policy_lang.specs.Faults.{suits, same_type, meaning_of, with_name, table_names};
ghost use Rattle.policy_lang.specs.Scopes.{type_of_value, type_known, meaning_of_value, meaning_known, names_of};

use indexmap::IndexMap;
use maple_base::{Name, NoMemory};
use std::alloc::Global;

/// What an expression gives.
#[derive(Clone, Copy)]
pub enum ValueType {
    Number,
    Truth,
    Place,
}

/// What a name in force is.
#[derive(Clone, Copy)]
pub enum Meaning {
    Table,
    /// A variable; its type is not known where its value has an unknown name.
    Variable(Option<ValueType>),
}

/// The names in force, in the order in which they were declared.
#[derive(Drop)]
pub struct Scope {
    names: IndexMap<Name, Meaning>,
}

impl ValueType {
    fn is_same(self, other: ValueType) -> bool
        ensures { result ≡ same_type (type_of_value self) (type_of_value other) }
    {
        matches!(
            (self, other),
            (ValueType::Number, ValueType::Number)
                | (ValueType::Truth, ValueType::Truth)
                | (ValueType::Place, ValueType::Place)
        )
    }
}

/// Whether an expression of a type, which may be unknown, stands where another is wanted.
pub fn suits(known: Option<ValueType>, wanted: ValueType) -> bool
    ensures { result ≡ suits (type_known known) (type_of_value wanted) }
{
    match known {
        None => true,
        Some(known) => known.is_same(wanted),
    }
}

/// Whether two names are the same.
pub fn is_same(name: &Name, other: &Name) -> bool
    ensures { result ≡ bytes_eq name.now other.now }
{
    *name == *other
}

impl Scope {
    /// The tables of a policy.
    pub fn of_tables(alloc: Global, tables: &[Name]) -> Result<Scope, NoMemory>
        ensures tables { IfOk result (λ scope. names_of scope ≡ table_names tables.now) }
        ensures named { OnOk result (list_all is_name tables.now ≡ true) }
    {
        let mut scope = Scope {
            names: IndexMap::new(alloc),
        };
        for table in tables {
            scope.declare(table, Meaning::Table)?;
        }
        Ok(scope)
    }

    /// What a name stands for, if it is in force.
    pub fn meaning(&self, name: &Name) -> Option<Meaning>
        ensures meaning { meaning_known result ≡ meaning_of name.now (names_of self.now) }
        ensures name { is_name name.now ≡ true }
    {
        // Its type keeps that the text is a name.
        name.text();
        self.names.get(name).copied()
    }

    /// Declares a name, unless it is in force.
    pub fn declare(&mut self, name: &Name, meaning: Meaning) -> Result<(), NoMemory>
        ensures names { OnOk result (names_of self.new ≡ with_name name.now (meaning_of_value meaning) (names_of self.old)) }
        ensures name { is_name name.now ≡ true }
    {
        // Its type keeps that the text is a name.
        name.text();
        if !self.names.contains_key(name) {
            self.names.insert(*name, meaning)?;
        }
        Ok(())
    }

    #[tactic(auto, using(crate::proofs::Scopes::length_in_force))]
    /// How many names are in force.
    pub fn len(&self) -> usize
        ensures { result ≡ length (names_of self.now) }
    {
        self.names.len()
    }

    #[tactic(auto, using(crate::proofs::Scopes::in_force_front))]
    /// Only so many names stay in force, those that were declared first.
    pub fn leave(&mut self, count: usize)
        ensures { names_of self.new ≡ take count (names_of self.old) }
    {
        self.names.truncate(count);
    }
}
