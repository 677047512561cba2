//! Keys, matches, rules, decisions, questions, cells and updates as words of cases: how they are read, and how they are written.
#![tactic(auto)]

pub mod cells;
pub mod decisions;
pub mod items;
pub mod keys;
pub mod matches;
pub mod rules;
pub mod updates;

pub use cells::{cell_of, push_cell, push_flag, push_place, push_value};
pub use decisions::{push_decision, push_hops, push_outcome};
pub use items::{item_of, push_item};
pub use keys::{BLANK, key_of, push_key, with_fields};
pub use matches::{match_of, push_match};
pub use rules::{actions_of, push_actions, push_rule, rule_of, rules_of};
pub use updates::{name_of, push_answer, update_of};
