// The typed trees of rules, as records one after another.
#![tactic(auto)]

ghost use Rattle.std.specs.Prelude.{◌≤◌, length};
ghost use Rattle.typed.specs.Trees.{Trees};

mod rules;
mod trees;

use records::result::Output;
use std::marker::Model;
use table::Table;

pub const MAX_OUTPUT: usize = 65_535;

/// How many records the trees of one rule may have.
const MAX_RULE_OUTPUT: usize = 4_096;

/// The records of the kept rules and of the rule at hand.
#[derive(Drop)]
pub struct TypedTrees {
    /// Each rule's records behind those of the rules before it.
    records: Table<Output, MAX_OUTPUT>,
    /// Where the records of the rule at hand begin: behind all of them where none is.
    first: usize,
}

/// To a contract its fields, with the table as its items and its limit.
impl Model for TypedTrees {
    ghost Value = { Trees };

    ghost view = { λ t. record { records = t.records; first = t.first } };

    ghost invariant = { λ t. t.first ≤ length t.records.items };
}

/// A place between records: how many stand in front of it.
#[derive(Clone, Copy)]
pub struct Mark(usize);
