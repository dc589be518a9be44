// The variables of a rule and the scopes that are open.
#![tactic(auto)]

ghost use Rattle.std.specs.Prelude.{◌≤◌, length};
ghost use Rattle.bindings.specs.Bound.{Bound};

mod rules;
mod scopes;
mod variables;

use records::result::{BoundVar, Scope};
use std::marker::Model;
use table::Table;

pub const MAX_VARIABLES: usize = 65_535;

pub const MAX_SCOPES: usize = 1_024;

/// How many variables one rule may have.
const MAX_RULE_VARIABLES: usize = 1_024;

/// The variables of the kept rules and of the rule at hand, and the scopes that are open in it.
#[derive(Drop)]
pub struct Bindings {
    /// Each rule's variables behind those of the rules before it, let variables out of scope included.
    seen: Table<BoundVar, MAX_VARIABLES>,
    /// The open scopes, the innermost last.
    in_scope: Table<Scope, MAX_SCOPES>,
    /// Where the variables of the rule at hand begin.
    first: usize,
    next_scope: u32,
}

/// To a contract its fields, with each table as its items and its limit.
impl Model for Bindings {
    ghost Value = { Bound };

    ghost view = { λ b. record { seen = b.seen; in_scope = b.in_scope; first = b.first; next_scope = b.next_scope } };

    ghost invariant = { λ b. b.first ≤ length b.seen.items };
}
