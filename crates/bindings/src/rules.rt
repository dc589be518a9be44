// Where a rule begins and ends, and which variables are its own.
ghost use Rattle.std.specs.Prelude.{◌≡◌, ◌≤◌, min, length, None, IfOk};
ghost use Rattle.table.specs.Contents.{outcome};
ghost use Rattle.records.specs.declared.ids.Sym.{Sym};
ghost use Rattle.bindings.specs.Bound.{nothing_bound, cleared, begin_rule, end_rule, drop_rule, rule_part, lookup};

use crate::{Bindings, MAX_SCOPES, MAX_VARIABLES};
use records::refusal::Refusal;
use records::result::BoundVar;
use records::source::Part;
use std::alloc::{AllocError, Global};
use table::Table;

impl Bindings {
    /// No variables and no open scopes, with room up to the limits asked for, and never more than the maximum.
    pub fn with_limits(
        heap: Global,
        variables: usize,
        scopes: usize,
    ) -> Result<Bindings, AllocError>
        ensures { IfOk result (λ b. b ≡ nothing_bound (min variables MAX_VARIABLES) (min scopes MAX_SCOPES)) }
    {
        let seen = Table::with_limit(heap, variables)?;
        let in_scope = Table::with_limit(heap, scopes)?;
        Ok(Bindings {
            seen,
            in_scope,
            first: 0,
            next_scope: 0,
        })
    }

    /// Takes back the variables of all rules.
    #[tactic(auto, unfolding(crate::specs::Bound::cleared, crate::specs::Bound::drop_rule))]
    pub fn clear(&mut self)
        ensures { self.new ≡ cleared self.old }
    {
        self.first = 0;
        self.drop_rule();
    }

    /// Begins a rule behind the variables there are, and opens its own scope, which has the number 0.
    /// Under a limit of no scopes it refuses, and leaves the rule begun with no scope open.
    #[tactic(auto, using(crate::proofs::Laws::begun_unbound), unfolding(crate::specs::Bound::begin_rule))]
    pub fn begin_rule(&mut self) -> Result<(), Refusal>
        ensures value { outcome self.new result ≡ begin_rule self.old }
        // No name means anything yet.
        ensures unbound { (name : Sym) → lookup name self.new ≡ None }
    {
        self.end_rule();
        self.enter_scope()
    }

    /// Keeps the rule's variables, and leaves no scope open.
    #[tactic(auto, unfolding(crate::specs::Bound::end_rule))]
    pub fn end_rule(&mut self)
        ensures { self.new ≡ end_rule self.old }
    {
        self.first = self.seen.len();
        self.in_scope.truncate(0);
        self.next_scope = 0;
    }

    /// Takes the rule's variables back, and leaves no scope open.
    #[tactic(auto, unfolding(crate::specs::Bound::drop_rule))]
    pub fn drop_rule(&mut self)
        ensures { self.new ≡ drop_rule self.old }
    {
        self.seen.truncate(self.first);
        self.in_scope.truncate(0);
        self.next_scope = 0;
    }

    /// The variables of all rules.
    pub fn vars(&self) -> &[BoundVar]
        ensures { result.now ≡ self.now.seen.items }
    {
        self.seen.as_slice()
    }

    /// The rule's part of all variables.
    pub fn rule_part(&self) -> Part
        ensures { result ≡ rule_part self.now }
    {
        // By the table, whose maximum bounds it.
        let end = self.seen.len() as u32;
        Part {
            start: self.first as u32,
            end,
        }
    }
}
