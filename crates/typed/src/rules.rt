// Where a rule ends, and which records are its own.
ghost use Rattle.std.specs.Prelude.{◌≡◌, min, IfOk};
ghost use Rattle.typed.specs.Trees.{no_trees, cleared, end_rule, drop_rule, rule_part};

use crate::{MAX_OUTPUT, TypedTrees};
use records::result::Output;
use records::source::Part;
use std::alloc::{AllocError, Global};
use table::Table;

impl TypedTrees {
    /// No records, with room up to the limit asked for, and never more than the maximum.
    pub fn with_limit(heap: Global, limit: usize) -> Result<TypedTrees, AllocError>
        ensures { IfOk result (λ t. t ≡ no_trees (min limit MAX_OUTPUT)) }
    {
        let records = Table::with_limit(heap, limit)?;
        Ok(TypedTrees { records, first: 0 })
    }

    /// Takes back the records of all rules.
    #[tactic(auto, unfolding(crate::specs::Trees::cleared, crate::specs::Trees::drop_rule))]
    pub fn clear(&mut self)
        ensures { self.new ≡ cleared self.old }
    {
        self.first = 0;
        self.drop_rule();
    }

    /// Keeps the rule's trees; the next rule's begin behind them.
    #[tactic(auto, unfolding(crate::specs::Trees::end_rule))]
    pub fn end_rule(&mut self)
        ensures { self.new ≡ end_rule self.old }
    {
        self.first = self.records.len();
    }

    /// Takes the rule's records back; where none is at hand, nothing.
    #[tactic(auto, unfolding(crate::specs::Trees::drop_rule))]
    pub fn drop_rule(&mut self)
        ensures { self.new ≡ drop_rule self.old }
    {
        self.records.truncate(self.first);
    }

    /// The records of all rules.
    pub fn records(&self) -> &[Output]
        ensures { result.now ≡ self.now.records.items }
    {
        self.records.as_slice()
    }

    /// The rule's part of all records.
    pub fn rule_part(&self) -> Part
        ensures { result ≡ rule_part self.now }
    {
        // By the table, whose maximum bounds it.
        let end = self.records.len() as u32;
        Part {
            start: self.first as u32,
            end,
        }
    }
}
