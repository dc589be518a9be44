// Writing typed trees: what is below a root first, then the root.
ghost use Rattle.std.specs.Prelude.{◌≡◌, ◌+◌, max, List, ◌++◌, length, OnOk};
ghost use Rattle.table.specs.Contents.{outcome};
ghost use Rattle.tree.specs.Layout.{Forest, next};
ghost use Rattle.records.specs.declared.result.Output.{Output};
ghost use Rattle.records.specs.declared.result.TypedNode.{TypedNode};
ghost use Rattle.typed.specs.Trees.{typed_records, rule_records, Stands, has_share, count_since, push_tree, take_back};

use crate::{MAX_RULE_OUTPUT, Mark, TypedTrees};
use records::refusal::{Refusal, TableId};
use records::result::{Output, TypedNode};

impl TypedTrees {
    /// Whether the rule may have one more record.
    fn has_share(&self) -> bool
        ensures { result ≡ has_share self.now }
    {
        self.records.len() - self.first < MAX_RULE_OUTPUT
    }

    /// How many records stand in front of the mark. One before the rule's begin counts as its begin, so that no record of an earlier rule goes or is below a root.
    fn before(&self, mark: Mark) -> usize
        ensures { result ≡ max mark.0 self.now.first }
    {
        mark.0.max(self.first)
    }

    /// How many of the rule's records stand behind the mark.
    fn count_since(&self, mark: Mark) -> usize
        ensures { result ≡ count_since mark self.now }
    {
        self.records.len().saturating_sub(self.before(mark))
    }

    /// The place behind all records.
    pub fn mark(&self) -> Mark
        ensures value { result ≡ record { 0 = length self.now.records.items } }
        ensures stands { (f : Forest TypedNode) → rule_records self.now ≡ typed_records f → Stands result f self.now }
    {
        Mark(self.records.len())
    }

    /// One more record, the root of a tree over all that was written since the mark, or a refusal, which changes nothing.
    #[tactic(auto, unfolding(crate::specs::Trees::push_tree))]
    pub fn push_tree(&mut self, since: Mark, node: TypedNode) -> Result<(), Refusal>
        ensures value { outcome self.new result ≡ push_tree since node self.old }
        // With trees written before the mark and since, the latter are below the new root.
        ensures trees { (f g : Forest TypedNode) → rule_records self.old ≡ typed_records f ++ typed_records g → Stands since f self.old
            → OnOk result (rule_records self.new ≡ typed_records (next f node g)) }
    {
        let full = Refusal::Full {
            table: TableId::Output,
        };
        if !self.has_share() {
            return Err(full);
        }
        // By the rule's share, which bounds it.
        let size = (self.count_since(since) + 1) as u16;
        self.records.push(Output { node, size }).map_err(|_| full)
    }

    /// Takes back all that the rule has written since the mark.
    #[tactic(auto, using(crate::proofs::Laws::rule_cut, std::proofs::lemmas::Grind::common_steps), unfolding(crate::specs::Trees::take_back))]
    pub fn take_back(&mut self, mark: Mark)
        ensures value { self.new ≡ take_back mark self.old }
        ensures trees { (f : Forest TypedNode) (since : List Output) → rule_records self.old ≡ typed_records f ++ since → Stands mark f self.old
            → rule_records self.new ≡ typed_records f }
    {
        let before = self.before(mark);
        self.records.truncate(before);
    }
}
