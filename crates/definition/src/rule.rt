// Rule definitions.
ghost use Rattle.std.specs.Prelude.{MatchOption, MatchResult};
ghost use Rattle.definition.specs.Lawful.{FirstBad, NamesFirstBad};
ghost use Rattle.definition.specs.Pieces.{Says};
ghost use Rattle.definition.specs.RuleTrees.{RuleTree, LaysOutRule, LaysOutOne};
ghost use Rattle.definition.specs.Syntax.{of_rule};

use crate::check::bad_record;
use crate::grammar::Kind;
use crate::source_tree::SourceTree;
use records::refusal::Refusal;
use records::source::{Part, Source};

/// The first bad record of a part that lays out no rule.
fn bad_rule_record(source: &[Source], part: Part) -> Option<usize>
    ensures { MatchOption result
        ((r : RuleTree) × LaysOutOne source.now part r)
        (λ i. FirstBad Kind.Rule source.now part i × ((r : RuleTree) → LaysOutRule source.now part r → ⊥)) }
{
    bad_record(Kind::Rule, source, part)
}

impl<'a> SourceTree<'a> {
    /// The rule definition that a part of the source list lays out.
    pub fn read_rule(source: &'a [Source], part: Part) -> Result<SourceTree<'a>, Refusal>
        ensures { MatchResult result
            (λ tree. (r : RuleTree) × LaysOutOne source.now part r × Says tree (of_rule r))
            (λ e. NamesFirstBad Kind.Rule source.now part e × ((r : RuleTree) → LaysOutRule source.now part r → ⊥)) }
    {
        match bad_rule_record(source, part) {
            Some(record) => Err(Refusal::UnlawfulDefinition { record }),
            None => Ok(SourceTree {
                records: part.of(source),
                first: part.start as usize,
            }),
        }
    }
}
