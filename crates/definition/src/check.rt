// Whether a part of the source list is a definition, and its first bad record if it is not.
ghost use Rattle.std.specs.Prelude.{◌↔◌, IsTrue, MatchOption};
ghost use Rattle.definition.specs.Lawful.{IsTreeOf, IsDefinition, FirstBad};

use crate::grammar::{Definition, Kind};
use records::source::{Part, Source};
use tree::lawful::{first_bad, is_tree};

/// Whether the records lay out one lawful tree, with a root of that kind.
fn is_tree_of(kind: Kind, records: &[Source]) -> bool
    ensures { IsTrue result ↔ IsTreeOf kind records.now }
{
    records
        .last()
        .is_some_and(|root| Kind::from(root.node) == kind)
        && is_tree(&Definition, records)
}

/// The first bad record of a part that is no definition of that kind.
pub(crate) fn bad_record(kind: Kind, source: &[Source], part: Part) -> Option<usize>
    ensures { MatchOption result
        (IsDefinition kind source.now part)
        (FirstBad kind source.now part) }
{
    if part.start >= part.end {
        return Some(0);
    }
    let records = part.of(source);
    if let Some(i) = first_bad(&Definition, records) {
        return Some(part.start as usize + i);
    }
    if part.end as usize > source.len() {
        return Some(part.start as usize + records.len());
    }
    if !is_tree_of(kind, records) {
        return Some(part.end as usize - 1);
    }
    None
}
