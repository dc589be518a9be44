// Trees of the source list, and the ways to their pieces.
ghost use Rattle.std.specs.Prelude.{◌+◌, ◌<◌, ◌^◌, length};
ghost use Rattle.definition.specs.Syntax.{IsSyntax};

use records::source::Source;

/// A tree of the source list: its records, the root last, and the number of the first of them in the list.
#[derive(Clone, Copy)]
pub struct SourceTree<'a> {
    pub(crate) records: &'a [Source],
    pub(crate) first: usize,
    ghost some: { 0 < length records.now },
    ghost within: { first + length records.now < 2 ^ 32 },
    ghost laid_out: { ∥ IsSyntax first records.now ∥₁ },
}
