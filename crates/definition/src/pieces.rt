// What a tree's root says, and the trees right below it.
ghost use Rattle.std.specs.Prelude.{◌≡◌, ◌+◌, ◌<◌, length, Some, None, MatchOption, IfSome, slice_get};
ghost use Rattle.std.specs.List.{enumerate_from, flat_map};
ghost use Rattle.definition.specs.Pieces.{Says, IsPiece};
ghost use Rattle.definition.specs.Syntax.{Syntax, LaysOut, syntax_records, root_of, children};

use crate::siblings::{count, nth};
use crate::source_tree::SourceTree;
use records::source::Source;

impl<'a> SourceTree<'a> {
    /// The number of the root's record in the source list, and the record.
    fn numbered_root(&self) -> (usize, Source)
        ensures { (t : Syntax) → Says self.now t
            → (result.0 ≡ (root_of t).0.number) × (result.1.node ≡ (root_of t).1) × (result.1.pos ≡ (root_of t).0.pos) × (result.1.size ≡ length (syntax_records t)) }
    {
        let last = self.records.len() - 1;
        (self.first + last, self.records[last])
    }

    /// The root's record.
    pub fn root(&self) -> Source
        ensures says { (t : Syntax) → Says self.now t → result.node ≡ (root_of t).1 }
        ensures place { (t : Syntax) → Says self.now t → result.pos ≡ (root_of t).0.pos }
        ensures size { (t : Syntax) → Says self.now t → result.size ≡ length (syntax_records t) }
    {
        self.numbered_root().1
    }

    /// The number of the root's record in the source list.
    pub fn number(&self) -> usize
        ensures { (t : Syntax) → Says self.now t → result ≡ (root_of t).0.number }
    {
        self.numbered_root().0
    }

    /// The records of the trees right below the root.
    fn below(&self) -> &'a [Source]
        ensures few { length result.now < length self.now.records.now }
        ensures trees { (t : Syntax) → Says self.now t → enumerate_from self.now.first result.now ≡ flat_map syntax_records (children t) }
    {
        &self.records[..self.records.len() - 1]
    }

    /// How many trees stand right below the root.
    pub fn child_count(&self) -> usize
        ensures { (t : Syntax) → Says self.now t → result ≡ length (children t) }
    {
        count(self.below())
    }

    /// The `k`-th of the trees right below the root: how many records stand before it, and its own.
    fn records_of_child(&self, k: usize) -> Option<(usize, &'a [Source])>
        ensures within { IfSome result (λ found. (0 < length found.1.now) × (found.0 + length found.1.now < length self.now.records.now)) }
        ensures piece { (t : Syntax) → Says self.now t → MatchOption result
            (slice_get (children t) k ≡ None)
            (λ found. (s : Syntax) × (slice_get (children t) k ≡ Some s) × LaysOut (self.now.first + found.0) found.1.now s) }
    {
        nth(self.below(), k)
    }

    /// The `k`-th of the trees right below the root, the first being the 0th.
    pub fn child(&self, k: usize) -> Option<SourceTree<'a>>
        ensures { (t : Syntax) → Says self.now t → IsPiece (slice_get (children t) k) result }
    {
        let (start, records) = self.records_of_child(k)?;
        Some(SourceTree {
            records,
            first: self.first + start,
        })
    }
}
