ghost use Rattle.std.specs.Prelude.{◌+◌, ◌<◌, ◌↔◌, [], ◌∷◌, ◌++◌, length, take, IsTrue, MatchOption};
ghost use Rattle.tree.specs.Layout.{IsForest, IsTree};

use crate::Grammar;

/// Whether trees one after another stay some with `root` behind them: the last of them fill its size exactly and may stand below it.
fn stands<G: Grammar>(grammar: &G, trees: &[G::Node], root: &G::Node) -> bool
    requires { IsForest (G.rules grammar.now) trees.now }
    ensures { IsTrue result ↔ IsForest (G.rules grammar.now) (trees.now ++ root.now ∷ []) }
{
    let Some(below) = grammar.size(root).checked_sub(1) else {
        return false;
    };
    if below > trees.len() {
        return false;
    }
    // The records below the root, but for those of the trees that the walk has passed.
    let mut rest = &trees[trees.len() - below..];
    let mut after = 0;
    while let Some(child) = rest.last() {
        let width = grammar.size(child);
        if width > rest.len() || !grammar.takes(root, child, after, width == rest.len()) {
            return false;
        }
        rest = &rest[..rest.len() - width];
        after += 1;
    }
    grammar.counts(root, after)
}

/// The first bad record: the first at which the records so far stop laying out trees.
pub fn first_bad<G: Grammar>(grammar: &G, part: &[G::Node]) -> Option<usize>
    ensures { MatchOption result
        (IsForest (G.rules grammar.now) part.now)
        (λ i. (i < length part.now)
        × IsForest (G.rules grammar.now) (take i part.now)
        × (IsForest (G.rules grammar.now) (take (i + 1) part.now) → ⊥)) }
{
    // With `find` the proof did not close: the loop's invariant is that there are trees before record `i`, and `find` takes none.
    for i in 0..part.len() {
        if !stands(grammar, &part[..i], &part[i]) {
            return Some(i);
        }
    }
    None
}

/// Whether trees one after another are just one: the root of the last one counts all records.
fn is_one<G: Grammar>(grammar: &G, trees: &[G::Node]) -> bool
    requires { IsForest (G.rules grammar.now) trees.now }
    ensures { IsTrue result ↔ IsTree (G.rules grammar.now) trees.now }
{
    trees
        .last()
        .is_some_and(|root| grammar.size(root) == trees.len())
}

/// Whether the records lay out one tree.
pub fn is_tree<G: Grammar>(grammar: &G, part: &[G::Node]) -> bool
    ensures { IsTrue result ↔ IsTree (G.rules grammar.now) part.now }
{
    first_bad(grammar, part).is_none() && is_one(grammar, part)
}
