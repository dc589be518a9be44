// Trees one behind another, as the trees right below a root are: from the last to the first, since a root stands last.
ghost use Rattle.std.specs.Prelude.{◌≡◌, ℕ, ◌+◌, ◌<◌, ◌≤◌, List, [], ◌∷◌, ◌++◌, length, take, Some, None, MatchOption, IfSome, slice_get};
ghost use Rattle.std.specs.List.{enumerate_from, flat_map};
ghost use Rattle.definition.specs.Syntax.{Syntax, syntax_records};

use records::source::Source;

/// What stands before the last of some trees.
fn before_last(trees: &[Source]) -> Option<&[Source]>
    ensures shorter { IfSome result (λ before. length before.now < length trees.now) }
    ensures trees { (n : ℕ) (ts : List Syntax) → enumerate_from n trees.now ≡ flat_map syntax_records ts → MatchOption result
        (ts ≡ [])
        (λ before. (us : List Syntax) × (t : Syntax) × (ts ≡ us ++ t ∷ []) × (before.now ≡ take (length (flat_map syntax_records us)) trees.now)) }
{
    let size = trees.last()?.size as usize;
    if size == 0 {
        return None;
    }
    let before = trees.len().checked_sub(size)?;
    Some(&trees[..before])
}

/// How many trees there are.
pub(crate) fn count(trees: &[Source]) -> usize
    ensures { (n : ℕ) (ts : List Syntax) → enumerate_from n trees.now ≡ flat_map syntax_records ts → result ≡ length ts }
{
    let mut rest = trees;
    let mut passed = 0;
    while let Some(before) = before_last(rest) {
        rest = before;
        passed += 1;
    }
    passed
}

/// The trees but for the last `after`.
fn without_last(trees: &[Source], after: usize) -> Option<&[Source]>
    ensures shorter { IfSome result (λ rest. length rest.now ≤ length trees.now) }
    ensures trees { (n : ℕ) (ts : List Syntax) → enumerate_from n trees.now ≡ flat_map syntax_records ts → MatchOption result
        (length ts < after)
        (λ rest. (us : List Syntax) × (vs : List Syntax) × (ts ≡ us ++ vs) × (length vs ≡ after) × (rest.now ≡ take (length (flat_map syntax_records us)) trees.now)) }
{
    let mut rest = trees;
    for _ in 0..after {
        rest = before_last(rest)?;
    }
    Some(rest)
}

/// The `k`-th of the trees, the first being the 0th: how many records stand before it, and its records.
pub(crate) fn nth(trees: &[Source], k: usize) -> Option<(usize, &[Source])>
    ensures within { IfSome result (λ found. (0 < length found.1.now) × (found.0 + length found.1.now ≤ length trees.now)) }
    ensures trees { (n : ℕ) (ts : List Syntax) → enumerate_from n trees.now ≡ flat_map syntax_records ts → MatchOption result
        (slice_get ts k ≡ None)
        (λ found. (t : Syntax) × (slice_get ts k ≡ Some t) × (enumerate_from (n + found.0) found.1.now ≡ syntax_records t)) }
{
    let after = count(trees).checked_sub(k)?.checked_sub(1)?;
    let up_to = without_last(trees, after)?;
    let start = before_last(up_to)?.len();
    Some((start, &up_to[start..]))
}
