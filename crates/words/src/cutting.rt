// A line is cut into words.
ghost use Rattle.std.specs.Prelude.{◌≡◌, map, IfOk, MatchOption};
ghost use Rattle.words.specs.Cut.{Printable, skipped, cut, seen};

use std::alloc::{AllocError, Global};

/// A word of a line, and the place of its first byte in the line.
#[derive(Clone, Copy)]
pub struct Word<'a> {
    pub start: usize,
    pub text: &'a str,
}

/// Whether a line says nothing: it is empty, or a comment.
pub fn is_skipped(line: &[u8]) -> bool
    ensures { result ≡ skipped line.now }
{
    line.is_empty() || line[0] == b'#'
}

/// The line as text, if it has only spaces and printable ASCII characters.
pub fn printable(line: &[u8]) -> Option<&str>
    ensures { MatchOption result (Printable line.now → ⊥) (λ s. Printable line.now × (s.now ≡ line.now)) }
{
    if !line.iter().all(|byte| (b' '..=b'~').contains(byte)) {
        return None;
    }
    std::str::from_utf8(line).ok()
}

/// What stands between single spaces; two spaces in a row, one in front or one at the end make an empty word.
pub fn words<'a>(heap: Global, line: &'a str) -> Result<Vec<Word<'a>>, AllocError>
    ensures { IfOk result (λ v. map seen v.items ≡ cut line.now) }
{
    let mut words = Vec::new(heap);
    let mut start = 0;
    for text in line.split(' ') {
        words.push(Word { start, text })?;
        // `split` gives pieces and no places, so the place is counted along.
        start += text.len() + 1;
    }
    Ok(words)
}
