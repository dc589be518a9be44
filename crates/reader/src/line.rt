// A file is cut into lines; what a line says by itself, whatever stands before it.
ghost use Rattle.std.specs.Prelude.{◌≡◌, map, IfOk};
ghost use Rattle.reader.specs.Lines.{file_lines, Says};

use crate::faults::Unread;
use items::{Item, Malformed};
use std::alloc::{AllocError, Global};
use words::{Word, is_skipped, printable, words};

/// A line that says something, with its words.
#[derive(Drop)]
pub struct Line<'a> {
    pub bytes: &'a [u8],
    pub words: Vec<Word<'a>>,
    pub item: Item,
}

/// What stands between newlines. What stands behind the last one is a line too, mostly an empty one.
pub fn lines(heap: Global, file: &[u8]) -> Result<Vec<&[u8]>, AllocError>
    ensures { IfOk result (λ v. map (λ line. line.now) v.items ≡ file_lines file.now) }
{
    file.split(|byte| *byte == b'\n').collect(heap)
}

/// What a line says; nothing if it is skipped.
pub(crate) fn read_line<'a>(heap: Global, bytes: &'a [u8]) -> Result<Option<Line<'a>>, Unread>
    ensures { Says bytes.now result }
{
    if is_skipped(bytes) {
        return Ok(None);
    }
    let text = printable(bytes).ok_or(Malformed::Unprintable)?;
    let words = words(heap, text)?;
    let item = case::read(words.as_slice())?;
    Ok(Some(Line { bytes, words, item }))
}
