// Where the reading of a file has come to.
ghost use Rattle.std.specs.Prelude.{◌≡◌, ◌+◌, min};
ghost use Rattle.reader.specs.Lines.{Reads};

use crate::faults::Unread;
use crate::line::{Line, read_line};
use items::Place;
use std::alloc::Global;

/// The line that was read last.
#[derive(Clone, Copy)]
pub struct Reader {
    /// Its number; the first line's is 1.
    pub line: usize,
    /// What may stand behind it.
    pub place: Place,
}

impl Reader {
    /// Before the first line.
    pub const START: Reader = Reader {
        line: 0,
        place: Place::START,
    };

    /// What the next line says, which has to be one that may stand there; nothing if it is skipped.
    pub fn read<'a>(&mut self, heap: Global, bytes: &'a [u8]) -> Result<Option<Line<'a>>, Unread>
        ensures counted { self.new.line ≡ min (self.old.line + 1) 18446744073709551615 }
        ensures meaning { Reads self.old.place bytes.now self.new.place result }
    {
        self.line = self.line.saturating_add(1);
        let line = read_line(heap, bytes)?;
        if let Some(line) = &line {
            self.place = self.place.after(line.item)?;
        }
        Ok(line)
    }
}
