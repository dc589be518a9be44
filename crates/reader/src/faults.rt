// Why a line is not read, and which line is at fault.
ghost use Rattle.std.specs.Prelude.{◌≡◌, Some};
ghost use Rattle.reader.specs.Faults.{unread_text, bad_line_text};
ghost use Rattle.reader.specs.declared.faults.Unread.TheVariants as unread;

use items::Malformed;
use std::alloc::AllocError;
use std::error::Error;
use std::fmt;
use std::fmt::Display;

/// Why a line is not read.
#[derive(Clone, Copy, Debug)]
pub enum Unread {
    /// There is no memory for its words.
    NoMemory(AllocError),
    Malformed(Malformed),
}

impl From<AllocError> for Unread {
    ghost from_gives = { λ error why. why ≡ unread.NoMemory error };

    fn from(error: AllocError) -> Unread {
        Unread::NoMemory(error)
    }
}

impl From<Malformed> for Unread {
    ghost from_gives = { λ malformed why. why ≡ unread.Malformed malformed };

    fn from(malformed: Malformed) -> Unread {
        Unread::Malformed(malformed)
    }
}

impl Display for Unread {
    ghost output = { λ why. Some (unread_text why) };

    fn fmt<W: fmt::Write>(&self, f: &mut fmt::Formatter<W>) -> fmt::Result {
        match self {
            Unread::NoMemory(_) => f.write_str("no memory"),
            Unread::Malformed(why) => write!(f, "{why}"),
        }
    }
}

impl Error for Unread {}

/// A line by its number, and what is wrong with it or with what it asks for.
#[derive(Clone, Copy, Debug)]
pub struct BadLine<E> {
    pub line: usize,
    pub why: E,
}

impl<E: Display> Display for BadLine<E> {
    ghost output = { bad_line_text E.output };

    fn fmt<W: fmt::Write>(&self, f: &mut fmt::Formatter<W>) -> fmt::Result {
        write!(f, "line {}: {}", self.line, self.why)
    }
}

impl<E: Error> Error for BadLine<E> {}
