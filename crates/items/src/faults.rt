// What keeps a text from being a case file.
ghost use Rattle.std.specs.Prelude.{◌≡◌};
ghost use Rattle.items.specs.Faults.{number_fault};

use std::error::Error;
use std::fmt;
use words::NumberFault;

#[derive(Clone, Copy, Debug, PartialEq, Eq)]
pub enum Malformed {
    /// A byte that is neither a space nor a printable ASCII character.
    Unprintable,
    /// Two spaces in a row, or a space at an end of the line.
    EmptyWord,
    /// No line begins with that word.
    UnknownLine,
    /// A tag, a kind or a flag that there is not.
    UnknownWord,
    MissingWord,
    SurplusWord,
    NotANumber,
    /// A number over the largest that the place allows.
    DoesNotFit,
    /// A name of more than 32 bits, or one that begins behind as many bytes.
    FarName,
    /// An environment line behind the first call.
    AfterCall,
    /// A host's row with no host of its kind before it, or with a call between.
    NoHost,
}

// By hand, so that its text is promised: what `thiserror` writes promises none.
impl fmt::Display for Malformed {
    ghost use Rattle.std.specs.Prelude.{Some};
    ghost use Rattle.items.specs.Faults.{malformed_text};

    ghost output = { λ malformed. Some (malformed_text malformed) };

    fn fmt<W: fmt::Write>(&self, f: &mut fmt::Formatter<W>) -> fmt::Result {
        match self {
            Malformed::Unprintable => f.write_str("a character that is not printable ASCII"),
            Malformed::EmptyWord => f.write_str("an empty word"),
            Malformed::UnknownLine => f.write_str("no line begins so"),
            Malformed::UnknownWord => f.write_str("an unknown tag, kind or flag"),
            Malformed::MissingWord => f.write_str("a word is missing"),
            Malformed::SurplusWord => f.write_str("a word too many"),
            Malformed::NotANumber => f.write_str("not a number"),
            Malformed::DoesNotFit => f.write_str("a number that does not fit"),
            Malformed::FarName => f.write_str("a name beyond 32 bits"),
            Malformed::AfterCall => f.write_str("an environment line behind the first call"),
            Malformed::NoHost => f.write_str("no host here that takes this row"),
        }
    }
}

impl Error for Malformed {}

impl From<NumberFault> for Malformed {
    ghost from_gives = { λ fault e. e ≡ number_fault fault };

    fn from(fault: NumberFault) -> Malformed {
        match fault {
            NumberFault::NotANumber => Malformed::NotANumber,
            NumberFault::DoesNotFit => Malformed::DoesNotFit,
        }
    }
}
