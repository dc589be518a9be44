// A line, by the word that it begins with.
ghost use Rattle.std.specs.Prelude.{◌≡◌};
ghost use Rattle.case.specs.Format.{line, item};

use crate::calls::{read_part, run};
use crate::environment::{constant, expand, limit, symbol, term, ty};
use crate::fields::{check_filled, ending, field};
use crate::hosts::{code, host, lit, make, row, sign};
use crate::kinds::Keyword;
use crate::sources::source;
use items::{Item, Malformed};
use words::Word;

fn read_line(words: &[Word<'_>], keyword: Keyword) -> Result<Item, Malformed>
    ensures { result ≡ line words.now keyword }
{
    match keyword {
        Keyword::Limit => limit(words),
        Keyword::Expand => expand(words),
        Keyword::Symbol => symbol(words),
        Keyword::Type => ty(words),
        Keyword::Const => constant(words),
        Keyword::Term => term(words),
        Keyword::Source => source(words),
        Keyword::Host => host(words),
        Keyword::Row => row(words),
        Keyword::Code => code(words),
        Keyword::Make => make(words),
        Keyword::Lit => lit(words),
        Keyword::Sign => sign(words),
        Keyword::Open => ending(words, 1, Item::Open),
        Keyword::Converter => Ok(Item::Converter {
            part: read_part(words)?,
        }),
        Keyword::Close => ending(words, 1, Item::Close),
        Keyword::Rule => Ok(Item::Rule {
            part: read_part(words)?,
        }),
        Keyword::Finish => ending(words, 1, Item::Finish),
        Keyword::Run => run(words),
        Keyword::Dump => ending(words, 1, Item::Dump),
    }
}

/// What the words of a line say.
pub fn read(words: &[Word<'_>]) -> Result<Item, Malformed>
    ensures { result ≡ item words.now }
{
    check_filled(words)?;
    read_line(words, field(words, 0)?)
}
