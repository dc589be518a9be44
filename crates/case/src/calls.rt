// Lines of calls.
ghost use Rattle.std.specs.Prelude.{◌≡◌};
ghost use Rattle.case.specs.Lines.{part_at, run_line};

use crate::fields::{check_count, check_each, check_least, field};
use items::{Item, Malformed};
use records::ids::RuleId;
use records::source::Part;
use words::Word;

/// `CALL START END`
pub(crate) fn read_part(words: &[Word<'_>]) -> Result<Part, Malformed>
    ensures { result ≡ part_at words.now }
{
    check_count(words, 3)?;
    Ok(Part {
        start: field(words, 1)?,
        end: field(words, 2)?,
    })
}

/// `run RULE VALUES WORK ARG...`
pub(crate) fn run(words: &[Word<'_>]) -> Result<Item, Malformed>
    ensures { result ≡ run_line words.now }
{
    check_least(words, 4)?;
    let rule = RuleId(field(words, 1)?);
    let values = field(words, 2)?;
    let work = field(words, 3)?;
    check_each::<u64>(&words[4..])?;
    Ok(Item::Run {
        rule,
        values,
        work,
        args: 4,
    })
}
