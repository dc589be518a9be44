// The words of a line, each by its number, and what a word may say.
ghost use Rattle.std.specs.Prelude.{◌≡◌, ◌≤◌, length, Ok, Result, IfOk, OnOk};
ghost use Rattle.words.specs.Cut.{Seen, seen};
ghost use Rattle.items.specs.declared.faults.Malformed.{Malformed};
ghost use Rattle.case.specs.Fields.{bind, word, exactly, at_least, number, short, wide, long, integer, flag, table, dash, optional, name, each, filled};

use items::Malformed;
use records::refusal::TableId;
use records::source::Name;
use words::Word;

/// What a single word may say.
pub(crate) trait FromWord: Sized {
    ghost reading: { Seen → Result Self Malformed };

    fn from_word(word: Word<'_>) -> Result<Self, Malformed>
        ensures { result ≡ reading (seen word.entry) };
}

/// Word `i`; an empty one where the line is shorter.
#[tactic(auto, unfolding(crate::specs::Fields::word))]
pub(crate) fn word_at<'a>(words: &[Word<'a>], i: usize) -> Word<'a>
    ensures { seen result ≡ word words.now i }
{
    words.get(i).copied().unwrap_or(Word { start: 0, text: "" })
}

/// What word `i` says.
pub(crate) fn field<T: FromWord>(words: &[Word<'_>], i: usize) -> Result<T, Malformed>
    ensures { result ≡ T.reading (word words.now i) }
{
    T::from_word(word_at(words, i))
}

/// Whether each word says something of the type.
pub(crate) fn check_each<T: FromWord + Copy>(words: &[Word<'_>]) -> Result<(), Malformed>
    ensures { result ≡ each T.reading words.now }
{
    for word in words {
        T::from_word(*word)?;
    }
    Ok(())
}

/// Whether the line has `count` words or more.
#[tactic(auto, unfolding(crate::specs::Fields::at_least))]
pub(crate) fn check_least(words: &[Word<'_>], count: usize) -> Result<(), Malformed>
    ensures said { result ≡ at_least count words.now }
    ensures enough { OnOk result (count ≤ length words.now) }
{
    if words.len() < count {
        return Err(Malformed::MissingWord);
    }
    Ok(())
}

/// Whether the line has `count` words, and not one more.
#[tactic(auto, unfolding(crate::specs::Fields::at_least, crate::specs::Fields::exactly))]
pub(crate) fn check_count(words: &[Word<'_>], count: usize) -> Result<(), Malformed>
    ensures { result ≡ exactly count words.now }
{
    check_least(words, count)?;
    if words.len() > count {
        return Err(Malformed::SurplusWord);
    }
    Ok(())
}

/// A value that the line has said by now, if it ends there.
pub(crate) fn ending<T: Copy>(words: &[Word<'_>], count: usize, value: T) -> Result<T, Malformed>
    ensures { result ≡ bind (exactly count words.now) (λ _. Ok value) }
{
    check_count(words, count)?;
    Ok(value)
}

/// Whether no word is empty.
#[tactic(auto, unfolding(crate::specs::Fields::filled))]
pub(crate) fn check_filled(words: &[Word<'_>]) -> Result<(), Malformed>
    ensures { result ≡ filled words.now }
{
    if words.iter().any(|word| word.text.is_empty()) {
        return Err(Malformed::EmptyWord);
    }
    Ok(())
}

#[tactic(auto, unfolding(crate::specs::Fields::number))]
fn number_in(text: &str, max: u64) -> Result<u64, Malformed>
    ensures value { result ≡ number max text.now }
    ensures bound { IfOk result (λ n. n ≤ max) }
{
    Ok(words::number(text, max)?)
}

impl FromWord for u16 {
    ghost reading = { short };

    fn from_word(word: Word<'_>) -> Result<u16, Malformed> {
        Ok(number_in(word.text, u64::from(u16::MAX))? as u16)
    }
}

/// A number of 32 bits, also as a part of a word.
pub(crate) fn wide_in(text: &str) -> Result<u32, Malformed>
    ensures { result ≡ number 4294967295 text.now }
{
    Ok(number_in(text, u64::from(u32::MAX))? as u32)
}

impl FromWord for u32 {
    ghost reading = { wide };

    fn from_word(word: Word<'_>) -> Result<u32, Malformed> {
        wide_in(word.text)
    }
}

impl FromWord for u64 {
    ghost reading = { long };

    fn from_word(word: Word<'_>) -> Result<u64, Malformed> {
        number_in(word.text, u64::MAX)
    }
}

impl FromWord for i64 {
    ghost reading = { integer };

    #[tactic(auto, unfolding(crate::specs::Fields::integer))]
    fn from_word(word: Word<'_>) -> Result<i64, Malformed> {
        Ok(words::integer(word.text)?)
    }
}

impl FromWord for bool {
    ghost reading = { flag };

    #[tactic(auto, unfolding(crate::specs::Fields::flag))]
    fn from_word(word: Word<'_>) -> Result<bool, Malformed> {
        Ok(number_in(word.text, 1)? == 1)
    }
}

impl FromWord for TableId {
    ghost reading = { table };

    #[tactic(auto, unfolding(crate::specs::Fields::table))]
    fn from_word(word: Word<'_>) -> Result<TableId, Malformed> {
        let n = number_in(word.text, 12)?;
        Ok(TableId::ALL[n as usize])
    }
}

/// The place of the word in the line.
impl FromWord for Name {
    ghost reading = { name };

    #[tactic(auto, unfolding(crate::specs::Fields::name))]
    fn from_word(word: Word<'_>) -> Result<Name, Malformed> {
        let start = u32::try_from(word.start).map_err(|_| Malformed::FarName)?;
        let len = u32::try_from(word.text.len()).map_err(|_| Malformed::FarName)?;
        Ok(Name { start, len })
    }
}

#[tactic(auto, unfolding(crate::specs::Fields::dash))]
pub(crate) fn is_dash(word: Word<'_>) -> bool
    ensures { result ≡ dash (seen word.entry) }
{
    word.text == "-"
}

/// A dash stands for nothing.
impl<T: FromWord> FromWord for Option<T> {
    ghost reading = { optional T.reading };

    fn from_word(word: Word<'_>) -> Result<Option<T>, Malformed> {
        if is_dash(word) {
            return Ok(None);
        }
        T::from_word(word).map(Some)
    }
}
