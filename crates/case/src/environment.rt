// Lines of the environment.
ghost use Rattle.std.specs.Prelude.{◌≡◌};
ghost use Rattle.case.specs.Lines.{limit_line, expand_line, symbol_line, type_line, const_line, term_line, bare, declared, term_kind};

use crate::fields::{check_count, check_each, check_least, field, is_dash, word_at};
use crate::kinds::TermTag;
use items::{Item, Malformed};
use records::env::TermKind;
use records::ids::TypeId;
use words::Word;

/// `limit TABLE N`
pub(crate) fn limit(words: &[Word<'_>]) -> Result<Item, Malformed>
    ensures { result ≡ limit_line words.now }
{
    check_count(words, 3)?;
    Ok(Item::Limit {
        table: field(words, 1)?,
        limit: field(words, 2)?,
    })
}

/// `expand FLAG`
pub(crate) fn expand(words: &[Word<'_>]) -> Result<Item, Malformed>
    ensures { result ≡ expand_line words.now }
{
    check_count(words, 2)?;
    Ok(Item::Expand {
        on: field(words, 1)?,
    })
}

/// `symbol NAME`
pub(crate) fn symbol(words: &[Word<'_>]) -> Result<Item, Malformed>
    ensures { result ≡ symbol_line words.now }
{
    check_count(words, 2)?;
    Ok(Item::Symbol {
        name: field(words, 1)?,
    })
}

/// `type NAME KIND`
pub(crate) fn ty(words: &[Word<'_>]) -> Result<Item, Malformed>
    ensures { result ≡ type_line words.now }
{
    check_count(words, 3)?;
    Ok(Item::Type {
        name: field(words, 1)?,
        kind: field(words, 2)?,
    })
}

/// `const NAME TYPE`
pub(crate) fn constant(words: &[Word<'_>]) -> Result<Item, Malformed>
    ensures { result ≡ const_line words.now }
{
    check_count(words, 3)?;
    Ok(Item::Const {
        name: field(words, 1)?,
        ty: TypeId(field(words, 2)?),
    })
}

/// A term of a type's own: FLAGS, CTOR and EXTR are `-`.
fn bare_kind(words: &[Word<'_>], kind: TermKind) -> Result<TermKind, Malformed>
    ensures { result ≡ bare words.now kind }
{
    if is_dash(word_at(words, 3)) && is_dash(word_at(words, 4)) && is_dash(word_at(words, 5)) {
        Ok(kind)
    } else {
        Err(Malformed::UnknownWord)
    }
}

fn declared_kind(words: &[Word<'_>]) -> Result<TermKind, Malformed>
    ensures { result ≡ declared words.now }
{
    Ok(TermKind::Decl {
        flags: field(words, 3)?,
        constructor_kind: field(words, 4)?,
        extractor_kind: field(words, 5)?,
    })
}

/// KIND FLAGS CTOR EXTR
fn term_kind(words: &[Word<'_>]) -> Result<TermKind, Malformed>
    ensures { result ≡ term_kind words.now }
{
    match field(words, 2)? {
        TermTag::Variant => bare_kind(words, TermKind::EnumVariant),
        TermTag::Struct => bare_kind(words, TermKind::Struct),
        TermTag::Decl => declared_kind(words),
    }
}

/// `term NAME KIND FLAGS CTOR EXTR RET ARG...`
pub(crate) fn term(words: &[Word<'_>]) -> Result<Item, Malformed>
    ensures { result ≡ term_line words.now }
{
    check_least(words, 7)?;
    let name = field(words, 1)?;
    let kind = term_kind(words)?;
    let ret_ty = TypeId(field(words, 6)?);
    check_each::<u16>(&words[7..])?;
    Ok(Item::Term {
        name,
        kind,
        ret_ty,
        args: 7,
    })
}
