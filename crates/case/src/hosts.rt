// Lines of hosts.
ghost use Rattle.std.specs.Prelude.{◌≡◌};
ghost use Rattle.case.specs.Lines.{host_line, row_line, code_line, make_line, lit_line, sign_line, sign_flags, literal_by};

use crate::fields::{check_count, check_each, check_least, field};
use crate::kinds::LiteralKind;
use items::{Item, Literal, Malformed};
use records::env::TermFlags;
use records::ids::{Sym, TermId, TypeId};
use words::Word;

/// `host KIND`
pub(crate) fn host(words: &[Word<'_>]) -> Result<Item, Malformed>
    ensures { result ≡ host_line words.now }
{
    check_count(words, 2)?;
    Ok(Item::Host {
        kind: field(words, 1)?,
    })
}

/// `row TERM KIND`
pub(crate) fn row(words: &[Word<'_>]) -> Result<Item, Malformed>
    ensures { result ≡ row_line words.now }
{
    check_count(words, 3)?;
    Ok(Item::Row {
        term: TermId(field(words, 1)?),
        row: field(words, 2)?,
    })
}

/// `code CODE TYPE`
pub(crate) fn code(words: &[Word<'_>]) -> Result<Item, Malformed>
    ensures { result ≡ code_line words.now }
{
    check_count(words, 3)?;
    Ok(Item::Code {
        code: field(words, 1)?,
        ty: TypeId(field(words, 2)?),
    })
}

/// `make TERM CODE ARG...`
pub(crate) fn make(words: &[Word<'_>]) -> Result<Item, Malformed>
    ensures { result ≡ make_line words.now }
{
    check_least(words, 3)?;
    let term = TermId(field(words, 1)?);
    let code = field(words, 2)?;
    check_each::<u64>(&words[3..])?;
    Ok(Item::Make {
        term,
        code,
        args: 3,
    })
}

fn read_literal(words: &[Word<'_>], kind: LiteralKind) -> Result<Literal, Malformed>
    ensures { result ≡ literal_by words.now kind }
{
    match kind {
        LiteralKind::Bool => Ok(Literal::Bool {
            val: field(words, 3)?,
        }),
        LiteralKind::Int => Ok(Literal::Int {
            val: field(words, 3)?,
        }),
        LiteralKind::Const => Ok(Literal::Const {
            val: Sym(field(words, 3)?),
        }),
    }
}

/// `lit TYPE KIND VALUE CODE`
pub(crate) fn lit(words: &[Word<'_>]) -> Result<Item, Malformed>
    ensures { result ≡ lit_line words.now }
{
    check_count(words, 5)?;
    let ty = TypeId(field(words, 1)?);
    let kind = field(words, 2)?;
    Ok(Item::Lit {
        ty,
        literal: read_literal(words, kind)?,
        code: field(words, 4)?,
    })
}

/// Flags out of `p` and `o` alone: a host has no others.
fn read_sign_flags(words: &[Word<'_>]) -> Result<TermFlags, Malformed>
    ensures { result ≡ sign_flags words.now }
{
    let flags: TermFlags = field(words, 2)?;
    if flags.multi || flags.rec {
        return Err(Malformed::UnknownWord);
    }
    Ok(flags)
}

/// `sign TERM FLAGS RET ARG...`
pub(crate) fn sign(words: &[Word<'_>]) -> Result<Item, Malformed>
    ensures { result ≡ sign_line words.now }
{
    check_least(words, 4)?;
    let term = TermId(field(words, 1)?);
    let flags = read_sign_flags(words)?;
    let ret_ty = TypeId(field(words, 3)?);
    check_each::<u16>(&words[4..])?;
    Ok(Item::Sign {
        term,
        pure: flags.pure,
        partial: flags.partial,
        ret_ty,
        args: 4,
    })
}
