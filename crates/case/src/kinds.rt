// The words that have a meaning of their own.
ghost use Rattle.std.specs.Prelude.{◌≡◌};
ghost use Rattle.case.specs.Kinds.{keyword, tag_of, type_kind, term_tag, host_kind, row_kind, literal_kind, constructor, at_colon, parts_seen, template, extractor, with_flag, flags};

use crate::fields::{FromWord, is_dash, wide_in};
use items::{HostKind, Malformed, RowKind};
use records::env::{ConstructorKind, ExtractorKind, TermFlags, TypeKind};
use records::source::Part;
use words::Word;

// An enum, though only one `match` reads it: a line's first word is then read by `FromWord`, as every other word of a kind.
/// What a line begins with.
#[derive(Drop)]
pub(crate) enum Keyword {
    Limit,
    Expand,
    Symbol,
    Type,
    Const,
    Term,
    Source,
    Host,
    Row,
    Code,
    Make,
    Lit,
    Sign,
    Open,
    Converter,
    Close,
    Rule,
    Finish,
    Run,
    Dump,
}

#[derive(Drop)]
pub(crate) enum PatternTag {
    Var,
    Bind,
    Bool,
    Int,
    Const,
    Term,
    Wild,
    And,
    Arg,
}

#[derive(Drop)]
pub(crate) enum ExprTag {
    Term,
    Var,
    Bool,
    Int,
    Const,
    Let,
}

/// The kind of a source record.
#[derive(Drop)]
pub(crate) enum Tag {
    Pattern(PatternTag),
    Expr(ExprTag),
    Def,
    IfLet,
    Rule,
    Name,
    Converter,
}

// An enum of its own, as `Keyword`.
/// The kind of a term.
#[derive(Drop)]
pub(crate) enum TermTag {
    Variant,
    Struct,
    Decl,
}

// An enum of its own, as `Keyword`.
#[derive(Drop)]
pub(crate) enum LiteralKind {
    Bool,
    Int,
    Const,
}

impl FromWord for Keyword {
    ghost reading = { keyword };

    #[tactic(auto, unfolding(crate::specs::Kinds::keyword))]
    fn from_word(word: Word<'_>) -> Result<Keyword, Malformed> {
        match word.text {
            "limit" => Ok(Keyword::Limit),
            "expand" => Ok(Keyword::Expand),
            "symbol" => Ok(Keyword::Symbol),
            "type" => Ok(Keyword::Type),
            "const" => Ok(Keyword::Const),
            "term" => Ok(Keyword::Term),
            "src" => Ok(Keyword::Source),
            "host" => Ok(Keyword::Host),
            "row" => Ok(Keyword::Row),
            "code" => Ok(Keyword::Code),
            "make" => Ok(Keyword::Make),
            "lit" => Ok(Keyword::Lit),
            "sign" => Ok(Keyword::Sign),
            "open" => Ok(Keyword::Open),
            "converter" => Ok(Keyword::Converter),
            "close" => Ok(Keyword::Close),
            "rule" => Ok(Keyword::Rule),
            "finish" => Ok(Keyword::Finish),
            "run" => Ok(Keyword::Run),
            "dump" => Ok(Keyword::Dump),
            _ => Err(Malformed::UnknownLine),
        }
    }
}

impl FromWord for Tag {
    ghost reading = { tag_of };

    #[tactic(auto, unfolding(crate::specs::Kinds::tag_of))]
    fn from_word(word: Word<'_>) -> Result<Tag, Malformed> {
        match word.text {
            "p-var" => Ok(Tag::Pattern(PatternTag::Var)),
            "p-bind" => Ok(Tag::Pattern(PatternTag::Bind)),
            "p-bool" => Ok(Tag::Pattern(PatternTag::Bool)),
            "p-int" => Ok(Tag::Pattern(PatternTag::Int)),
            "p-const" => Ok(Tag::Pattern(PatternTag::Const)),
            "p-term" => Ok(Tag::Pattern(PatternTag::Term)),
            "p-wild" => Ok(Tag::Pattern(PatternTag::Wild)),
            "p-and" => Ok(Tag::Pattern(PatternTag::And)),
            "p-arg" => Ok(Tag::Pattern(PatternTag::Arg)),
            "e-term" => Ok(Tag::Expr(ExprTag::Term)),
            "e-var" => Ok(Tag::Expr(ExprTag::Var)),
            "e-bool" => Ok(Tag::Expr(ExprTag::Bool)),
            "e-int" => Ok(Tag::Expr(ExprTag::Int)),
            "e-const" => Ok(Tag::Expr(ExprTag::Const)),
            "e-let" => Ok(Tag::Expr(ExprTag::Let)),
            "def" => Ok(Tag::Def),
            "iflet" => Ok(Tag::IfLet),
            "rule" => Ok(Tag::Rule),
            "name" => Ok(Tag::Name),
            "converter" => Ok(Tag::Converter),
            _ => Err(Malformed::UnknownWord),
        }
    }
}

impl FromWord for TypeKind {
    ghost reading = { type_kind };

    #[tactic(auto, unfolding(crate::specs::Kinds::type_kind))]
    fn from_word(word: Word<'_>) -> Result<TypeKind, Malformed> {
        match word.text {
            "bool" => Ok(TypeKind::Bool),
            "int" => Ok(TypeKind::Int),
            "prim" => Ok(TypeKind::Primitive),
            "enum" => Ok(TypeKind::Enum),
            "struct" => Ok(TypeKind::Struct),
            _ => Err(Malformed::UnknownWord),
        }
    }
}

impl FromWord for TermTag {
    ghost reading = { term_tag };

    #[tactic(auto, unfolding(crate::specs::Kinds::term_tag))]
    fn from_word(word: Word<'_>) -> Result<TermTag, Malformed> {
        match word.text {
            "variant" => Ok(TermTag::Variant),
            "struct" => Ok(TermTag::Struct),
            "decl" => Ok(TermTag::Decl),
            _ => Err(Malformed::UnknownWord),
        }
    }
}

impl FromWord for HostKind {
    ghost reading = { host_kind };

    #[tactic(auto, unfolding(crate::specs::Kinds::host_kind))]
    fn from_word(word: Word<'_>) -> Result<HostKind, Malformed> {
        match word.text {
            "measure" => Ok(HostKind::Measure),
            "listed" => Ok(HostKind::Listed),
            _ => Err(Malformed::UnknownWord),
        }
    }
}

impl FromWord for RowKind {
    ghost reading = { row_kind };

    #[tactic(auto, unfolding(crate::specs::Kinds::row_kind))]
    fn from_word(word: Word<'_>) -> Result<RowKind, Malformed> {
        match word.text {
            "sum" => Ok(RowKind::Sum),
            "same" => Ok(RowKind::Same),
            _ => Err(Malformed::UnknownWord),
        }
    }
}

impl FromWord for LiteralKind {
    ghost reading = { literal_kind };

    #[tactic(auto, unfolding(crate::specs::Kinds::literal_kind))]
    fn from_word(word: Word<'_>) -> Result<LiteralKind, Malformed> {
        match word.text {
            "bool" => Ok(LiteralKind::Bool),
            "int" => Ok(LiteralKind::Int),
            "const" => Ok(LiteralKind::Const),
            _ => Err(Malformed::UnknownWord),
        }
    }
}

impl FromWord for ConstructorKind {
    ghost reading = { constructor };

    #[tactic(auto, unfolding(crate::specs::Kinds::constructor))]
    fn from_word(word: Word<'_>) -> Result<ConstructorKind, Malformed> {
        match word.text {
            "int" => Ok(ConstructorKind::Internal),
            "ext" => Ok(ConstructorKind::External),
            _ => Err(Malformed::UnknownWord),
        }
    }
}

/// What stands before and behind the first colon.
fn halves(text: &str) -> Result<(&str, &str), Malformed>
    ensures { parts_seen result ≡ at_colon text.now }
{
    text.split_once(':').ok_or(Malformed::UnknownWord)
}

/// The part that `tmpl:START:END` names.
#[tactic(auto, unfolding(crate::specs::Kinds::template))]
fn template_part(text: &str) -> Result<Part, Malformed>
    ensures { result ≡ template text.now }
{
    let (word, part) = halves(text)?;
    if word != "tmpl" {
        return Err(Malformed::UnknownWord);
    }
    let (start, end) = halves(part)?;
    Ok(Part {
        start: wide_in(start)?,
        end: wide_in(end)?,
    })
}

impl FromWord for ExtractorKind {
    ghost reading = { extractor };

    #[tactic(auto, unfolding(crate::specs::Kinds::extractor))]
    fn from_word(word: Word<'_>) -> Result<ExtractorKind, Malformed> {
        match word.text {
            "ext" => Ok(ExtractorKind::External),
            text => Ok(ExtractorKind::Internal {
                template: template_part(text)?,
            }),
        }
    }
}

const NO_FLAGS: TermFlags = TermFlags {
    pure: false,
    multi: false,
    partial: false,
    rec: false,
};

/// One more flag, which must not be there yet.
fn add_flag(flags: TermFlags, letter: u8) -> Result<TermFlags, Malformed>
    ensures { result ≡ with_flag flags letter }
{
    match letter {
        b'p' if !flags.pure => Ok(TermFlags {
            pure: true,
            ..flags
        }),
        b'm' if !flags.multi => Ok(TermFlags {
            multi: true,
            ..flags
        }),
        b'o' if !flags.partial => Ok(TermFlags {
            partial: true,
            ..flags
        }),
        b'r' if !flags.rec => Ok(TermFlags { rec: true, ..flags }),
        _ => Err(Malformed::UnknownWord),
    }
}

/// A dash, or letters of flags, each at most once.
impl FromWord for TermFlags {
    ghost reading = { flags };

    #[tactic(auto, unfolding(crate::specs::Kinds::flags))]
    fn from_word(word: Word<'_>) -> Result<TermFlags, Malformed> {
        if is_dash(word) {
            return Ok(NO_FLAGS);
        }
        // Not `try_fold`: no lemma of std ties what it returns to a recursion such as `flags_on`.
        let mut flags = NO_FLAGS;
        for letter in word.text.as_bytes() {
            flags = add_flag(flags, *letter)?;
        }
        Ok(flags)
    }
}
