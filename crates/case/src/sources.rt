// Lines of source records: `src TAG SIZE FILE OFFSET`, and then what the tag asks for.
ghost use Rattle.std.specs.Prelude.{◌≡◌};
ghost use Rattle.case.specs.Sources.{only, pattern, expr, let_def, rule_head, node, source_line};

use crate::fields::{FromWord, check_count, check_least, ending, field};
use crate::kinds::{ExprTag, PatternTag, Tag};
use items::{Item, Malformed};
use records::source::{Expr, Node, Pattern, Pos, Source};
use words::Word;

/// One more word, and nothing behind it.
fn only<T: FromWord>(words: &[Word<'_>]) -> Result<T, Malformed>
    ensures { result ≡ only T.reading words.now }
{
    check_count(words, 6)?;
    field(words, 5)
}

fn read_pattern(words: &[Word<'_>], tag: PatternTag) -> Result<Pattern, Malformed>
    ensures { result ≡ pattern words.now tag }
{
    match tag {
        PatternTag::Var => Ok(Pattern::Var { var: only(words)? }),
        PatternTag::Bind => Ok(Pattern::BindPattern { var: only(words)? }),
        PatternTag::Bool => Ok(Pattern::ConstBool { val: only(words)? }),
        PatternTag::Int => Ok(Pattern::ConstInt { val: only(words)? }),
        PatternTag::Const => Ok(Pattern::ConstPrim { val: only(words)? }),
        PatternTag::Term => Ok(Pattern::Term { sym: only(words)? }),
        PatternTag::Wild => ending(words, 5, Pattern::Wildcard),
        PatternTag::And => ending(words, 5, Pattern::And),
        PatternTag::Arg => Ok(Pattern::MacroArg {
            index: only(words)?,
        }),
    }
}

fn read_expr(words: &[Word<'_>], tag: ExprTag) -> Result<Expr, Malformed>
    ensures { result ≡ expr words.now tag }
{
    match tag {
        ExprTag::Term => Ok(Expr::Term { sym: only(words)? }),
        ExprTag::Var => Ok(Expr::Var { name: only(words)? }),
        ExprTag::Bool => Ok(Expr::ConstBool { val: only(words)? }),
        ExprTag::Int => Ok(Expr::ConstInt { val: only(words)? }),
        ExprTag::Const => Ok(Expr::ConstPrim { val: only(words)? }),
        ExprTag::Let => ending(words, 5, Expr::Let),
    }
}

/// VARIABLE TYPENAME
fn read_def(words: &[Word<'_>]) -> Result<Node, Malformed>
    ensures { result ≡ let_def words.now }
{
    check_count(words, 7)?;
    Ok(Node::LetDef {
        var: field(words, 5)?,
        ty: field(words, 6)?,
    })
}

/// PRIORITY or `-`, NAME or `-`
fn read_rule(words: &[Word<'_>]) -> Result<Node, Malformed>
    ensures { result ≡ rule_head words.now }
{
    check_count(words, 7)?;
    Ok(Node::Rule {
        prio: field(words, 5)?,
        name: field(words, 6)?,
    })
}

fn read_node(words: &[Word<'_>], tag: Tag) -> Result<Node, Malformed>
    ensures { result ≡ node words.now tag }
{
    match tag {
        Tag::Pattern(tag) => Ok(Node::Pattern(read_pattern(words, tag)?)),
        Tag::Expr(tag) => Ok(Node::Expr(read_expr(words, tag)?)),
        Tag::Def => read_def(words),
        Tag::IfLet => ending(words, 5, Node::IfLet),
        Tag::Rule => read_rule(words),
        Tag::Name => Ok(Node::Ident { name: only(words)? }),
        Tag::Converter => ending(words, 5, Node::Converter),
    }
}

pub(crate) fn source(words: &[Word<'_>]) -> Result<Item, Malformed>
    ensures { result ≡ source_line words.now }
{
    check_least(words, 5)?;
    let tag = field(words, 1)?;
    let size = field(words, 2)?;
    let pos = Pos {
        file: field(words, 3)?,
        offset: field(words, 4)?,
    };
    let node = read_node(words, tag)?;
    Ok(Item::Source {
        source: Source { node, size, pos },
    })
}
