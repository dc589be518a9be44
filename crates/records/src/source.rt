// Source trees: the definitions and templates as the reader found them, before any name is resolved.
ghost use Rattle.std.specs.Prelude.{◌≡◌, take, drop};
ghost use Rattle.records.specs.Parts.{bytes, slice};
ghost use Rattle.records.specs.Patterns.{pattern_counts};

/// A name's bytes: a part of the text, by place and length and no `&str`, as a `Part` is of a list.
#[derive(Clone, Copy)]
pub struct Name {
    pub start: u32,
    pub len: u32,
}

/// A place in the source files.
#[derive(Clone, Copy)]
pub struct Pos {
    pub file: u32,
    pub offset: u32,
}

/// A part of a list: the records from `start` up to `end`, which is not in it. Numbers and no slice, since callers hand it over and lists go on growing.
#[derive(Clone, Copy)]
pub struct Part {
    pub start: u32,
    pub end: u32,
}

/// The `len` items from `start` on, as far as the list goes.
fn clipped<T>(items: &[T], start: usize, len: usize) -> &[T]
    ensures { result.now ≡ take len (drop start items.now) }
{
    let rest = items.get(start..).unwrap_or(&[]);
    rest.get(..len).unwrap_or(rest)
}

impl Name {
    /// The bytes of the name, as far as the text goes.
    pub fn bytes(self, text: &[u8]) -> &[u8]
        ensures { result.now ≡ bytes text.now self }
    {
        clipped(text, self.start as usize, self.len as usize)
    }
}

impl Part {
    /// The records of the part, as far as the list goes.
    pub fn of<T>(self, items: &[T]) -> &[T]
        ensures { result.now ≡ slice items.now self }
    {
        let len = self.end.saturating_sub(self.start);
        clipped(items, self.start as usize, len as usize)
    }
}

#[derive(Clone, Copy)]
pub enum Pattern {
    Var { var: Name },
    /// Over one pattern.
    BindPattern { var: Name },
    ConstBool { val: bool },
    ConstInt { val: i64 },
    ConstPrim { val: Name },
    /// Over its arguments.
    Term { sym: Name },
    Wildcard,
    /// Over its patterns.
    And,
    /// An argument of the template that it stands in.
    MacroArg { index: u16 },
}

impl Pattern {
    /// Whether the pattern may stand over that many patterns, in a template with `arity` arguments. A definition has none, and so no macro argument.
    pub fn counts(self, arity: usize, children: usize) -> bool
        ensures { result ≡ pattern_counts arity self children }
    {
        match self {
            Pattern::Term { .. } | Pattern::And => true,
            Pattern::BindPattern { .. } => children == 1,
            Pattern::MacroArg { index } => (index as usize) < arity && children == 0,
            Pattern::Var { .. }
            | Pattern::ConstBool { .. }
            | Pattern::ConstInt { .. }
            | Pattern::ConstPrim { .. }
            | Pattern::Wildcard => children == 0,
        }
    }
}

#[derive(Clone, Copy)]
pub enum Expr {
    /// Over its arguments.
    Term { sym: Name },
    Var { name: Name },
    ConstBool { val: bool },
    ConstInt { val: i64 },
    ConstPrim { val: Name },
    /// Over its definitions, then its body.
    Let,
}

#[derive(Clone, Copy)]
pub enum Node {
    Pattern(Pattern),
    Expr(Expr),
    /// A definition of a let, over its value.
    LetDef {
        var: Name,
        ty: Name,
    },
    /// Over a pattern, then an expression.
    IfLet,
    /// Over a pattern, if-lets, then an expression.
    Rule {
        prio: Option<i64>,
        name: Option<Name>,
    },
    /// A name with its place.
    Ident {
        name: Name,
    },
    /// Over three placed names: term, inner type, outer type.
    Converter,
}

/// A record of the source list. Its size counts itself and all below it.
/// A tree is a part of the list and no `Box` of children: tables claim their memory once, and trees may be nested as deep as the list is long.
#[derive(Clone, Copy)]
pub struct Source {
    pub node: Node,
    pub size: u16,
    pub pos: Pos,
}
