// What elaboration writes: converters, typed trees, variables, kept rules.
use crate::ids::{Sym, TermId, TypeId, VarId};
use crate::source::{Part, Pos};

/// The term that turns a value of the inner type into one of the outer type.
#[derive(Clone, Copy)]
pub struct Converter {
    pub inner_ty: TypeId,
    pub outer_ty: TypeId,
    pub term: TermId,
}

/// A rule definition that a call accepted: its part of the source list.
#[derive(Clone, Copy)]
pub struct Definition {
    pub part: Part,
}

/// A variable of a rule.
#[derive(Clone, Copy)]
pub struct BoundVar {
    pub name: Sym,
    pub ty: TypeId,
    pub scope: Scope,
}

/// A scope, by its number within its rule.
#[derive(Clone, Copy, PartialEq, Eq)]
pub struct Scope(pub u32);

#[derive(Clone, Copy)]
pub enum TypedPattern {
    /// Over one pattern.
    BindPattern { var: VarId },
    Var { var: VarId },
    ConstBool { val: bool },
    ConstInt { val: i64 },
    ConstPrim { val: Sym },
    /// Over its arguments.
    Term { term: TermId },
    Wildcard,
    /// Over its patterns.
    And,
}

#[derive(Clone, Copy)]
pub enum TypedExpr {
    /// Over its arguments.
    Term { term: TermId },
    Var { var: VarId },
    ConstBool { val: bool },
    ConstInt { val: i64 },
    ConstPrim { val: Sym },
    /// Over its definitions, then its body.
    Let,
}

#[derive(Clone, Copy)]
pub enum TypedNode {
    Pattern { ty: TypeId, pattern: TypedPattern },
    Expr { ty: TypeId, expr: TypedExpr },
    /// A definition of a let, over its value.
    LetDef { ty: TypeId, var: VarId },
    /// Over a pattern, then an expression.
    IfLet,
}

/// A record of the output list. Its size counts itself and all below it. As of `Source`, a tree is a part of the list and no `Box` of children.
#[derive(Clone, Copy)]
pub struct Output {
    pub node: TypedNode,
    pub size: u16,
}

/// A rule that was kept, with its parts of the output and of the variables.
#[derive(Clone, Copy)]
pub struct Rule {
    pub root_term: TermId,
    pub prio: i64,
    pub name: Option<Sym>,
    pub pos: Pos,
    pub output: Part,
    pub vars: Part,
}
