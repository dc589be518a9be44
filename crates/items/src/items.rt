// What a line says.
use records::env::{TermKind, TypeKind};
use records::ids::{RuleId, Sym, TermId, TypeId};
use records::refusal::TableId;
use records::source::{Name, Part, Source};

// It holds no list, so that reading a line claims no memory: arguments are named by their place in the line.
/// One line. Its names are parts of the line; where it ends in arguments, `args` is the number of the word that they begin at.
#[derive(Clone, Copy)]
pub enum Item {
    Limit {
        table: TableId,
        limit: u64,
    },
    Expand {
        on: bool,
    },
    Symbol {
        name: Name,
    },
    Type {
        name: Name,
        kind: TypeKind,
    },
    Const {
        name: Name,
        ty: TypeId,
    },
    /// Its arguments are types.
    Term {
        name: Name,
        kind: TermKind,
        ret_ty: TypeId,
        args: usize,
    },
    Source {
        source: Source,
    },
    Host {
        kind: HostKind,
    },
    Row {
        term: TermId,
        row: RowKind,
    },
    Code {
        code: u64,
        ty: TypeId,
    },
    /// Its arguments are codes.
    Make {
        term: TermId,
        code: u64,
        args: usize,
    },
    Lit {
        ty: TypeId,
        literal: Literal,
        code: u64,
    },
    /// Its arguments are types.
    Sign {
        term: TermId,
        pure: bool,
        partial: bool,
        ret_ty: TypeId,
        args: usize,
    },
    Open,
    Converter {
        part: Part,
    },
    Close,
    Rule {
        part: Part,
    },
    Finish,
    /// Its arguments are codes.
    Run {
        rule: RuleId,
        values: u64,
        work: u64,
        args: usize,
    },
    Dump,
}

#[derive(Clone, Copy, PartialEq, Eq)]
pub enum HostKind {
    Measure,
    Listed,
}

/// What a measure host does with a term's arguments.
#[derive(Clone, Copy)]
pub enum RowKind {
    Sum,
    Same,
}

#[derive(Clone, Copy)]
pub enum Literal {
    Bool { val: bool },
    Int { val: i64 },
    Const { val: Sym },
}
