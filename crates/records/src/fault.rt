// Faults of rules and converters: data instead of messages, with all that the message would show.
ghost use Rattle.std.specs.Prelude.{◌≡◌};
ghost use Rattle.records.specs.Numbers.{cause_number};

use crate::ids::TypeId;
use crate::source::{Name, Pos};

#[derive(Clone, Copy)]
pub struct Fault {
    pub cause: Cause,
    pub pos: Pos,
}

#[derive(Clone, Copy)]
pub enum Cause {
    UnknownInnerType {
        name: Name,
    },
    UnknownOuterType {
        name: Name,
    },
    UnknownConverterTerm {
        name: Name,
    },
    DuplicateConverter {
        inner: Name,
        outer: Name,
    },
    ArgumentCount {
        term: Name,
        got: u32,
        expected: u32,
    },
    RootNotTerm,
    UnknownRootTerm,
    RootNotDeclared,
    PriorityOfMulti,
    DuplicateRuleName {
        name: Name,
    },
    NoConstructor {
        term: Name,
    },
    PatternIntType {
        ty: TypeId,
        val: i64,
    },
    PatternBoolType {
        val: bool,
        ty: TypeId,
    },
    PatternUnknownConst,
    PatternConstType,
    ReboundVariable {
        var: Name,
    },
    PatternVarType {
        expected: TypeId,
        var: Name,
        found: TypeId,
    },
    PatternUnknownTerm {
        term: Name,
    },
    PatternTermType {
        expected: TypeId,
        found: TypeId,
    },
    NoExtractor {
        term: Name,
    },
    ExprTermIsVariable {
        term: Name,
    },
    ExprUnknownTerm {
        term: Name,
    },
    ExprTermType {
        expected: TypeId,
        found: TypeId,
    },
    NotPure {
        term: Name,
    },
    MultiInSingle {
        term: Name,
    },
    PartialOnRight {
        term: Name,
        root_multi: bool,
    },
    ExprUnknownVar {
        var: Name,
    },
    ExprVarType {
        var: Name,
        found: TypeId,
        expected: TypeId,
    },
    ExprBoolType {
        val: bool,
        ty: TypeId,
    },
    ExprIntUntyped,
    ExprIntType {
        ty: TypeId,
        val: i64,
    },
    ExprUnknownConst,
    ExprConstType {
        val: Name,
        expected: TypeId,
        found: TypeId,
    },
    LetUnknownType {
        ty: Name,
        var: Name,
    },
}

impl Cause {
    /// The number by which hosts and case files know the cause. A cause holds values, so it has no number of its own.
    pub fn number(self) -> u8
        ensures { result ≡ cause_number self }
    {
        match self {
            Cause::UnknownInnerType { .. } => 101,
            Cause::UnknownOuterType { .. } => 102,
            Cause::UnknownConverterTerm { .. } => 103,
            Cause::DuplicateConverter { .. } => 104,
            Cause::ArgumentCount { .. } => 105,
            Cause::RootNotTerm => 106,
            Cause::UnknownRootTerm => 107,
            Cause::RootNotDeclared => 108,
            Cause::PriorityOfMulti => 109,
            Cause::DuplicateRuleName { .. } => 110,
            Cause::NoConstructor { .. } => 111,
            Cause::PatternIntType { .. } => 112,
            Cause::PatternBoolType { .. } => 113,
            Cause::PatternUnknownConst => 114,
            Cause::PatternConstType => 115,
            Cause::ReboundVariable { .. } => 116,
            Cause::PatternVarType { .. } => 117,
            Cause::PatternUnknownTerm { .. } => 118,
            Cause::PatternTermType { .. } => 119,
            Cause::NoExtractor { .. } => 120,
            Cause::ExprTermIsVariable { .. } => 121,
            Cause::ExprUnknownTerm { .. } => 122,
            Cause::ExprTermType { .. } => 123,
            Cause::NotPure { .. } => 124,
            Cause::MultiInSingle { .. } => 125,
            Cause::PartialOnRight { .. } => 126,
            Cause::ExprUnknownVar { .. } => 127,
            Cause::ExprVarType { .. } => 128,
            Cause::ExprBoolType { .. } => 129,
            Cause::ExprIntUntyped => 130,
            Cause::ExprIntType { .. } => 131,
            Cause::ExprUnknownConst => 132,
            Cause::ExprConstType { .. } => 133,
            Cause::LetUnknownType { .. } => 134,
        }
    }
}
