// The environment that rules are typed in: symbols, types, constants and terms.
use crate::ids::{Sym, TypeId};
use crate::source::{Name, Part};

#[derive(Clone, Copy)]
pub struct Symbol {
    pub name: Name,
}

#[derive(Clone, Copy, PartialEq, Eq)]
pub enum TypeKind {
    Bool,
    Int,
    Primitive,
    Enum,
    Struct,
}

#[derive(Clone, Copy, PartialEq, Eq)]
pub struct Type {
    pub name: Sym,
    pub kind: TypeKind,
}

/// A constant that rules write as `$NAME`.
#[derive(Clone, Copy)]
pub struct Constant {
    pub name: Sym,
    pub ty: TypeId,
}

#[derive(Clone, Copy)]
pub struct TermFlags {
    pub pure: bool,
    pub multi: bool,
    pub partial: bool,
    pub rec: bool,
}

#[derive(Clone, Copy)]
pub enum ConstructorKind {
    /// Defined by rules.
    Internal,
    /// A function of the host.
    External,
}

#[derive(Clone, Copy)]
pub enum ExtractorKind {
    /// A function of the host.
    External,
    /// A template: a pattern tree of the source list, with places for arguments.
    Internal { template: Part },
}

#[derive(Clone, Copy)]
pub enum TermKind {
    EnumVariant,
    Struct,
    Decl {
        flags: TermFlags,
        constructor_kind: Option<ConstructorKind>,
        extractor_kind: Option<ExtractorKind>,
    },
}

#[derive(Drop)]
pub struct Term {
    pub name: Sym,
    pub arg_tys: Vec<TypeId>,
    pub ret_ty: TypeId,
    pub kind: TermKind,
}
