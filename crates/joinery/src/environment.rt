// Boards, lengths, and the terms that join and edge them.
use crate::build::{Builder, Stop};
use records::env::{ConstructorKind, ExtractorKind, TermFlags, TermKind, TypeKind};
use records::ids::TypeId;
use records::source::{Node, Part, Pattern};
use std::alloc::Global;
use tables::Limits;

pub(crate) const LEN: TypeId = TypeId(13);

pub(crate) const BOARD: TypeId = TypeId(14);

/// Small tables do for a few terms.
const LIMITS: Limits = Limits {
    text: 1_024,
    types: 64,
    constants: 16,
    rules: 64,
    definitions: 64,
    faults: 64,
    terms: 64,
    source: 1_024,
    output: 1_024,
    symbols: 128,
    converters: 16,
    variables: 256,
    scopes: 16,
};

const NO_FLAGS: TermFlags = TermFlags {
    pure: false,
    multi: false,
    partial: false,
    rec: false,
};

const PURE: TermFlags = TermFlags {
    pure: true,
    ..NO_FLAGS
};

/// A term that rules construct.
pub(crate) const BY_RULES: TermKind = TermKind::Decl {
    flags: NO_FLAGS,
    constructor_kind: Some(ConstructorKind::Internal),
    extractor_kind: None,
};

/// A pure term that the host constructs and extracts.
const BY_HOST: TermKind = TermKind::Decl {
    flags: PURE,
    constructor_kind: Some(ConstructorKind::External),
    extractor_kind: Some(ExtractorKind::External),
};

/// A pure term without constructor whose extractor is the template.
pub(crate) fn templated(template: Part) -> TermKind {
    TermKind::Decl {
        flags: PURE,
        constructor_kind: None,
        extractor_kind: Some(ExtractorKind::Internal { template }),
    }
}

/// The template `(edge <argument index>)`, laid out at the end of the source list.
pub(crate) fn edge_template(builder: &mut Builder, index: u16) -> Result<Part, Stop> {
    let start = u32::try_from(builder.tables.source.len())?;
    let sym = builder.name(b"edge")?;
    builder.source(Node::Pattern(Pattern::MacroArg { index }), 1, 6)?;
    builder.source(Node::Pattern(Pattern::Term { sym }), 2, 0)?;
    Ok(Part {
        start,
        end: start.saturating_add(2),
    })
}

pub(crate) fn joinery(heap: Global) -> Result<Builder, Stop> {
    let mut builder = Builder::new(heap, &LIMITS)?;
    builder.ty(b"Len", TypeKind::Primitive)?;
    builder.ty(b"Board", TypeKind::Primitive)?;
    builder.term(b"join", &[BOARD, BOARD], BOARD, BY_RULES)?;
    builder.term(b"edge", &[LEN], BOARD, BY_HOST)?;
    let template = edge_template(&mut builder, 0)?;
    builder.term(b"twin", &[LEN], BOARD, templated(template))?;
    Ok(builder)
}
