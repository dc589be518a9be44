// The environment in readable lines.
use crate::names::{name_text, symbol_text, type_text};
use itertools::Itertools;
use records::env::{ConstructorKind, ExtractorKind, Term, TermKind, TypeKind};
use records::source::{Node, Part, Pattern};
use std::alloc::{AllocError, Global};
use std::io;
use tables::Tables;

/// A word for each kind. `Display` for another crate's type would take a wrapper, and that is no plainer.
fn kind_text(kind: TypeKind) -> &'static str {
    match kind {
        TypeKind::Bool => "bool",
        TypeKind::Int => "integer",
        TypeKind::Primitive => "primitive",
        TypeKind::Enum => "enum",
        TypeKind::Struct => "struct",
    }
}

fn signature(heap: Global, tables: &Tables, term: &Term) -> Result<String, AllocError> {
    let args = term
        .arg_tys
        .iter()
        .map(|ty| type_text(tables, *ty))
        .join(heap, ", ")?;
    let ret = type_text(tables, term.ret_ty);
    format!(in heap; "({args}) -> {ret}")
}

/// What can be done with a term, after its signature.
fn abilities(heap: Global, kind: TermKind) -> Result<String, AllocError> {
    let mut text = String::new(heap);
    let TermKind::Decl {
        flags,
        constructor_kind,
        extractor_kind,
    } = kind
    else {
        text.push_str(", constructor, extractor")?;
        return Ok(text);
    };
    if flags.pure {
        text.push_str(", pure")?;
    }
    match constructor_kind {
        Some(ConstructorKind::Internal) => text.push_str(", constructor by rules")?,
        Some(ConstructorKind::External) => text.push_str(", constructor of the host")?,
        None => {}
    }
    match extractor_kind {
        Some(ExtractorKind::Internal { .. }) => text.push_str(", extractor by a template")?,
        Some(ExtractorKind::External) => text.push_str(", extractor of the host")?,
        None => {}
    }
    Ok(text)
}

fn node_text(heap: Global, tables: &Tables, node: Node) -> Result<String, AllocError> {
    match node {
        Node::Pattern(Pattern::Term { sym }) => {
            let name = name_text(tables, sym);
            format!(in heap; "pattern of the term {name}")
        }
        Node::Pattern(Pattern::MacroArg { index }) => format!(in heap; "argument {index}"),
        _ => String::from_str(heap, "another record"),
    }
}

fn template_of(kind: TermKind) -> Option<Part> {
    match kind {
        TermKind::Decl {
            extractor_kind: Some(ExtractorKind::Internal { template }),
            ..
        } => Some(template),
        _ => None,
    }
}

/// The records of a template, root last.
fn template(rt: &(impl Print + AllocGlobal), tables: &Tables, part: Part) -> io::Result<()> {
    let records = part.of(tables.source.as_slice());
    for (i, source) in (part.start..part.end).zip(records) {
        let text = node_text(rt.alloc(), tables, source.node)?;
        println!(rt; "    source {i}: {text}, size {}", source.size)?;
    }
    Ok(())
}

pub(crate) fn environment(rt: &(impl Print + AllocGlobal), tables: &Tables) -> io::Result<()> {
    println!(rt; "{} symbols", tables.symbols.len())?;
    for (i, ty) in tables.types.as_slice().iter().enumerate() {
        let name = symbol_text(tables, ty.name);
        let kind = kind_text(ty.kind);
        println!(rt; "type {i}: {name}, {kind}")?;
    }
    for (i, term) in tables.terms.as_slice().iter().enumerate() {
        let name = symbol_text(tables, term.name);
        let types = signature(rt.alloc(), tables, term)?;
        let more = abilities(rt.alloc(), term.kind)?;
        println!(rt; "term {i}: {name} {types}{more}")?;
        if let Some(part) = template_of(term.kind) {
            template(rt, tables, part)?;
        }
    }
    Ok(())
}
