// What elaboration has written, in readable lines.
use crate::names::{name_text, term_text, type_text};
use records::fault::Cause;
use std::alloc::{AllocError, Global};
use std::io;
use tables::Tables;

/// What is wrong with a converter definition.
fn cause_text(heap: Global, tables: &Tables, cause: Cause) -> Result<String, AllocError> {
    let text = |name| name_text(tables, name);
    match cause {
        Cause::UnknownInnerType { name } => {
            format!(in heap; "unknown inner type {}", text(name))
        }
        Cause::UnknownOuterType { name } => {
            format!(in heap; "unknown outer type {}", text(name))
        }
        Cause::UnknownConverterTerm { name } => format!(in heap; "unknown term {}", text(name)),
        Cause::DuplicateConverter { inner, outer } => {
            format!(in heap;
                "a second converter from {} to {}",
                text(inner),
                text(outer)
            )
        }
        _ => String::from_str(heap, "another fault"),
    }
}

/// The symbols, the converters and the faults.
pub(crate) fn describe(rt: &(impl Print + AllocGlobal), tables: &Tables) -> io::Result<()> {
    println!(rt; "{} symbols", tables.symbols.len())?;
    for converter in tables.converters.as_slice() {
        let inner = type_text(tables, converter.inner_ty);
        let outer = type_text(tables, converter.outer_ty);
        let term = term_text(tables, converter.term);
        println!(rt; "converter from {inner} to {outer}: {term}")?;
    }
    for fault in tables.faults.as_slice() {
        let number = fault.cause.number();
        let offset = fault.pos.offset;
        let text = cause_text(rt.alloc(), tables, fault.cause)?;
        println!(rt; "fault {number} at {offset}: {text}")?;
    }
    Ok(())
}
