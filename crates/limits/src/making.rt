// What the tests make their tables of. A helper answers, and the test fails: so no helper may abort.
use records::env::Symbol;
use records::source::{Name, Node, Pattern, Pos, Source};
use std::alloc::Global;
use std::test::Fail;
use tables::{Limits, Tables};

const NOWHERE: Pos = Pos { file: 0, offset: 0 };

/// The tables of a test have to hold it.
pub(crate) fn no_place<E: Drop>(_error: E) -> Fail {
    Fail::new("a table has no place for what the test adds")
}

/// The built-in environment, with room for all that an elaboration may hold.
pub(crate) fn environment(heap: Global) -> Result<Tables, Fail> {
    let mut tables = Tables::new(heap, &Limits::MAX, true)?;
    tables.add_builtins().map_err(no_place)?;
    Ok(tables)
}

pub(crate) fn add_symbol(tables: &mut Tables, bytes: &[u8]) -> Result<(), Fail> {
    let name = tables.add_name(bytes).map_err(no_place)?;
    tables.add_symbol(Symbol { name }).map_err(no_place)
}

pub(crate) fn add_node(tables: &mut Tables, node: Node, size: u16) -> Result<(), Fail> {
    let pos = NOWHERE;
    tables
        .source
        .push(Source { node, size, pos })
        .map_err(no_place)
}

pub(crate) fn add_pattern(tables: &mut Tables, pattern: Pattern, size: u16) -> Result<(), Fail> {
    add_node(tables, Node::Pattern(pattern), size)
}

/// The name of the first built-in type.
pub(crate) const BOOL: Name = Name { start: 0, len: 4 };
