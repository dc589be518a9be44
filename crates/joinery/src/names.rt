// The names of records, as text.
use records::ids::{Sym, TermId, TypeId};
use records::source::Name;
use tables::Tables;

// `cases` has the same: shared, it would be public, with a contract.
/// The bytes of a name as text.
pub(crate) fn name_text(tables: &Tables, name: Name) -> &str {
    std::str::from_utf8(name.bytes(tables.text.as_slice())).unwrap_or("?")
}

pub(crate) fn symbol_text(tables: &Tables, sym: Sym) -> &str {
    let symbol = tables.symbols.get(sym.0 as usize);
    symbol.map_or("?", |symbol| name_text(tables, symbol.name))
}

pub(crate) fn type_text(tables: &Tables, ty: TypeId) -> &str {
    let ty = tables.types.get(ty.0 as usize);
    ty.map_or("?", |ty| symbol_text(tables, ty.name))
}

// As `type_text`: one for both would be given the list and how its record is named, and would be no plainer.
pub(crate) fn term_text(tables: &Tables, term: TermId) -> &str {
    let term = tables.terms.get(term.0 as usize);
    term.map_or("?", |term| symbol_text(tables, term.name))
}
