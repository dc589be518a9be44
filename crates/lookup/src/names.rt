// Names and their symbols.
ghost use Rattle.std.specs.Prelude.{◌≡◌, ◌<◌, length, position, IfSome};
ghost use Rattle.std.specs.Str.{bytes_eq};
ghost use Rattle.lookup.specs.Lookup.{symbol_of};
ghost use Rattle.records.specs.Parts.{bytes as bytes_of};
ghost use Rattle.tables.specs.Tables.{env};

use records::env::Symbol;
use records::ids::Sym;
use records::source::Name;
use tables::Tables;

// A function of its own: with `map` behind `position` in one function the proof did not close.
fn symbol_position(text: &[u8], symbols: &[Symbol], bytes: &[u8]) -> Option<usize>
    ensures first { result ≡ position (λ s. bytes_eq (bytes_of text.now s.name) bytes.now) symbols.now }
    ensures within { IfSome result (λ i. i < length symbols.now) }
{
    symbols
        .iter()
        .position(|symbol| symbol.name.bytes(text) == bytes)
}

/// The symbol that has the bytes of the name.
pub fn symbol(tables: &Tables, name: Name) -> Option<Sym>
    ensures { result ≡ symbol_of (env tables.now).text (env tables.now).symbols (bytes_of (env tables.now).text name) }
{
    let text = tables.text.as_slice();
    let bytes = name.bytes(text);
    symbol_position(text, tables.symbols.as_slice(), bytes).map(|i| Sym(i as u16))
}
