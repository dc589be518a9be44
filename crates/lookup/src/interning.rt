// Symbols for names that may be new.
ghost use Rattle.std.specs.Prelude.{◌≡◌, Some, IfOk};
ghost use Rattle.lookup.specs.Interning.{intern};
ghost use Rattle.lookup.specs.Lookup.{symbol_of};
ghost use Rattle.records.specs.Parts.{bytes as bytes_of};
ghost use Rattle.table.specs.Contents.{outcome};
ghost use Rattle.tables.specs.Lawful.{Lawful};
ghost use Rattle.tables.specs.Names.{Inside};
ghost use Rattle.tables.specs.Tables.{env};

use crate::names::symbol;
use records::env::Symbol;
use records::ids::Sym;
use records::refusal::Refusal;
use records::source::Name;
use tables::Tables;

/// The symbol of a name, which is added behind the others if none has its bytes.
pub fn intern(tables: &mut Tables, name: Name) -> Result<Sym, Refusal>
    ensures meaning { outcome tables.new result ≡ intern name tables.old }
    ensures known { IfOk result (λ sym. symbol_of (env tables.new).text (env tables.new).symbols (bytes_of (env tables.new).text name) ≡ Some sym) }
    ensures lawful { Inside (env tables.old).text name → Lawful (env tables.old) → Lawful (env tables.new) }
{
    if let Some(sym) = symbol(tables, name) {
        return Ok(sym);
    }
    let sym = Sym(tables.symbols.len() as u16);
    tables.add_symbol(Symbol { name })?;
    Ok(sym)
}
