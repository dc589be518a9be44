// Adding to tables; a full table is a refusal that names it.
ghost use Rattle.std.specs.Prelude.{◌≡◌, ◌<◌, [], slice_index_or};
ghost use Rattle.table.specs.Contents.{outcome};
ghost use Rattle.tables.specs.Names.{builtin_names};
ghost use Rattle.tables.specs.Steps.{add_name, add_symbol, add_type, add_builtin, add_builtins};

use crate::Tables;
use crate::names::{BUILTINS, builtin_name, builtin_type};
use records::env::{Symbol, Type};
use records::refusal::{Refusal, TableId};
use records::source::Name;

impl Tables {
    /// The bytes of a name, written at the end of the text.
    pub fn add_name(&mut self, bytes: &[u8]) -> Result<Name, Refusal>
        ensures { outcome self.new result ≡ add_name bytes.now self.old }
    {
        let start = self.text.len();
        self.text
            .extend_from_slice(bytes)
            .map_err(|_| Refusal::Full {
                table: TableId::Text,
            })?;
        Ok(Name {
            start: start as u32,
            // By the table, whose maximum bounds it.
            len: (self.text.len() - start) as u32,
        })
    }

    pub fn add_symbol(&mut self, symbol: Symbol) -> Result<(), Refusal>
        ensures { outcome self.new result ≡ add_symbol symbol self.old }
    {
        self.symbols.push(symbol).map_err(|_| Refusal::Full {
            table: TableId::Symbols,
        })
    }

    // Not one function with `add_symbol`: it would be given the table and its name both, and say no more than `push` with `map_err` does.
    pub fn add_type(&mut self, ty: Type) -> Result<(), Refusal>
        ensures { outcome self.new result ≡ add_type ty self.old }
    {
        self.types.push(ty).map_err(|_| Refusal::Full {
            table: TableId::Types,
        })
    }

    /// Built-in type `i`: its name, the symbol of that name, the type.
    fn add_builtin(&mut self, i: usize) -> Result<(), Refusal>
        requires { i < 13 }
        ensures { outcome self.new result ≡ add_builtin i (slice_index_or builtin_names i []) self.old }
    {
        let name = self.add_name(builtin_name(i))?;
        self.add_symbol(Symbol { name })?;
        self.add_type(builtin_type(i))
    }

    /// The built-in types, with which every environment begins.
    pub fn add_builtins(&mut self) -> Result<(), Refusal>
        ensures { outcome self.new result ≡ add_builtins 0 builtin_names self.old }
    {
        // The number is what a built-in type is known by, so there is no list to go through.
        for i in 0..BUILTINS {
            self.add_builtin(i)?;
        }
        Ok(())
    }
}
