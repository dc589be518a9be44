// What a name of the text stands for, by way of its symbol. Names are only looked up here, never added.
ghost use Rattle.std.specs.Prelude.{◌≡◌};
ghost use Rattle.lookup.specs.Lookup.{type_by_name, term_by_name};
ghost use Rattle.tables.specs.Tables.{env};

use crate::names::symbol;
use crate::symbols::{term_named, type_named};
use records::ids::{TermId, TypeId};
use records::source::Name;
use tables::Tables;

pub fn type_by_name(tables: &Tables, name: Name) -> Option<TypeId>
    ensures { result ≡ type_by_name (env tables.now) name }
{
    type_named(tables, symbol(tables, name)?)
}

pub fn term_by_name(tables: &Tables, name: Name) -> Option<TermId>
    ensures { result ≡ term_by_name (env tables.now) name }
{
    term_named(tables, symbol(tables, name)?)
}
