// What a symbol names: types, constants and terms.
ghost use Rattle.std.specs.Prelude.{◌≡◌, ◌<◌, length, position, IfSome};
ghost use Rattle.lookup.specs.Lookup.{same_sym, type_of, constant_of, term_of};
ghost use Rattle.tables.specs.Tables.{env};

use records::env::{Term, Type};
use records::ids::{Sym, TermId, TypeId};
use tables::Tables;

// A function of its own: with `map` behind `position` in one function the proof did not close.
fn type_position(types: &[Type], name: Sym) -> Option<usize>
    ensures first { result ≡ position (λ t. same_sym t.name name) types.now }
    ensures within { IfSome result (λ i. i < length types.now) }
{
    types.iter().position(|ty| ty.name == name)
}

// As `type_position`. The generic one is `position` of the library: these two only say what it finds.
fn term_position(terms: &[Term], name: Sym) -> Option<usize>
    ensures first { result ≡ position (λ t. same_sym t.name name) terms.now }
    ensures within { IfSome result (λ i. i < length terms.now) }
{
    terms.iter().position(|term| term.name == name)
}

pub fn type_named(tables: &Tables, name: Sym) -> Option<TypeId>
    ensures { result ≡ type_of (env tables.now).types name }
{
    type_position(tables.types.as_slice(), name).map(|i| TypeId(i as u16))
}

pub fn term_named(tables: &Tables, name: Sym) -> Option<TermId>
    ensures { result ≡ term_of (env tables.now).terms name }
{
    term_position(tables.terms.as_slice(), name).map(|i| TermId(i as u16))
}

/// The type of the constant that has the name.
pub fn constant_type(tables: &Tables, name: Sym) -> Option<TypeId>
    ensures { result ≡ constant_of (env tables.now).constants name }
{
    let constants = tables.constants.as_slice();
    constants.iter().find(|c| c.name == name).map(|c| c.ty)
}
