// Converters, by the pair of types that they convert between.
ghost use Rattle.std.specs.Prelude.{◌≡◌};
ghost use Rattle.lookup.specs.Lookup.{key_of, converter_of};

use records::ids::{TermId, TypeId};
use records::result::Converter;
use tables::Tables;

/// The inner and the outer type of a converter.
fn key_of(converter: &Converter) -> (TypeId, TypeId)
    ensures { result ≡ key_of converter.now }
{
    (converter.inner_ty, converter.outer_ty)
}

/// The term that converts from the key's inner type to its outer type.
pub fn converter(tables: &Tables, key: (TypeId, TypeId)) -> Option<TermId>
    ensures { result ≡ converter_of tables.now.converters.items key }
{
    let converters = tables.converters.as_slice();
    converters.iter().find(|c| key_of(c) == key).map(|c| c.term)
}
