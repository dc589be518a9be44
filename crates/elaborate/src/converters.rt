// Registering converters.
ghost use Rattle.std.specs.Prelude.{◌≡◌, OnErr};
ghost use Rattle.table.specs.Contents.{Outcome, outcome};
ghost use Rattle.records.specs.declared.refusal.Refusal.{Refusal};
ghost use Rattle.tables.specs.Tables.{env};
ghost use Rattle.tables.specs.declared.Tables.{Tables};
ghost use Rattle.elaborate.specs.Converters.{add_converter, register, convert, Converts};
ghost use Rattle.lookup.specs.Lookup.{converter_of};

use crate::faults::report_error;
use definition::Converter as Definition;
use lookup::{converter, term_by_name, type_by_name};
use records::fault::Cause;
use records::ids::{TermId, TypeId};
use records::refusal::{Refusal, TableId};
use records::result::Converter;
use records::source::Part;
use tables::Tables;

// As `add_type` of `Tables`: one function for all tables would be no plainer.
/// One more converter, known by its inner and outer type.
fn add(tables: &mut Tables, key: (TypeId, TypeId), term: TermId) -> Result<(), Refusal>
    ensures { outcome tables.new result ≡ add_converter key term tables.old }
{
    let (inner_ty, outer_ty) = key;
    let converter = Converter {
        inner_ty,
        outer_ty,
        term,
    };
    tables
        .converters
        .push(converter)
        .map_err(|_| Refusal::Full {
            table: TableId::Converters,
        })
}

/// Registers the term for the pair of types, unless the pair has a converter already.
fn register(
    tables: &mut Tables,
    definition: Definition,
    key: (TypeId, TypeId),
    term: TermId,
) -> Result<(), Refusal>
    ensures { outcome tables.new result ≡ register definition key term (converter_of tables.old.converters.items key) tables.old }
{
    match converter(tables, key) {
        Some(_) => report_error(
            tables,
            definition.pos,
            Cause::DuplicateConverter {
                inner: definition.inner_ty.name,
                outer: definition.outer_ty.name,
            },
        ),
        None => add(tables, key, term),
    }
}

// The three names are written out: they differ in look-up and cause, and a common function would be given two closures for each.
/// Resolves the names of a converter definition and registers it; what is unknown is a fault.
fn convert(tables: &mut Tables, definition: Definition) -> Result<(), Refusal>
    ensures { outcome tables.new result ≡ convert definition tables.old }
{
    let Some(inner) = type_by_name(tables, definition.inner_ty.name) else {
        let name = definition.inner_ty.name;
        return report_error(
            tables,
            definition.inner_ty.pos,
            Cause::UnknownInnerType { name },
        );
    };
    let Some(outer) = type_by_name(tables, definition.outer_ty.name) else {
        let name = definition.outer_ty.name;
        return report_error(
            tables,
            definition.outer_ty.pos,
            Cause::UnknownOuterType { name },
        );
    };
    let Some(term) = term_by_name(tables, definition.term.name) else {
        let name = definition.term.name;
        return report_error(
            tables,
            definition.term.pos,
            Cause::UnknownConverterTerm { name },
        );
    };
    register(tables, definition, (inner, outer), term)
}

/// Registers the converter definition that a part of the source list writes.
pub(crate) fn convert_part(tables: &mut Tables, part: Part) -> Result<(), Refusal>
    ensures meaning { Converts part tables.old (outcome tables.new result) }
    ensures only { (t : Outcome Tables (Unit {0}) Refusal) → Converts part tables.old t → t ≡ outcome tables.new result }
    ensures unchanged { OnErr result (tables.new ≡ tables.old) }
    ensures env { env tables.new ≡ env tables.old }
{
    let definition = Definition::read(tables.source.as_slice(), part)?;
    convert(tables, definition)
}
