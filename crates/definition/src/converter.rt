// Converter definitions.
ghost use Rattle.std.specs.Prelude.{◌≡◌, MatchResult};
ghost use Rattle.definition.specs.Converters.{ident_record, converter_records, WritesConverter};
ghost use Rattle.definition.specs.Grammar.{kind_of};
ghost use Rattle.definition.specs.Lawful.{NamesFirstBad};
ghost use Rattle.definition.specs.declared.converter.Converter.{Converter};

use crate::check::bad_record;
use crate::grammar::Kind;
use records::refusal::Refusal;
use records::source::{Name, Node, Part, Pos, Source};

/// A name with its place.
#[derive(Clone, Copy)]
pub struct Ident {
    pub name: Name,
    pub pos: Pos,
}

/// A converter definition: the term is to convert from the inner to the outer type.
#[derive(Clone, Copy)]
pub struct Converter {
    pub term: Ident,
    pub inner_ty: Ident,
    pub outer_ty: Ident,
    pub pos: Pos,
}

impl Ident {
    /// The placed name that a record is. It asks for such a record, so it is no `From`.
    fn from_record(source: &Source) -> Ident
        requires kind { kind_of source.now.node ≡ Kind.Ident }
        requires size { source.now.size ≡ 1 }
        ensures { ident_record result ≡ source.now }
    {
        let Node::Ident { name } = source.node else {
            unreachable()
        };
        Ident {
            name,
            pos: source.pos,
        }
    }
}

impl Converter {
    /// The converter definition that the records write. It asks for such records, so it is no `From`.
    fn from_records(records: &[Source]) -> Converter
        requires { (c : Converter) × (records.now ≡ converter_records c) }
        ensures { converter_records result ≡ records.now }
    {
        let [term, inner_ty, outer_ty, root] = records else {
            unreachable()
        };
        Converter {
            term: Ident::from_record(term),
            inner_ty: Ident::from_record(inner_ty),
            outer_ty: Ident::from_record(outer_ty),
            pos: root.pos,
        }
    }

    /// The converter definition that a part of the source list writes.
    pub fn read(source: &[Source], part: Part) -> Result<Converter, Refusal>
        ensures { MatchResult result
            (WritesConverter source.now part)
            (NamesFirstBad Kind.Converter source.now part) }
    {
        match bad_record(Kind::Converter, source, part) {
            Some(record) => Err(Refusal::UnlawfulDefinition { record }),
            None => Ok(Converter::from_records(part.of(source))),
        }
    }
}
