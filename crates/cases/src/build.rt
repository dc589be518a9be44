// Environment lines, added to the tables.
use crate::stop::Stop;
use items::{Item, Malformed};
use lookup::intern;
use reader::Line;
use records::env::{Constant, Symbol, Term, Type};
use records::ids::{Sym, TypeId};
use records::source::{Name, Source};
use std::alloc::Global;
use tables::Tables;
use words::{Word, number};

/// The tables, and the environment line that is added to them.
#[derive(Drop)]
pub(crate) struct Adding<'a> {
    pub(crate) heap: Global,
    pub(crate) tables: &'a mut Tables,
    pub(crate) line: &'a Line<'a>,
}

// An item holds no list of its arguments, so each is read once more; that it is a number of a type was seen when the line was read.
fn read_type(word: &Word<'_>) -> Result<TypeId, Stop> {
    let n = number(word.text, 65_535).map_err(Malformed::from)?;
    Ok(TypeId(n as u16))
}

impl Adding<'_> {
    /// A name of the line, written into the text.
    pub(crate) fn name(&mut self, name: Name) -> Result<Name, Stop> {
        Ok(self.tables.add_name(name.bytes(self.line.bytes))?)
    }

    /// The symbol of a name of the line, which is added if there is none yet. The name goes into the text in any case.
    fn intern(&mut self, name: Name) -> Result<Sym, Stop> {
        let name = self.name(name)?;
        Ok(intern(self.tables, name)?)
    }

    /// The types that the words from number `from` on name.
    fn read_types(&self, from: usize) -> Result<Vec<TypeId>, Stop> {
        let words = self.line.words.iter();
        words.skip(from).map(read_type).try_collect(self.heap)
    }

    /// Limits and expansion were taken over when the tables were made.
    pub(crate) fn add(mut self) -> Result<(), Stop> {
        match self.line.item {
            Item::Symbol { name } => {
                let name = self.name(name)?;
                self.tables.add_symbol(Symbol { name })?;
            }
            Item::Type { name, kind } => {
                let name = self.intern(name)?;
                self.tables.add_type(Type { name, kind })?;
            }
            Item::Const { name, ty } => {
                let name = self.intern(name)?;
                self.tables.constants.push(Constant { name, ty })?;
            }
            Item::Term {
                name,
                kind,
                ret_ty,
                args,
            } => {
                let name = self.intern(name)?;
                let arg_tys = self.read_types(args)?;
                self.tables.terms.push(Term {
                    name,
                    arg_tys,
                    ret_ty,
                    kind,
                })?;
            }
            Item::Source { source } => {
                let node = self.node(source.node)?;
                self.tables.source.push(Source { node, ..source })?;
            }
            _ => {}
        }
        Ok(())
    }
}
