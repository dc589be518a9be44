// Tables in the making: each record gets the next number, and its name is written into the text.
use records::env::{Constant, Symbol, Term, TermKind, Type, TypeKind};
use records::ids::{Sym, TypeId};
use records::refusal::Refusal;
use records::source::{Name, Node, Pos, Source};
use std::alloc::{AllocError, Global};
use std::num::TryFromIntError;
use table::Full;
use tables::{Limits, Tables};
use thiserror::Error;

/// Why tables could not be made.
#[derive(Clone, Copy, Debug, Error)]
pub(crate) enum Stop {
    #[error("no memory for the tables")]
    NoMemory(#[from] AllocError),
    #[error("a table is too small for the environment")]
    Full,
}

impl From<Full> for Stop {
    fn from(_full: Full) -> Stop {
        Stop::Full
    }
}

impl From<Refusal> for Stop {
    fn from(_refusal: Refusal) -> Stop {
        Stop::Full
    }
}

/// The number of the next record is larger than any table.
impl From<TryFromIntError> for Stop {
    fn from(_error: TryFromIntError) -> Stop {
        Stop::Full
    }
}

#[derive(Drop)]
pub(crate) struct Builder {
    pub(crate) heap: Global,
    pub(crate) tables: Tables,
}

impl Builder {
    /// Tables with the built-in types.
    pub(crate) fn new(heap: Global, limits: &Limits) -> Result<Builder, Stop> {
        let mut tables = Tables::new(heap, limits, true)?;
        tables.add_builtins()?;
        Ok(Builder { heap, tables })
    }

    pub(crate) fn name(&mut self, bytes: &[u8]) -> Result<Name, Stop> {
        Ok(self.tables.add_name(bytes)?)
    }

    pub(crate) fn symbol(&mut self, bytes: &[u8]) -> Result<Sym, Stop> {
        let name = self.name(bytes)?;
        self.symbol_at(name)
    }

    pub(crate) fn symbol_at(&mut self, name: Name) -> Result<Sym, Stop> {
        let sym = Sym(u16::try_from(self.tables.symbols.len())?);
        self.tables.add_symbol(Symbol { name })?;
        Ok(sym)
    }

    pub(crate) fn ty(&mut self, bytes: &[u8], kind: TypeKind) -> Result<TypeId, Stop> {
        let name = self.symbol(bytes)?;
        self.type_at(name, kind)
    }

    pub(crate) fn type_at(&mut self, name: Sym, kind: TypeKind) -> Result<TypeId, Stop> {
        let ty = TypeId(u16::try_from(self.tables.types.len())?);
        self.tables.add_type(Type { name, kind })?;
        Ok(ty)
    }

    pub(crate) fn constant(&mut self, bytes: &[u8], ty: TypeId) -> Result<(), Stop> {
        let name = self.symbol(bytes)?;
        self.tables.constants.push(Constant { name, ty })?;
        Ok(())
    }

    pub(crate) fn term(
        &mut self,
        bytes: &[u8],
        args: &[TypeId],
        ret_ty: TypeId,
        kind: TermKind,
    ) -> Result<Sym, Stop> {
        let name = self.symbol(bytes)?;
        self.term_at(name, args, ret_ty, kind)?;
        Ok(name)
    }

    pub(crate) fn term_at(
        &mut self,
        name: Sym,
        args: &[TypeId],
        ret_ty: TypeId,
        kind: TermKind,
    ) -> Result<(), Stop> {
        let arg_tys = args.to_vec(self.heap)?;
        self.tables.terms.push(Term {
            name,
            arg_tys,
            ret_ty,
            kind,
        })?;
        Ok(())
    }

    /// A source record at an offset of the only file.
    pub(crate) fn source(&mut self, node: Node, size: u16, offset: u32) -> Result<(), Stop> {
        let pos = Pos { file: 0, offset };
        self.tables.source.push(Source { node, size, pos })?;
        Ok(())
    }
}
