// Whether one record of a table keeps the rules.
ghost use Rattle.std.specs.Prelude.{◌≡◌, ◌<◌, ◌↔◌, [], length, Some, IsTrue, slice_index_or};
ghost use Rattle.std.specs.List.{AllByRecursion, slice_get};
ghost use Rattle.tables.specs.Lawful.{IsType, TypeGood, ConstantGood, TemplateGood, TermGood, SourceGood, SymbolGood, builtin_type, template_of};
ghost use Rattle.tables.specs.Names.{builtin_names};
ghost use Rattle.tables.specs.Tables.{env};

use crate::Tables;
use crate::names::{BUILTINS, builtin_name, builtin_type, is_inside};
use crate::template::Template;
use records::env::{Constant, ExtractorKind, Symbol, Term, TermKind, Type};
use records::ids::TypeId;
use records::source::{Expr, Node, Part, Pattern, Source};
use table::Table;
use tree::lawful::is_tree;

/// How many arguments a term has at most.
const MAX_ARGUMENTS: usize = 16;

/// Whether the type is the built-in one of that number, where there is one.
fn is_builtin(ty: Type, number: usize) -> bool
    ensures { IsTrue result ↔ (number < 13 → ty ≡ builtin_type number) }
{
    number >= BUILTINS || ty == builtin_type(number)
}

/// Whether the bytes are the built-in name of that number, where there is one.
fn is_builtin_name(bytes: &[u8], number: usize) -> bool
    ensures { IsTrue result ↔ (number < 13 → bytes.now ≡ slice_index_or builtin_names number []) }
{
    number >= BUILTINS || builtin_name(number) == bytes
}

/// Whether the table has a record of that number.
fn has_record<T, const MAX: usize>(table: &Table<T, MAX>, number: u16) -> bool
    ensures { IsTrue result ↔ (number < length table.now.items) }
{
    (number as usize) < table.len()
}

impl Tables {
    pub(crate) fn is_good_type(&self, i: usize, ty: Type) -> bool
        requires { slice_get (env self.now).types i ≡ Some ty }
        ensures { IsTrue result ↔ TypeGood (env self.now) i ty }
    {
        if !is_builtin(ty, i) || !has_record(&self.symbols, ty.name.0) {
            return false;
        }
        let before = &self.types.as_slice()[..i];
        !before.iter().any(|other| other.name == ty.name)
    }

    pub(crate) fn is_good_constant(&self, i: usize, constant: Constant) -> bool
        requires { slice_get (env self.now).constants i ≡ Some constant }
        ensures { IsTrue result ↔ ConstantGood (env self.now) i constant }
    {
        if !has_record(&self.symbols, constant.name.0) || !has_record(&self.types, constant.ty.0) {
            return false;
        }
        let before = &self.constants.as_slice()[..i];
        !before.iter().any(|other| other.name == constant.name)
    }

    /// Whether the part of the source list is a template of a term with that many arguments.
    fn is_template(&self, arity: usize, part: Part) -> bool
        ensures { IsTrue result ↔ TemplateGood (env self.now) arity (Some part) }
    {
        let source = self.source.as_slice();
        part.end as usize <= source.len() && is_tree(&Template { arity }, part.of(source))
    }

    fn are_types(&self, types: &[TypeId]) -> bool
        ensures { IsTrue result ↔ AllByRecursion (IsType (env self.now)) types.now }
    {
        types.iter().all(|ty| has_record(&self.types, ty.0))
    }

    /// Whether the term's template, if it has one, is lawful.
    fn has_good_template(&self, term: &Term) -> bool
        ensures { IsTrue result ↔ (TemplateGood (env self.now) (length term.now.arg_tys.items) (template_of term.now.kind)) }
    {
        match term.kind {
            TermKind::Decl {
                extractor_kind: Some(ExtractorKind::Internal { template }),
                ..
            } => self.is_template(term.arg_tys.len(), template),
            _ => true,
        }
    }

    pub(crate) fn is_good_term(&self, i: usize, term: &Term) -> bool
        requires { slice_get (env self.now).terms i ≡ Some term.now }
        ensures { IsTrue result ↔ TermGood (env self.now) i term.now }
    {
        if !has_record(&self.symbols, term.name.0) || !has_record(&self.types, term.ret_ty.0) {
            return false;
        }
        if term.arg_tys.len() > MAX_ARGUMENTS || !self.are_types(&term.arg_tys) {
            return false;
        }
        let before = &self.terms.as_slice()[..i];
        if before.iter().any(|other| other.name == term.name) {
            return false;
        }
        self.has_good_template(term)
    }

    pub(crate) fn is_good_symbol(&self, i: usize, symbol: Symbol) -> bool
        requires { slice_get (env self.now).symbols i ≡ Some symbol }
        ensures { IsTrue result ↔ SymbolGood (env self.now) i symbol }
    {
        let text = self.text.as_slice();
        let bytes = symbol.name.bytes(text);
        if !is_inside(text, symbol.name) || !is_builtin_name(bytes, i) {
            return false;
        }
        let before = &self.symbols.as_slice()[..i];
        !before.iter().any(|other| other.name.bytes(text) == bytes)
    }

    pub(crate) fn is_good_source(&self, source: Source) -> bool
        ensures { IsTrue result ↔ (SourceGood (env self.now) source) }
    {
        let text = self.text.as_slice();
        match source.node {
            Node::Pattern(
                Pattern::Var { var: name }
                | Pattern::BindPattern { var: name }
                | Pattern::ConstPrim { val: name }
                | Pattern::Term { sym: name },
            )
            | Node::Expr(
                Expr::Term { sym: name } | Expr::Var { name } | Expr::ConstPrim { val: name },
            )
            | Node::Rule {
                name: Some(name),
                ..
            }
            | Node::Ident { name } => is_inside(text, name),
            Node::LetDef { var, ty } => is_inside(text, var) && is_inside(text, ty),
            Node::Pattern(_)
            | Node::Expr(_)
            | Node::Rule { name: None, .. }
            | Node::IfLet
            | Node::Converter => true,
        }
    }
}
