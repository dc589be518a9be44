// A new elaboration: thirteen tables of any content, and the test that they are lawful.
#![tactic(auto)]

mod adding;
mod checks;
mod keeps;
mod making;
mod names;
mod template;

use bindings::Bindings;
pub use bindings::{MAX_SCOPES, MAX_VARIABLES};
pub use names::{BUILTINS, builtin_name};
use records::env::{Constant, Symbol, Term, Type};
use records::fault::Fault;
use records::result::{Converter, Definition, Rule};
use records::source::Source;
use table::Table;
pub use typed::MAX_OUTPUT;
use typed::TypedTrees;

pub const MAX_TEXT: usize = 1_048_576;

pub const MAX_TYPES: usize = 4_096;

pub const MAX_CONSTANTS: usize = 4_096;

pub const MAX_RULES: usize = 4_096;

pub const MAX_DEFINITIONS: usize = 4_096;

pub const MAX_FAULTS: usize = 4_096;

pub const MAX_TERMS: usize = 8_192;

pub const MAX_SOURCE: usize = 65_535;

pub const MAX_SYMBOLS: usize = 16_384;

pub const MAX_CONVERTERS: usize = 1_024;

/// How many records each table is to have room for. A limit over the table's maximum counts as the maximum.
#[derive(Clone, Copy)]
pub struct Limits {
    pub text: usize,
    pub types: usize,
    pub constants: usize,
    pub rules: usize,
    pub definitions: usize,
    pub faults: usize,
    pub terms: usize,
    pub source: usize,
    pub output: usize,
    pub symbols: usize,
    pub converters: usize,
    pub variables: usize,
    pub scopes: usize,
}

impl Limits {
    /// Room for as much as any elaboration may hold.
    pub const MAX: Limits = Limits {
        text: MAX_TEXT,
        types: MAX_TYPES,
        constants: MAX_CONSTANTS,
        rules: MAX_RULES,
        definitions: MAX_DEFINITIONS,
        faults: MAX_FAULTS,
        terms: MAX_TERMS,
        source: MAX_SOURCE,
        output: MAX_OUTPUT,
        symbols: MAX_SYMBOLS,
        converters: MAX_CONVERTERS,
        variables: MAX_VARIABLES,
        scopes: MAX_SCOPES,
    };
}

/// All tables of an elaboration, and whether internal extractors are expanded.
#[derive(Drop)]
pub struct Tables {
    /// The bytes of all names.
    pub text: Table<u8, MAX_TEXT>,
    pub types: Table<Type, MAX_TYPES>,
    pub constants: Table<Constant, MAX_CONSTANTS>,
    /// The rules that were kept.
    pub rules: Table<Rule, MAX_RULES>,
    /// The rule definitions that were accepted.
    pub definitions: Table<Definition, MAX_DEFINITIONS>,
    pub faults: Table<Fault, MAX_FAULTS>,
    pub terms: Table<Term, MAX_TERMS>,
    /// Definitions and templates, as trees.
    pub source: Table<Source, MAX_SOURCE>,
    /// The typed trees of the kept rules.
    pub output: TypedTrees,
    pub symbols: Table<Symbol, MAX_SYMBOLS>,
    pub converters: Table<Converter, MAX_CONVERTERS>,
    /// The variables of the kept rules, and the scopes that are open.
    pub bindings: Bindings,
    pub expand_internal_extractors: bool,
}
