// Calls that are turned away, and the tables by number.
ghost use Rattle.std.specs.Prelude.{◌≡◌};
ghost use Rattle.records.specs.Numbers.{report_of, table_number};

use crate::ids::{RuleId, TermId};
use std::fmt;

/// The tables of an elaboration, each with the number by which refusals name it.
#[derive(Clone, Copy)]
pub enum TableId {
    Text = 0,
    Types = 1,
    Constants = 2,
    Rules = 3,
    Definitions = 4,
    Faults = 5,
    Terms = 6,
    Source = 7,
    Output = 8,
    Symbols = 9,
    Converters = 10,
    Variables = 11,
    Scopes = 12,
}

impl TableId {
    /// All tables, each at its number.
    pub const ALL: [TableId; 13] = [
        TableId::Text,
        TableId::Types,
        TableId::Constants,
        TableId::Rules,
        TableId::Definitions,
        TableId::Faults,
        TableId::Terms,
        TableId::Source,
        TableId::Output,
        TableId::Symbols,
        TableId::Converters,
        TableId::Variables,
        TableId::Scopes,
    ];

    /// The number by which refusals name the table.
    pub fn number(self) -> usize
        ensures { result ≡ table_number self }
    {
        self as usize
    }
}

/// Why a call was turned away.
#[derive(Clone, Copy)]
pub enum Refusal {
    /// A table breaks its rules, first at that record.
    UnlawfulTable { table: TableId, record: usize },
    /// The definition is no lawful tree of the wanted kind, first at that record.
    UnlawfulDefinition { record: usize },
    /// The translation of that source record would be the 129th open at one time.
    TooDeep { record: usize },
    /// The table, or a rule's share of it, has no place for the next record.
    Full { table: TableId },
    /// The name of that term, a converter that was to be inserted, is not found.
    NoConverter { term: TermId },
    /// A run: there is no such kept rule.
    NoRule { rule: RuleId },
    /// A run: extractors were not expanded (no term), or the rule has that term, which is multi.
    NotSingle { term: Option<TermId> },
    /// A run: the host has another signature for that term.
    OtherSignature { term: TermId },
    /// A run: the argument there is missing, surplus or of another type.
    WrongArgument { position: usize },
    /// A run: a list lent to it is too short.
    ShortList { len: usize },
    /// A host's row breaks the rules.
    UnlawfulRow { row: usize },
}

/// What a refusal returns: its number, and the values that go with it. Hosts and case files know refusals by these numbers.
#[derive(Clone, Copy)]
pub struct Report {
    pub number: u8,
    pub values: Values,
}

#[derive(Clone, Copy)]
pub enum Values {
    One(usize),
    Two(usize, usize),
}

impl Refusal {
    pub fn report(self) -> Report
        ensures { result ≡ report_of self }
    {
        let (number, values) = match self {
            Refusal::UnlawfulTable { table, record } => (1, Values::Two(table.number(), record)),
            Refusal::UnlawfulDefinition { record } => (2, Values::One(record)),
            Refusal::TooDeep { record } => (3, Values::One(record)),
            Refusal::Full { table } => (4, Values::One(table.number())),
            Refusal::NoConverter { term } => (5, Values::One(term.0 as usize)),
            Refusal::NoRule { rule } => (6, Values::One(rule.0 as usize)),
            Refusal::NotSingle { term: None } => (7, Values::One(65_535)),
            Refusal::NotSingle { term: Some(term) } => (7, Values::One(term.0 as usize)),
            Refusal::OtherSignature { term } => (8, Values::One(term.0 as usize)),
            Refusal::WrongArgument { position } => (9, Values::One(position)),
            Refusal::ShortList { len } => (10, Values::One(len)),
            Refusal::UnlawfulRow { row } => (11, Values::One(row)),
        };
        Report { number, values }
    }
}

// By hand, since the numbers are those of `report`.
/// The number and the values, in words for people.
impl fmt::Display for Refusal {
    ghost use Rattle.std.specs.Prelude.{Some};
    ghost use Rattle.records.specs.Numbers.{refusal_text};

    ghost output = { λ refusal. Some (refusal_text refusal) };

    fn fmt<W: fmt::Write>(&self, f: &mut fmt::Formatter<W>) -> fmt::Result {
        let Report { number, values } = self.report();
        match values {
            Values::One(value) => write!(f, "{number}, {value}"),
            Values::Two(table, record) => write!(f, "{number}, table {table}, record {record}"),
        }
    }
}
