// Whether tables are lawful, and which record is the first bad one.
ghost use Rattle.std.specs.Prelude.{ℕ, ◌<◌, ◌≤◌, ◌↔◌, IsTrue, MatchOption, MatchResult};
ghost use Rattle.tables.specs.Lawful.{Keeps, Lawful, NamesFirstBad};
ghost use Rattle.tables.specs.Tables.{env};

use crate::Tables;
use crate::names::BUILTINS;
use records::refusal::{Refusal, TableId};

impl Tables {
    /// Whether record `i` of a table keeps the rules. The built-in types and symbols have to be there.
    fn keeps(&self, table: TableId, i: usize) -> bool
        ensures { IsTrue result ↔ Keeps (env self.now) table i }
    {
        // A match: each table has a rule of its own, and a closure for each would say no more.
        match table {
            TableId::Types => self
                .types
                .get(i)
                .map_or(i >= BUILTINS, |ty| self.is_good_type(i, *ty)),
            TableId::Constants => self
                .constants
                .get(i)
                .is_none_or(|constant| self.is_good_constant(i, *constant)),
            TableId::Terms => self
                .terms
                .get(i)
                .is_none_or(|term| self.is_good_term(i, term)),
            TableId::Source => self
                .source
                .get(i)
                .is_none_or(|source| self.is_good_source(*source)),
            TableId::Symbols => self
                .symbols
                .get(i)
                .map_or(i >= BUILTINS, |symbol| self.is_good_symbol(i, *symbol)),
            _ => true,
        }
    }

    /// Up to which record a table has to be looked at.
    fn looked_at(&self, table: TableId) -> usize
        ensures { (j : ℕ) → result ≤ j → Keeps (env self.now) table j }
    {
        // A match, as in `keeps`.
        match table {
            TableId::Types => self.types.len().max(BUILTINS),
            TableId::Constants => self.constants.len(),
            TableId::Terms => self.terms.len(),
            TableId::Source => self.source.len(),
            TableId::Symbols => self.symbols.len().max(BUILTINS),
            _ => 0,
        }
    }

    /// The first record of a table that breaks a rule.
    fn first_bad(&self, table: TableId) -> Option<usize>
        ensures { MatchOption result ((j : ℕ) → Keeps (env self.now) table j) (λ i. ((j : ℕ) → j < i → Keeps (env self.now) table j) × (Keeps (env self.now) table i → ⊥)) }
    {
        (0..self.looked_at(table)).find(|i| !self.keeps(table, *i))
    }

    /// Whether the tables are lawful; if not, which table breaks a rule first, and at which record.
    pub fn check(&self) -> Result<(), Refusal>
        ensures { MatchResult result (λ _. Lawful (env self.now)) (λ e. NamesFirstBad (env self.now) e) }
    {
        for table in TableId::ALL {
            if let Some(record) = self.first_bad(table) {
                return Err(Refusal::UnlawfulTable { table, record });
            }
        }
        Ok(())
    }
}
