// The stages. Each owns its tables, so that nobody else changes them, and a stage that is over cannot be used again.
ghost use Rattle.std.specs.Prelude.{◌≡◌};
ghost use Rattle.tables.specs.Lawful.{Lawful};
ghost use Rattle.tables.specs.Tables.{env};

use std::marker::PhantomData;
use tables::Tables;

/// Lawful tables at a stage of elaboration. The type tells the stage by what the tables take next.
#[derive(Drop)]
pub struct Stage<S> {
    pub(crate) tables: Tables,
    pub(crate) takes: PhantomData<S>,
    ghost lawful: { ∥ Lawful (env tables) ∥₁ },
}

/// Names the stage of `Opening`.
#[derive(Drop)]
pub struct TakesConverters;

/// Names the stage of `Ruling`.
#[derive(Drop)]
pub struct TakesRules;

/// Lawful tables that take converters, with nothing else elaborated yet.
pub type Opening = Stage<TakesConverters>;

/// Lawful tables that have all their converters, and take rules.
pub type Ruling = Stage<TakesRules>;

impl<S> Stage<S> {
    /// The tables, to be read.
    pub fn tables(&self) -> &Tables
        ensures { result.now ≡ self.now.tables }
    {
        &self.tables
    }

    /// The tables, to be opened again or used otherwise; the stage ends.
    pub fn into_tables(self) -> Tables
        ensures { result ≡ self.tables }
    {
        let Stage { tables, .. } = self;
        tables
    }
}
