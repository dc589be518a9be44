// The second and third call: converters, and their end.
ghost use Rattle.std.specs.Prelude.{◌≡◌, OnErr};
ghost use Rattle.records.specs.declared.refusal.Refusal.{Refusal};
ghost use Rattle.table.specs.Contents.{Outcome, outcome};
ghost use Rattle.tables.specs.declared.Tables.{Tables};
ghost use Rattle.elaborate.specs.Converters.{Converts};

use crate::converters::convert_part;
use crate::stages::{Opening, Ruling, Stage};
use records::refusal::Refusal;
use records::source::Part;
use std::marker::PhantomData;

impl Opening {
    /// Registers the converter definition that a part of the source list writes. A definition with a fault is accepted too; the fault is reported.
    pub fn converter(&mut self, part: Part) -> Result<(), Refusal>
        ensures meaning { Converts part self.old.tables (outcome self.new.tables result) }
        ensures only { (t : Outcome Tables (Unit {0}) Refusal) → Converts part self.old.tables t → t ≡ outcome self.new.tables result }
        ensures unchanged { OnErr result (self.new.tables ≡ self.old.tables) }
    {
        convert_part(&mut self.tables, part)
    }

    /// Ends the converters: from now on the tables take rules.
    pub fn close(self) -> Ruling
        ensures { result.tables ≡ self.tables }
    {
        let Stage { tables, .. } = self;
        Stage {
            tables,
            takes: PhantomData,
        }
    }
}
