// The first call: lawful tables open the first stage.
ghost use Rattle.std.specs.Prelude.{◌≡◌, MatchResult};
ghost use Rattle.tables.specs.Lawful.{Lawful, NamesFirstBad};
ghost use Rattle.tables.specs.Tables.{env, emptied};

use crate::stages::{Opening, Stage};
use records::refusal::Refusal;
use std::marker::PhantomData;
use tables::Tables;

/// Begins an elaboration over tables of any content. Tables that are not lawful are handed back as they are, with the first bad record.
/// Otherwise the environment stays as it is, and whatever was elaborated before is taken back.
pub fn open(mut tables: Tables) -> Result<Opening, (Tables, Refusal)>
    ensures { MatchResult result (λ o. Lawful (env tables) × (o.tables ≡ emptied tables)) (λ e. (e.0 ≡ tables) × NamesFirstBad (env tables) e.1) }
{
    match tables.check() {
        Ok(()) => {
            tables.clear_results();
            Ok(Stage {
                tables,
                takes: PhantomData,
            })
        }
        Err(refusal) => Err((tables, refusal)),
    }
}
