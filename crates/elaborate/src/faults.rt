// The list of faults.
ghost use Rattle.std.specs.Prelude.{◌≡◌};
ghost use Rattle.table.specs.Contents.{outcome};
ghost use Rattle.elaborate.specs.Faults.{report};

use records::fault::{Cause, Fault};
use records::refusal::{Refusal, TableId};
use records::source::Pos;
use tables::Tables;

// As `add_type` of `Tables`: one function for all tables would be no plainer.
/// Reports a fault at its place.
pub(crate) fn report_error(tables: &mut Tables, pos: Pos, cause: Cause) -> Result<(), Refusal>
    ensures { outcome tables.new result ≡ report cause pos tables.old }
{
    tables
        .faults
        .push(Fault { cause, pos })
        .map_err(|_| Refusal::Full {
            table: TableId::Faults,
        })
}
