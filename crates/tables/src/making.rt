ghost use Rattle.std.specs.Prelude.{◌≡◌, IfOk};
ghost use Rattle.tables.specs.Tables.{fresh, emptied};

use crate::{Limits, Tables};
use bindings::Bindings;
use std::alloc::{AllocError, Global};
use table::Table;
use typed::TypedTrees;

impl Tables {
    /// Empty tables of the given limits. All memory that an elaboration uses is claimed here.
    pub fn new(
        heap: Global,
        limits: &Limits,
        expand_internal_extractors: bool,
    ) -> Result<Tables, AllocError>
        ensures { IfOk result (λ t. t ≡ fresh limits.now expand_internal_extractors) }
    {
        let text = Table::with_limit(heap, limits.text)?;
        let types = Table::with_limit(heap, limits.types)?;
        let constants = Table::with_limit(heap, limits.constants)?;
        let rules = Table::with_limit(heap, limits.rules)?;
        let definitions = Table::with_limit(heap, limits.definitions)?;
        let faults = Table::with_limit(heap, limits.faults)?;
        let terms = Table::with_limit(heap, limits.terms)?;
        let source = Table::with_limit(heap, limits.source)?;
        let output = TypedTrees::with_limit(heap, limits.output)?;
        let symbols = Table::with_limit(heap, limits.symbols)?;
        let converters = Table::with_limit(heap, limits.converters)?;
        let bindings = Bindings::with_limits(heap, limits.variables, limits.scopes)?;
        Ok(Tables {
            text,
            types,
            constants,
            rules,
            definitions,
            faults,
            terms,
            source,
            output,
            symbols,
            converters,
            bindings,
            expand_internal_extractors,
        })
    }

    /// Takes back all that an elaboration wrote, and leaves the environment as it is.
    pub fn clear_results(&mut self)
        ensures { self.new ≡ emptied self.old }
    {
        self.rules.truncate(0);
        self.definitions.truncate(0);
        self.faults.truncate(0);
        self.output.clear();
        self.converters.truncate(0);
        self.bindings.clear();
    }
}
