// Tables with the limits that the file asks for, and the built-in types.
use crate::calls::is_call;
use crate::stop::Stop;
use items::Item;
use reader::Reader;
use records::refusal::TableId;
use std::alloc::Global;
use tables::{Limits, Tables};

#[derive(Clone, Copy)]
struct Setup {
    limits: Limits,
    expand: bool,
}

// A match, since each limit is a field of its own.
/// A limit as a number of records: whatever is over every maximum counts as much as the largest.
fn set_limit(limits: &mut Limits, table: TableId, limit: u64) {
    let limit = limit as usize;
    match table {
        TableId::Text => limits.text = limit,
        TableId::Types => limits.types = limit,
        TableId::Constants => limits.constants = limit,
        TableId::Rules => limits.rules = limit,
        TableId::Definitions => limits.definitions = limit,
        TableId::Faults => limits.faults = limit,
        TableId::Terms => limits.terms = limit,
        TableId::Source => limits.source = limit,
        TableId::Output => limits.output = limit,
        TableId::Symbols => limits.symbols = limit,
        TableId::Converters => limits.converters = limit,
        TableId::Variables => limits.variables = limit,
        TableId::Scopes => limits.scopes = limit,
    }
}

impl Setup {
    /// Takes over what an environment line says of limits and expansion.
    fn take_over(&mut self, item: Item) {
        match item {
            Item::Limit { table, limit } => set_limit(&mut self.limits, table, limit),
            Item::Expand { on } => self.expand = on,
            _ => {}
        }
    }

    /// What the lines say up to the first call or the first malformed line, where reading ends anyway.
    fn read(heap: Global, lines: &[&[u8]]) -> Setup {
        let mut setup = Setup {
            limits: Limits::MAX,
            expand: true,
        };
        let mut reader = Reader::START;
        for bytes in lines {
            match reader.read(heap, bytes) {
                Ok(Some(line)) if is_call(line.item) => break,
                Ok(Some(line)) => setup.take_over(line.item),
                Ok(None) => {}
                Err(_) => break,
            }
        }
        setup
    }
}

/// Tables as the file wants them, with the built-in types as far as they fit.
pub(crate) fn new_tables(heap: Global, lines: &[&[u8]]) -> Result<Tables, Stop> {
    let setup = Setup::read(heap, lines);
    let mut tables = Tables::new(heap, &setup.limits, setup.expand)?;
    let _ = tables.add_builtins();
    Ok(tables)
}
