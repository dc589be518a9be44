// The lines of a file in their turn.
use crate::calls::{Stage, is_call};
use crate::setup::new_tables;
use crate::stop::Stop;
use items::Item;
use reader::{BadLine, Line, Reader};
use std::alloc::{AllocError, Global};

/// Where the reading of a file has come to, and what its calls have printed.
#[derive(Drop)]
struct Session<'a> {
    heap: Global,
    reader: Reader,
    // The reader knows of that host too, but what it knows is private to `items`.
    /// Whether a host stands there whose rows are to be looked at.
    host_waits: bool,
    output: &'a mut String,
}

impl Session<'_> {
    /// A host's rows are looked at when the next call comes; there are no hosts yet.
    fn answer_host(&mut self, item: Item) -> Result<(), AllocError> {
        if let Item::Host { .. } = item {
            self.host_waits = true;
        } else if self.host_waits && is_call(item) {
            self.host_waits = false;
            writeln!(self.output, "host not yet")?;
        }
        Ok(())
    }

    /// What the next line says, and whether a host's answer comes before it.
    fn read<'f>(&mut self, bytes: &'f [u8]) -> Result<Option<Line<'f>>, Stop> {
        let line = self.reader.read(self.heap, bytes)?;
        if let Some(line) = &line {
            self.answer_host(line.item)?;
        }
        Ok(line)
    }

    /// Performs one line; what it printed stays, also where it is bad.
    fn perform(&mut self, stage: Stage, bytes: &[u8]) -> (Stage, Result<(), Stop>) {
        match self.read(bytes) {
            Ok(Some(line)) => stage.step(self.heap, &line, self.output),
            Ok(None) => (stage, Ok(())),
            Err(why) => (stage, Err(why)),
        }
    }

    /// Performs the lines up to the first that is bad.
    fn perform_lines(&mut self, mut stage: Stage, lines: &[&[u8]]) -> (Stage, Result<(), Stop>) {
        for bytes in lines {
            let (next, performed) = self.perform(stage, bytes);
            if performed.is_err() {
                return (next, performed);
            }
            stage = next;
        }
        (stage, Ok(()))
    }

    fn perform_all(&mut self, lines: &[&[u8]]) -> Result<(), Stop> {
        let stage = Stage::Unopened(new_tables(self.heap, lines)?);
        let (stage, performed) = self.perform_lines(stage, lines);
        // Its tables end here, and not the stage, which may be one of three.
        let _tables = stage.into_tables();
        performed
    }
}

/// Performs the lines of a file, up to the first that is bad. Number 0 says that there was no memory for the tables.
pub(crate) fn perform(
    heap: Global,
    lines: &[&[u8]],
    output: &mut String,
) -> Result<(), BadLine<Stop>> {
    let mut session = Session {
        heap,
        reader: Reader::START,
        host_waits: false,
        output,
    };
    session.perform_all(lines).map_err(|why| BadLine {
        line: session.reader.line,
        why,
    })
}
