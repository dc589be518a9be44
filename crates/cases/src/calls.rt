// The stages, and what each call does at each.
use crate::build::Adding;
use crate::dump::dump;
use crate::stop::Stop;
use definition::SourceTree;
use elaborate::{Opening, Ruling, open};
use items::Item;
use reader::Line;
use records::refusal::{Refusal, Report, Values};
use records::source::Part;
use std::alloc::{AllocError, Global};
use tables::Tables;

#[derive(Drop)]
pub(crate) enum Stage {
    /// Tables that are being filled, or that an opening refused.
    Unopened(Tables),
    /// Tables that take converters.
    Opening(Opening),
    /// Tables that take rules.
    Ruling(Ruling),
}

// In words of its own: those of `joinery` are for people, these are for programs.
/// A call's refusal: its number and its values.
fn print_refusal(output: &mut String, call: &str, refusal: Refusal) -> Result<(), AllocError> {
    let Report { number, values } = refusal.report();
    match values {
        Values::One(value) => writeln!(output, "{call} refused {number} {value}"),
        Values::Two(first, second) => writeln!(output, "{call} refused {number} {first} {second}"),
    }
}

fn print_answer(
    output: &mut String,
    call: &str,
    answer: Result<(), Refusal>,
) -> Result<(), AllocError> {
    match answer {
        Ok(()) => writeln!(output, "{call} ok"),
        Err(refusal) => print_refusal(output, call, refusal),
    }
}

impl Stage {
    /// The tables; whatever stage there was is over.
    pub(crate) fn into_tables(self) -> Tables {
        match self {
            Stage::Unopened(tables) => tables,
            Stage::Opening(opening) => opening.into_tables(),
            Stage::Ruling(ruling) => ruling.into_tables(),
        }
    }

    /// Opens the tables of whatever stage there was.
    fn open(self) -> (Stage, Result<(), Refusal>) {
        match open(self.into_tables()) {
            Ok(opening) => (Stage::Opening(opening), Ok(())),
            Err((tables, refusal)) => (Stage::Unopened(tables), Err(refusal)),
        }
    }

    fn converter(&mut self, part: Part, output: &mut String) -> Result<(), AllocError> {
        let Stage::Opening(opening) = self else {
            return writeln!(output, "converter order");
        };
        print_answer(output, "converter", opening.converter(part))
    }

    /// Ends the converters, where they are what comes next.
    fn close(self) -> (Stage, &'static str) {
        match self {
            Stage::Opening(opening) => (Stage::Ruling(opening.close()), "ok"),
            other => (other, "order"),
        }
    }

    /// Tests a rule definition; translating it is not there yet.
    fn rule(&self, part: Part, output: &mut String) -> Result<(), AllocError> {
        let Stage::Ruling(ruling) = self else {
            return writeln!(output, "rule order");
        };
        match SourceTree::read_rule(ruling.tables().source.as_slice(), part) {
            Ok(_) => writeln!(output, "rule not yet"),
            Err(refusal) => print_refusal(output, "rule", refusal),
        }
    }

    /// A call that follows closing, and is not there yet.
    fn later(&self, call: &str, output: &mut String) -> Result<(), AllocError> {
        match self {
            Stage::Ruling(_) => writeln!(output, "{call} not yet"),
            _ => writeln!(output, "{call} order"),
        }
    }

    fn dump(&self, output: &mut String) -> Result<(), AllocError> {
        match self {
            Stage::Unopened(_) => writeln!(output, "dump order"),
            Stage::Opening(opening) => dump(output, opening.tables()),
            Stage::Ruling(ruling) => dump(output, ruling.tables()),
        }
    }

    /// An environment line; the order of lines has it that no stage is open.
    fn fill(&mut self, heap: Global, line: &Line<'_>) -> Result<(), Stop> {
        match self {
            Stage::Unopened(tables) => Adding { heap, tables, line }.add(),
            _ => Ok(()),
        }
    }

    /// A line that leaves the stage as it is.
    fn stay(&mut self, heap: Global, line: &Line<'_>, output: &mut String) -> Result<(), Stop> {
        match line.item {
            Item::Converter { part } => self.converter(part, output)?,
            Item::Rule { part } => self.rule(part, output)?,
            Item::Finish => self.later("finish", output)?,
            Item::Run { .. } => self.later("run", output)?,
            Item::Dump => self.dump(output)?,
            _ => self.fill(heap, line)?,
        }
        Ok(())
    }

    // The stage comes back with an error too: where it may end by a `?`, the proof goes through the end of all its tables, and takes minutes.
    /// One line: the environment is filled, a call is performed.
    pub(crate) fn step(
        mut self,
        heap: Global,
        line: &Line<'_>,
        output: &mut String,
    ) -> (Stage, Result<(), Stop>) {
        // A match, since what a call does to the stage differs by call.
        match line.item {
            Item::Open => {
                let (stage, answer) = self.open();
                let printed = print_answer(output, "open", answer);
                (stage, printed.map_err(Stop::from))
            }
            Item::Close => {
                let (stage, answer) = self.close();
                let printed = writeln!(output, "close {answer}");
                (stage, printed.map_err(Stop::from))
            }
            _ => {
                let performed = self.stay(heap, line, output);
                (self, performed)
            }
        }
    }
}

// A match of its own: what class a line has is private to `items`, and making it public for this one test would be no plainer.
/// Whether the line is a call.
pub(crate) fn is_call(item: Item) -> bool {
    matches!(
        item,
        Item::Open
            | Item::Converter { .. }
            | Item::Close
            | Item::Rule { .. }
            | Item::Finish
            | Item::Run { .. }
            | Item::Dump
    )
}
