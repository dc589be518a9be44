// Converters of the joinery, good and bad, and what the calls answer.
use crate::build::{Builder, Stop};
use crate::results;
use elaborate::Opening;
use records::source::{Node, Part};

/// How many source records write a converter definition.
const RECORDS: u32 = 4;

/// A converter definition at the end of the source list. In its file the names stand 11 bytes apart, behind the word `converter`.
fn define(
    builder: &mut Builder,
    offset: u32,
    inner: &[u8],
    outer: &[u8],
    term: &[u8],
) -> Result<Part, Stop> {
    let start = u32::try_from(builder.tables.source.len())?;
    let inner = builder.name(inner)?;
    let outer = builder.name(outer)?;
    let term = builder.name(term)?;
    builder.source(Node::Ident { name: term }, 1, offset.saturating_add(33))?;
    builder.source(Node::Ident { name: inner }, 1, offset.saturating_add(11))?;
    builder.source(Node::Ident { name: outer }, 1, offset.saturating_add(22))?;
    builder.source(Node::Converter, 4, offset)?;
    Ok(Part {
        start,
        end: start.saturating_add(RECORDS),
    })
}

/// The parts that the converter calls name.
#[derive(Clone, Copy)]
pub(crate) struct Definitions {
    edge: Part,
    again: Part,
    unknown_inner: Part,
    unknown_outer: Part,
    unknown_term: Part,
}

impl Definitions {
    pub(crate) fn new(builder: &mut Builder) -> Result<Definitions, Stop> {
        Ok(Definitions {
            edge: define(builder, 100, b"Len", b"Board", b"edge")?,
            again: define(builder, 200, b"Len", b"Board", b"twin")?,
            unknown_inner: define(builder, 300, b"Plank", b"Board", b"edge")?,
            unknown_outer: define(builder, 400, b"Len", b"Plank", b"edge")?,
            unknown_term: define(builder, 500, b"Board", b"Len", b"saw")?,
        })
    }
}

fn register(rt: &impl Print, opening: &mut Opening, what: &str, part: Part) -> anyhow::Result<()> {
    print!(rt; "{what}: ")?;
    match opening.converter(part) {
        Ok(()) => println!(rt; "accepted")?,
        Err(refusal) => println!(rt; "refused {refusal}")?,
    }
    Ok(())
}

/// Parts of the source list that are no converter definitions, by a part that is one.
fn no_definitions(part: Part) -> [(&'static str, Part); 4] {
    let Part { start, end } = part;
    let torn = start.saturating_add(1);
    [
        ("an empty part", Part { start, end: start }),
        ("a template", Part { start: 0, end: 2 }),
        (
            "a definition without its first name",
            Part { start: torn, end },
        ),
        ("a part past the source list", Part { start, end: 1_000 }),
    ]
}

/// All converter calls, closing, and what is in the tables then.
pub(crate) fn run(
    rt: &(impl Print + AllocGlobal),
    mut opening: Opening,
    definitions: Definitions,
) -> anyhow::Result<()> {
    let calls = [
        ("Len to Board by edge", definitions.edge),
        ("Len to Board by twin", definitions.again),
        ("Plank to Board by edge", definitions.unknown_inner),
        ("Len to Plank by edge", definitions.unknown_outer),
        ("Board to Len by saw", definitions.unknown_term),
    ];
    let others = no_definitions(definitions.unknown_term);
    for (what, part) in calls.into_iter().chain(others) {
        register(rt, &mut opening, what, part)?;
    }
    let ruling = opening.close();
    println!(rt; "closed")?;
    results::describe(rt, ruling.tables())?;
    Ok(())
}
