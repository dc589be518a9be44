// Ways to damage the joinery environment, each of which breaks one rule of the tables.
use crate::build::{Builder, Stop};
use crate::environment::{BOARD, BY_RULES, LEN, edge_template, joinery, templated};
use elaborate::open;
use records::env::TypeKind;
use records::ids::{Sym, TypeId};
use records::source::{Expr, Name, Node, Part, Pattern};

/// Damages a joinery, and prints what opening says to it. What the damage makes is of no use.
fn try_damage<T: Drop, F: FnOnce(&mut Builder) -> Result<T, Stop> + Drop>(
    rt: &(impl Print + AllocGlobal),
    what: &str,
    damage: F,
) -> anyhow::Result<()>
    requires { F.IsAlwaysCallable damage }
{
    print!(rt; "{what}: ")?;
    let mut builder = joinery(rt.alloc())?;
    damage(&mut builder)?;
    match open(builder.tables) {
        Ok(_opening) => println!(rt; "opened")?,
        Err((_tables, refusal)) => println!(rt; "refused {refusal}")?,
    }
    Ok(())
}

fn try_types(rt: &(impl Print + AllocGlobal)) -> anyhow::Result<()> {
    try_damage(rt, "only 12 types", |builder| {
        builder.tables.types.truncate(12);
        Ok(())
    })?;
    try_damage(rt, "a type whose symbol is not there", |builder| {
        builder.type_at(Sym(18), TypeKind::Primitive)
    })?;
    try_damage(rt, "a second type named Len", |builder| {
        builder.type_at(Sym(13), TypeKind::Primitive)
    })?;
    try_damage(rt, "a constant of type 15 of 15", |builder| {
        builder.constant(b"oak", TypeId(15))
    })
}

fn try_terms(rt: &(impl Print + AllocGlobal)) -> anyhow::Result<()> {
    try_damage(rt, "a second term named edge", |builder| {
        builder.term_at(Sym(16), &[LEN], BOARD, BY_RULES)
    })?;
    try_damage(rt, "a term of 17 arguments", |builder| {
        builder.term(b"stack", &[LEN; 17], BOARD, BY_RULES)
    })
}

/// One more term, of the template.
fn add_half(builder: &mut Builder, template: Part) -> Result<Sym, Stop> {
    builder.term(b"half", &[LEN], BOARD, templated(template))
}

fn add_argument(builder: &mut Builder, size: u16) -> Result<(), Stop> {
    builder.source(Node::Pattern(Pattern::MacroArg { index: 0 }), size, 0)
}

fn try_templates(rt: &(impl Print + AllocGlobal)) -> anyhow::Result<()> {
    try_damage(rt, "a template with argument 1 of 1", |builder| {
        let template = edge_template(builder, 1)?;
        add_half(builder, template)
    })?;
    try_damage(rt, "a template past the source list", |builder| {
        add_half(builder, Part { start: 0, end: 3 })
    })?;
    try_damage(rt, "a template of two trees", |builder| {
        add_argument(builder, 1)?;
        add_argument(builder, 1)?;
        add_half(builder, Part { start: 2, end: 4 })
    })?;
    try_damage(rt, "a template whose root states another size", |builder| {
        add_argument(builder, 2)?;
        add_half(builder, Part { start: 2, end: 3 })
    })?;
    try_damage(rt, "an expression as a template", |builder| {
        builder.source(Node::Expr(Expr::Let), 1, 0)?;
        add_half(builder, Part { start: 2, end: 3 })
    })
}

/// A source record whose name begins at the text's last byte and has two.
fn add_misplaced_name(builder: &mut Builder) -> Result<(), Stop> {
    let name = builder.name(b"c")?;
    let var = Name { len: 2, ..name };
    builder.source(Node::Pattern(Pattern::Var { var }), 1, 0)
}

/// Puts another name in the place of symbol `i`.
fn rename_symbol(builder: &mut Builder, i: usize, bytes: &[u8]) -> Result<(), Stop> {
    let name = builder.name(bytes)?;
    let symbols = builder.tables.symbols.as_slice();
    let behind = symbols
        .iter()
        .skip(i)
        .skip(1)
        .map(|symbol| symbol.name)
        .collect::<Vec<Name>>(builder.heap)?;
    builder.tables.symbols.truncate(i);
    builder.symbol_at(name)?;
    for name in behind.iter() {
        builder.symbol_at(*name)?;
    }
    Ok(())
}

fn try_names(rt: &(impl Print + AllocGlobal)) -> anyhow::Result<()> {
    try_damage(
        rt,
        "a source record whose name passes the text's end",
        add_misplaced_name,
    )?;
    try_damage(rt, "symbol 3 named u23", |builder| {
        rename_symbol(builder, 3, b"u23")
    })?;
    try_damage(rt, "a symbol of 0 bytes", |builder| builder.symbol(b""))?;
    try_damage(rt, "a symbol of 256 bytes", |builder| {
        builder.symbol(&[b'x'; 256])
    })?;
    try_damage(rt, "a second symbol Len", |builder| builder.symbol(b"Len"))
}

/// Each damage in its turn.
pub(crate) fn try_all(rt: &(impl Print + AllocGlobal)) -> anyhow::Result<()> {
    try_types(rt)?;
    try_terms(rt)?;
    try_templates(rt)?;
    try_names(rt)
}
