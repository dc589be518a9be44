// The tables in lines, one for each record.
use crate::faults::write_values;
use records::fault::Fault;
use records::ids::TypeId;
use records::result::{Converter, Output, Rule, TypedExpr, TypedNode, TypedPattern};
use records::source::{Name, Part, Pos};
use std::alloc::AllocError;
use tables::Tables;

// `joinery` has the same: shared, it would be public, with a contract.
/// The bytes of a name as text.
pub(crate) fn name_text(tables: &Tables, name: Name) -> &str {
    std::str::from_utf8(name.bytes(tables.text.as_slice())).unwrap_or("?")
}

/// A line for each record: a word, its number, and what `values` writes, each value behind a space.
fn each<T, F: Fn(&mut String, &T) -> Result<(), AllocError> + Drop>(
    output: &mut String,
    word: &str,
    records: &[T],
    values: F,
) -> Result<(), AllocError>
    requires { F.IsAlwaysCallable values }
{
    for (i, record) in records.iter().enumerate() {
        write!(output, "{word} {i}")?;
        values(output, record)?;
        writeln!(output)?;
    }
    Ok(())
}

fn write_part(output: &mut String, part: Part) -> Result<(), AllocError> {
    let Part { start, end } = part;
    write!(output, " {start} {end}")
}

fn write_pos(output: &mut String, pos: Pos) -> Result<(), AllocError> {
    let Pos { file, offset } = pos;
    write!(output, " {file} {offset}")
}

fn write_converter(output: &mut String, converter: &Converter) -> Result<(), AllocError> {
    let inner = converter.inner_ty.0;
    let outer = converter.outer_ty.0;
    write!(output, " {inner} {outer} {}", converter.term.0)
}

fn write_fault(output: &mut String, tables: &Tables, fault: &Fault) -> Result<(), AllocError> {
    write!(output, " {}", fault.cause.number())?;
    write_pos(output, fault.pos)?;
    write_values(output, tables, fault.cause)
}

fn write_rule(output: &mut String, rule: &Rule) -> Result<(), AllocError> {
    write!(output, " {} {}", rule.root_term.0, rule.prio)?;
    match rule.name {
        Some(sym) => write!(output, " {}", sym.0)?,
        None => write!(output, " -")?,
    }
    write_pos(output, rule.pos)?;
    write_part(output, rule.output)?;
    write_part(output, rule.vars)
}

fn write_pattern(
    output: &mut String,
    size: u16,
    ty: TypeId,
    pattern: TypedPattern,
) -> Result<(), AllocError> {
    let ty = ty.0;
    match pattern {
        TypedPattern::BindPattern { var } => write!(output, " p-bind {size} {ty} {}", var.0),
        TypedPattern::Var { var } => write!(output, " p-var {size} {ty} {}", var.0),
        TypedPattern::ConstBool { val } => {
            write!(output, " p-bool {size} {ty} {}", u8::from(val))
        }
        TypedPattern::ConstInt { val } => write!(output, " p-int {size} {ty} {val}"),
        TypedPattern::ConstPrim { val } => write!(output, " p-const {size} {ty} {}", val.0),
        TypedPattern::Term { term } => write!(output, " p-term {size} {ty} {}", term.0),
        TypedPattern::Wildcard => write!(output, " p-wild {size} {ty}"),
        TypedPattern::And => write!(output, " p-and {size} {ty}"),
    }
}

fn write_expr(
    output: &mut String,
    size: u16,
    ty: TypeId,
    expr: TypedExpr,
) -> Result<(), AllocError> {
    let ty = ty.0;
    match expr {
        TypedExpr::Term { term } => write!(output, " e-term {size} {ty} {}", term.0),
        TypedExpr::Var { var } => write!(output, " e-var {size} {ty} {}", var.0),
        TypedExpr::ConstBool { val } => write!(output, " e-bool {size} {ty} {}", u8::from(val)),
        TypedExpr::ConstInt { val } => write!(output, " e-int {size} {ty} {val}"),
        TypedExpr::ConstPrim { val } => write!(output, " e-const {size} {ty} {}", val.0),
        TypedExpr::Let => write!(output, " e-let {size} {ty}"),
    }
}

/// A tag, the size of its tree, its type, and what it holds.
fn write_node(output: &mut String, record: &Output) -> Result<(), AllocError> {
    let size = record.size;
    match record.node {
        TypedNode::Pattern { ty, pattern } => write_pattern(output, size, ty, pattern),
        TypedNode::Expr { ty, expr } => write_expr(output, size, ty, expr),
        TypedNode::LetDef { ty, var } => write!(output, " def {size} {} {}", ty.0, var.0),
        TypedNode::IfLet => write!(output, " iflet {size}"),
    }
}

pub(crate) fn dump(output: &mut String, tables: &Tables) -> Result<(), AllocError> {
    let symbols = tables.symbols.as_slice();
    each(output, "symbol", symbols, |out, symbol| {
        write!(out, " {}", name_text(tables, symbol.name))
    })?;
    let converters = tables.converters.as_slice();
    each(output, "converter", converters, write_converter)?;
    let definitions = tables.definitions.as_slice();
    each(output, "definition", definitions, |out, definition| {
        write_part(out, definition.part)
    })?;
    let faults = tables.faults.as_slice();
    each(output, "fault", faults, |out, fault| {
        write_fault(out, tables, fault)
    })?;
    each(output, "rule", tables.rules.as_slice(), write_rule)?;
    each(output, "var", tables.bindings.vars(), |out, var| {
        write!(out, " {} {}", var.name.0, var.ty.0)
    })?;
    each(output, "out", tables.output.records(), write_node)
}
