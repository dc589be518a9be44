// The values of faults, in the order of their messages.
use crate::dump::name_text;
use records::fault::Cause;
use std::alloc::AllocError;
use tables::Tables;

// Three functions, by the number of values: one for all causes would be too long to be read.
/// The values of a cause, each behind a space.
pub(crate) fn write_values(
    output: &mut String,
    tables: &Tables,
    cause: Cause,
) -> Result<(), AllocError> {
    match cause {
        Cause::RootNotTerm
        | Cause::UnknownRootTerm
        | Cause::RootNotDeclared
        | Cause::PriorityOfMulti
        | Cause::PatternUnknownConst
        | Cause::PatternConstType
        | Cause::ExprIntUntyped
        | Cause::ExprUnknownConst => Ok(()),
        Cause::UnknownInnerType { name }
        | Cause::UnknownOuterType { name }
        | Cause::UnknownConverterTerm { name }
        | Cause::DuplicateRuleName { name }
        | Cause::ReboundVariable { var: name }
        | Cause::ExprUnknownVar { var: name }
        | Cause::NoConstructor { term: name }
        | Cause::PatternUnknownTerm { term: name }
        | Cause::NoExtractor { term: name }
        | Cause::ExprTermIsVariable { term: name }
        | Cause::ExprUnknownTerm { term: name }
        | Cause::NotPure { term: name }
        | Cause::MultiInSingle { term: name } => write!(output, " {}", name_text(tables, name)),
        _ => write_two(output, tables, cause),
    }
}

/// The causes of two values.
fn write_two(output: &mut String, tables: &Tables, cause: Cause) -> Result<(), AllocError> {
    let text = |name| name_text(tables, name);
    match cause {
        Cause::DuplicateConverter { inner, outer } => {
            write!(output, " {} {}", text(inner), text(outer))
        }
        Cause::LetUnknownType { ty, var } => write!(output, " {} {}", text(ty), text(var)),
        // Two arms: one for both was tried, and where an alternative binds an i64 the proof does not close.
        Cause::PatternIntType { ty, val } => write!(output, " {} {val}", ty.0),
        Cause::ExprIntType { ty, val } => write!(output, " {} {val}", ty.0),
        Cause::PatternBoolType { val, ty } | Cause::ExprBoolType { val, ty } => {
            write!(output, " {} {}", u8::from(val), ty.0)
        }
        Cause::PatternTermType { expected, found } | Cause::ExprTermType { expected, found } => {
            write!(output, " {} {}", expected.0, found.0)
        }
        Cause::PartialOnRight { term, root_multi } => {
            write!(output, " {} {}", text(term), u8::from(root_multi))
        }
        _ => write_three(output, tables, cause),
    }
}

/// The causes of three values.
fn write_three(output: &mut String, tables: &Tables, cause: Cause) -> Result<(), AllocError> {
    let text = |name| name_text(tables, name);
    match cause {
        Cause::ArgumentCount {
            term,
            got,
            expected,
        } => { write!(output, " {} {got} {expected}", text(term)) }
        Cause::PatternVarType {
            expected,
            var,
            found,
        } => { write!(output, " {} {} {}", expected.0, text(var), found.0) }
        Cause::ExprVarType {
            var: name,
            found: first,
            expected: second,
        }
        | Cause::ExprConstType {
            val: name,
            expected: first,
            found: second,
        } => { write!(output, " {} {} {}", text(name), first.0, second.0) }
        _ => Ok(()),
    }
}
