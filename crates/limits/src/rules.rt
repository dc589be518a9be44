// Tests of what translating a rule stands on: definitions, symbols, variables and scopes, output.
use crate::making::{BOOL, add_node, add_pattern, environment, no_place};
use bindings::{Bindings, MAX_SCOPES, MAX_VARIABLES};
use definition::SourceTree;
use lookup::intern;
use records::ids::{Sym, TermId, TypeId};
use records::refusal::{Refusal, Values};
use records::result::{TypedNode, TypedPattern};
use records::source::{Expr, Node, Part, Pattern};
use std::test::Fail;
use tables::Tables;
use typed::{MAX_OUTPUT, TypedTrees};

/// The table that has no place, where that is why a call was refused.
fn full_table(refusal: Refusal) -> Option<usize> {
    let report = refusal.report();
    match report.values {
        Values::One(table) if report.number == 4 => Some(table),
        _ => None,
    }
}

/// The rule's own scope, and 1,023 more.
#[test]
fn scopes_open_at_one_time(rt: HostRuntime) -> Result<(), Fail> {
    let mut bindings = Bindings::with_limits(rt.alloc(), MAX_VARIABLES, MAX_SCOPES)?;
    bindings.begin_rule().map_err(no_place)?;
    for _ in 0..1_023 {
        bindings.enter_scope().map_err(no_place)?;
    }
    assert_eq!(rt; bindings.enter_scope().err().and_then(full_table), Some(12));
    bindings.exit_scope();
    assert!(rt; bindings.enter_scope().is_ok());
    assert!(rt; bindings.enter_scope().is_err());
    Ok(())
}

/// 1,024 variables in a rule; the next rule has as many.
#[test]
fn variables_of_a_rule(rt: HostRuntime) -> Result<(), Fail> {
    let mut bindings = Bindings::with_limits(rt.alloc(), MAX_VARIABLES, MAX_SCOPES)?;
    bindings.begin_rule().map_err(no_place)?;
    for _ in 0..1_023 {
        bindings.add_var(Sym(0), TypeId(0)).map_err(no_place)?;
    }
    assert_eq!(rt;
        bindings.add_var(Sym(1), TypeId(0)).ok().map(|var| var.0),
        Some(1_023)
    );
    let refused = bindings.add_var(Sym(2), TypeId(0)).err();
    assert_eq!(rt; refused.and_then(full_table), Some(11));
    assert_eq!(rt; bindings.lookup(Sym(0)).map(|found| found.0.0), Some(1_022));
    bindings.end_rule();
    bindings.begin_rule().map_err(no_place)?;
    assert_eq!(rt;
        bindings.add_var(Sym(0), TypeId(0)).ok().map(|var| var.0),
        Some(0)
    );
    assert_eq!(rt; bindings.rule_part().start, 1_024);
    Ok(())
}

/// As the crate does: the scope of a let that failed stays open, and the let around it closes that one.
#[test]
fn scope_that_a_let_left_open(rt: HostRuntime) -> Result<(), Fail> {
    let mut bindings = Bindings::with_limits(rt.alloc(), MAX_VARIABLES, MAX_SCOPES)?;
    bindings.begin_rule().map_err(no_place)?;
    bindings.enter_scope().map_err(no_place)?;
    bindings.add_var(Sym(20), TypeId(1)).map_err(no_place)?;
    bindings.enter_scope().map_err(no_place)?;
    bindings.add_var(Sym(21), TypeId(2)).map_err(no_place)?;
    bindings.exit_scope();
    assert_eq!(rt; bindings.lookup(Sym(20)).map(|found| found.0.0), Some(0));
    assert!(rt; bindings.lookup(Sym(21)).is_none());
    Ok(())
}

const WILDCARD: TypedNode = TypedNode::Pattern {
    ty: TypeId(13),
    pattern: TypedPattern::Wildcard,
};

/// 4,096 records of a rule; the last one has all of them below it.
#[test]
fn output_of_a_rule(rt: HostRuntime) -> Result<(), Fail> {
    let mut trees = TypedTrees::with_limit(rt.alloc(), MAX_OUTPUT)?;
    let all = trees.mark();
    for _ in 0..4_095 {
        let here = trees.mark();
        trees.push_tree(here, WILDCARD).map_err(no_place)?;
    }
    let term = TypedNode::Pattern {
        ty: TypeId(13),
        pattern: TypedPattern::Term { term: TermId(0) },
    };
    trees.push_tree(all, term).map_err(no_place)?;
    assert_eq!(rt; trees.records().last().map(|root| root.size), Some(4_096));
    let here = trees.mark();
    let refused = trees.push_tree(here, WILDCARD).err();
    assert_eq!(rt; refused.and_then(full_table), Some(8));
    trees.end_rule();
    assert!(rt; trees.push_tree(here, WILDCARD).is_ok());
    Ok(())
}

/// The symbol that a name of these bytes gets.
fn symbol_of(tables: &mut Tables, bytes: &[u8]) -> Result<u16, Fail> {
    let name = tables.add_name(bytes).map_err(no_place)?;
    let sym = intern(tables, name).map_err(no_place)?;
    Ok(sym.0)
}

/// A name that is there already, and two that differ in the last byte.
#[test]
fn interned_names(rt: HostRuntime) -> Result<(), Fail> {
    let mut tables = environment(rt.alloc())?;
    let names = [b"i64".as_slice(), b"edge", b"edgy", b"edge"];
    for (bytes, sym) in names.iter().zip([10, 13, 14, 13]) {
        assert_eq!(rt; symbol_of(&mut tables, bytes)?, sym);
    }
    assert_eq!(rt; tables.symbols.len(), 15);
    Ok(())
}

/// One pattern in the next, a variable and the rule over them: 65,535 records.
fn add_deepest_rule(tables: &mut Tables) -> Result<(), Fail> {
    add_pattern(tables, Pattern::Wildcard, 1)?;
    for size in 2..=65_533u16 {
        add_pattern(tables, Pattern::BindPattern { var: BOOL }, size)?;
    }
    add_node(tables, Node::Expr(Expr::Var { name: BOOL }), 1)?;
    let rule = Node::Rule {
        prio: None,
        name: None,
    };
    add_node(tables, rule, 65_535)
}

#[test]
fn the_deepest_rule(rt: HostRuntime) -> Result<(), Fail> {
    let mut tables = environment(rt.alloc())?;
    add_deepest_rule(&mut tables)?;
    let part = Part {
        start: 0,
        end: 65_535,
    };
    let Ok(tree) = SourceTree::read_rule(tables.source.as_slice(), part) else {
        return Err(Fail::new("a lawful rule was refused"));
    };
    assert_eq!(rt; tree.number(), 65_534);
    assert_eq!(rt;
        tree.rule_pattern().map(|pattern| pattern.number()),
        Some(65_532)
    );
    assert_eq!(rt; tree.rule_expr().map(|expr| expr.number()), Some(65_533));
    assert_eq!(rt; tree.if_let_count(), 0);
    Ok(())
}
