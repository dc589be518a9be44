// Tests of tables and opening.
use crate::making::{BOOL, add_pattern, add_symbol, environment, no_place};
use elaborate::open;
use records::env::{ExtractorKind, Term, TermFlags, TermKind};
use records::fault::{Cause, Fault};
use records::ids::{Sym, TypeId};
use records::refusal::Values;
use records::source::{Part, Pattern, Pos};
use std::alloc::Global;
use std::test::Fail;
use table::Table;
use tables::Tables;

/// A term named by symbol 13 whose template is the whole source list.
fn add_template_term(heap: Global, tables: &mut Tables) -> Result<(), Fail> {
    let template = Part {
        start: 0,
        end: 65_535,
    };
    let flags = TermFlags {
        pure: true,
        multi: false,
        partial: false,
        rec: false,
    };
    let term = Term {
        name: Sym(13),
        arg_tys: Vec::new(heap),
        ret_ty: TypeId(0),
        kind: TermKind::Decl {
            flags,
            constructor_kind: None,
            extractor_kind: Some(ExtractorKind::Internal { template }),
        },
    };
    tables.terms.push(term).map_err(no_place)
}

/// The table and the record that opening is refused with, if it is.
fn refused(tables: Tables) -> Option<(usize, usize)> {
    let (_tables, refusal) = open(tables).err()?;
    match refusal.report().values {
        Values::One(_) => None,
        Values::Two(table, record) => Some((table, record)),
    }
}

#[test]
fn names_of_255_and_256_bytes(rt: HostRuntime) -> Result<(), Fail> {
    let mut tables = environment(rt.alloc())?;
    add_symbol(&mut tables, &[b'x'; 255])?;
    assert_eq!(rt; refused(tables), None);
    let mut tables = environment(rt.alloc())?;
    add_symbol(&mut tables, &[b'x'; 256])?;
    assert_eq!(rt; refused(tables), Some((9, 13)));
    Ok(())
}

#[test]
fn a_table_exactly_full_and_one_over(rt: HostRuntime) -> Result<(), Fail> {
    let mut table: Table<u8, 3> = Table::with_limit(rt.alloc(), 7)?;
    assert_eq!(rt; table.limit(), 3);
    assert!(rt; table.push(5).is_ok());
    assert!(rt; table.extend_from_slice(&[6, 7, 8]).is_err());
    assert!(rt; table.extend_from_slice(&[6, 7]).is_ok());
    assert!(rt; table.push(8).is_err());
    assert_eq!(rt; table.as_slice(), [5, 6, 7].as_slice());
    Ok(())
}

/// A fault, and a symbol that is not lawful.
fn add_fault_and_empty_name(tables: &mut Tables) -> Result<(), Fail> {
    let cause = Cause::RootNotTerm;
    let pos = Pos { file: 0, offset: 0 };
    tables.faults.push(Fault { cause, pos }).map_err(no_place)?;
    add_symbol(tables, b"")
}

/// The tables that opening hands back.
fn handed_back(tables: Tables) -> Option<Tables> {
    open(tables).err().map(|refused| refused.0)
}

/// The tables as opening leaves them.
fn opened(tables: Tables) -> Option<Tables> {
    open(tables).ok().map(|opening| opening.into_tables())
}

/// How many faults there are after a refused opening, and after an accepted one.
fn faults_left(tables: Tables) -> Option<(usize, usize)> {
    let mut tables = handed_back(tables)?;
    let refused = tables.faults.len();
    tables.symbols.truncate(13);
    let tables = opened(tables)?;
    Some((refused, tables.faults.len()))
}

#[test]
fn a_refusal_leaves_what_opening_empties(rt: HostRuntime) -> Result<(), Fail> {
    let mut tables = environment(rt.alloc())?;
    add_fault_and_empty_name(&mut tables)?;
    assert_eq!(rt; faults_left(tables), Some((1, 0)));
    Ok(())
}

/// 65,535 patterns, each in the next: no call goes as deep as the tree.
#[test]
fn the_deepest_template(rt: HostRuntime) -> Result<(), Fail> {
    let mut tables = environment(rt.alloc())?;
    add_symbol(&mut tables, b"deep")?;
    add_pattern(&mut tables, Pattern::Wildcard, 1)?;
    for size in 2..=65_535u16 {
        add_pattern(&mut tables, Pattern::BindPattern { var: BOOL }, size)?;
    }
    add_template_term(rt.alloc(), &mut tables)?;
    assert_eq!(rt; refused(tables), None);
    Ok(())
}

/// 65,534 patterns side by side in one.
#[test]
fn the_widest_template(rt: HostRuntime) -> Result<(), Fail> {
    let mut tables = environment(rt.alloc())?;
    add_symbol(&mut tables, b"wide")?;
    for _ in 0..65_534u16 {
        add_pattern(&mut tables, Pattern::Wildcard, 1)?;
    }
    add_pattern(&mut tables, Pattern::And, 65_535)?;
    add_template_term(rt.alloc(), &mut tables)?;
    assert_eq!(rt; refused(tables), None);
    Ok(())
}
