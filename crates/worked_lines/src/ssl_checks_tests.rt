//! Which of two widths that differ is told, on worked transfers. `C` has 1 bit, `W` 64, `d` and `r[0]` have 32.
use rtl_core::{CellPart, Width};
use sqlite_items::Items;
use ssl_checks::{is_transfer_in_range, measure, transfer_differs};
use ssl_rules::{LineNames, Meaning, Measure, Mismatch, NameTable, Tables};
use ssl_syntax::{SslBody, SslExpr, SslTransfer, read_expression, read_ssl};
use std::alloc::{AllocError, Global};
use std::test::Fail;
use text_lex::lines;

fn give(names: &mut NameTable<Meaning>, name: &[u8], meaning: Meaning) -> Result<(), AllocError> {
    if names.get(name).is_none() {
        names.add(name, meaning)?;
    }
    Ok(())
}

fn give_names(names: &mut NameTable<Meaning>) -> Result<(), AllocError> {
    give(names, b"r", Meaning::Cells(0))?;
    give(names, b"C", Meaning::Cell(1))?;
    give(names, b"W", Meaning::Cell(2))?;
    give(names, b"d", Meaning::Cell(3))
}

fn give_widths(widths: &mut Items<Width>) -> Result<(), AllocError> {
    for bits in [32, 1, 64, 32] {
        if let Some(width) = Width::new(bits) {
            widths.push(width)?;
        }
    }
    Ok(())
}

/// The parts of `r`: its one cell.
fn file(alloc: Global) -> Result<Items<CellPart>, AllocError> {
    let part = CellPart {
        cell: 0,
        lo: 0,
        hi: 31,
    };
    Items::from_slice(alloc, [part].as_slice())
}

fn tables(alloc: Global) -> Result<Tables, AllocError> {
    let mut tables = Tables::new(alloc);
    give_names(&mut tables.names)?;
    give_widths(&mut tables.widths)?;
    tables.files.push(file(alloc)?)?;
    Ok(tables)
}

/// The widths of a transfer that differ, and whether its numbers are in range.
#[derive(Clone, Copy)]
struct Judged {
    differs: Option<Mismatch>,
    in_range: bool,
}

fn judge(alloc: Global, transfer: &SslTransfer) -> Result<Judged, AllocError> {
    let tables = tables(alloc)?;
    let own = NameTable::new(alloc);
    let names = LineNames {
        tables: &tables,
        own: &own,
    };
    Ok(Judged {
        differs: transfer_differs(&names, transfer),
        in_range: is_transfer_in_range(&names, transfer),
    })
}

fn judge_body(alloc: Global, body: &SslBody) -> Result<Option<Judged>, AllocError> {
    match body {
        SslBody::Instruction { transfers, .. } => match transfers.as_slice() {
            [transfer] => Ok(Some(judge(alloc, transfer)?)),
            _ => Ok(None),
        },
        _ => Ok(None),
    }
}

/// What is told of the one transfer of a text, which is one line.
fn judge_text(alloc: Global, text: &[u8]) -> Result<Option<Judged>, Fail> {
    if text.len() > 1_000_000 {
        return Ok(None);
    }
    let values = read_ssl(alloc, text)?;
    match values.as_slice() {
        [line] => Ok(judge_body(alloc, &line.body)?),
        _ => Ok(None),
    }
}

/// These two widths are told of a text.
fn is_told(alloc: Global, text: &[u8], left: u8, right: u8) -> Result<bool, Fail> {
    match judge_text(alloc, text)? {
        Some(
            Judged {
                differs: Some(told),
                ..
            },
        ) => Ok(told.left == left && told.right == right),
        _ => Ok(false),
    }
}

#[test]
fn a_place_is_told_before_its_value(rt: HostRuntime) -> Result<(), Fail> {
    let alloc = rt.alloc();
    assert!(rt; is_told(alloc, b"instruction A() := *8* r[0] := (C + W)", 8, 32)?);
    assert!(rt; is_told(alloc, b"instruction A() := *32* r[0] := (C + W)", 1, 64)?);
    assert!(rt; is_told(alloc, b"instruction A() := *32* r[0] := if(C, C, C)", 32, 1)?);
    Ok(())
}

#[test]
fn what_is_asked_is_told_before_what_follows(rt: HostRuntime) -> Result<(), Fail> {
    let alloc = rt.alloc();
    assert!(rt; is_told(alloc, b"instruction A() := trap if(W, d, (C + d))", 1, 64)?);
    assert!(rt; is_told(alloc, b"instruction A() := W => trap (C + d)", 1, 64)?);
    Ok(())
}

#[test]
fn equal_widths_are_no_fault(rt: HostRuntime) -> Result<(), Fail> {
    let found = judge_text(rt.alloc(), b"instruction A() := *32* r[0] := d")?;
    let is_fine = matches!(
        found,
        Some(Judged {
            differs: None,
            in_range: true
        })
    );
    assert!(rt; is_fine);
    Ok(())
}

fn measure_expr(alloc: Global, e: &SslExpr) -> Result<Measure, AllocError> {
    let tables = tables(alloc)?;
    let own = NameTable::new(alloc);
    let names = LineNames {
        tables: &tables,
        own: &own,
    };
    Ok(measure(&names, e))
}

/// What is measured of the expression of a text, which is one line.
fn measure_text(alloc: Global, text: &[u8]) -> Result<Option<Measure>, Fail> {
    if text.len() > 1_000_000 {
        return Ok(None);
    }
    let found = lines(alloc, text)?;
    match found.as_slice() {
        [line] => match read_expression(alloc, line.tokens.as_slice())? {
            Some(e) => Ok(Some(measure_expr(alloc, &e)?)),
            None => Ok(None),
        },
        _ => Ok(None),
    }
}

#[test]
fn a_sum_has_its_left_width_where_ranges_are_asked(rt: HostRuntime) -> Result<(), Fail> {
    let fewer = measure_text(rt.alloc(), b"zx(32, (W + C))")?;
    assert!(rt; matches!(fewer, Some(Measure { width: None, .. })));
    let more = measure_text(rt.alloc(), b"zx(32, (C + W))")?;
    let is_wide = matches!(
        more,
        Some(Measure {
            width: Some(32),
            differs: Some(Mismatch { left: 1, right: 64 })
        })
    );
    assert!(rt; is_wide);
    Ok(())
}
