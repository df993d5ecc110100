//! Small lines, expanded and as templates.
ghost use Rattle.std.specs.Prelude.{◌≡◌, IfOk};
ghost use Rattle.ssl_rules.specs.Formulas.{nodes};

use rtl_core::{Bin, CellPart, TAct, TExpr, TPlace, TTransfer, Template, Width};
use sqlite_items::{Boxed, Items};
use ssl_checks::{are_transfers_in_range, measure};
use ssl_rules::{Formula, Function, Leaf, LineNames, Meaning, NameTable, Own, Tables};
use ssl_syntax::{SslAct, SslExpr, SslPlace, SslTransfer};
use ssl_templates::{
    assigned_count, expand, instruction_template, operand_template, transfers_count,
};
use std::alloc::{AllocError, Global};
use std::test::Fail;

fn give<T: Copy>(names: &mut NameTable<T>, name: &[u8], meaning: T) -> Result<(), AllocError> {
    if names.get(name).is_none() {
        names.add(name, meaning)?;
    }
    Ok(())
}

/// A whole cell of 32 bits.
fn whole(cell: u8) -> CellPart {
    CellPart {
        cell,
        lo: 0,
        hi: 31,
    }
}

/// `cells r[2] 32`.
fn two_cells(alloc: Global) -> Result<Tables, AllocError> {
    let mut tables = Tables::new(alloc);
    give(&mut tables.names, b"r", Meaning::Cells(0))?;
    tables.widths.push(Width::WORD)?;
    tables.widths.push(Width::WORD)?;
    let parts = Items::from_slice(alloc, [whole(0), whole(1)].as_slice())?;
    tables.files.push(parts)?;
    Ok(tables)
}

/// `(s, imm, d)`, in which `s` and `d` have 1 bit, `imm` has 13.
fn operands(alloc: Global) -> Result<NameTable<Own>, AllocError> {
    let mut own = NameTable::new(alloc);
    give(&mut own, b"s", field(0, 1))?;
    give(&mut own, b"imm", field(1, 13))?;
    give(&mut own, b"d", field(2, 1))?;
    Ok(own)
}

fn field(operand: u8, width: u8) -> Own {
    Own::Field { operand, width }
}

/// `(r[s] | sx(32, imm))`.
fn or_immediate(alloc: Global) -> Result<SslExpr, AllocError> {
    let name = Items::from_slice(alloc, b"r")?;
    let left = Boxed::new(alloc, SslExpr::AtOp(name, Items::from_slice(alloc, b"s")?))?;
    let immediate = SslExpr::Named(Items::from_slice(alloc, b"imm")?);
    let right = SslExpr::Sext(32, Boxed::new(alloc, immediate)?);
    Ok(SslExpr::Bin(24, left, Boxed::new(alloc, right)?))
}

/// `*32* r[d] := (r[s] | sx(32, imm))`.
fn ori(alloc: Global) -> Result<Items<SslTransfer>, AllocError> {
    let name = Items::from_slice(alloc, b"r")?;
    let to = SslPlace::AtOp(name, Items::from_slice(alloc, b"d")?);
    let act = SslAct::Assign(32, to, or_immediate(alloc)?);
    let mut transfers = Items::new(alloc);
    transfers.push(SslTransfer { guard: None, act })?;
    Ok(transfers)
}

/// Whether a template is `ori`'s, told by its place and the first sign of its value.
fn is_ori(template: &Template) -> bool {
    match template {
        Template::Acts(transfers) => match transfers.as_slice().first() {
            Some(transfer) => is_or_to_third(transfer),
            None => false,
        },
        _ => false,
    }
}

fn is_or_to_third(transfer: &TTransfer) -> bool {
    match &transfer.act {
        TAct::Assign(TPlace::FileAt(0, 2), TExpr::Bin(Bin::Or, _, _)) => transfer.guard.is_none(),
        _ => false,
    }
}

#[test]
fn an_instruction_has_a_template(rt: HostRuntime) -> Result<(), Fail> {
    let alloc = rt.alloc();
    let tables = two_cells(alloc)?;
    let own = operands(alloc)?;
    let names = LineNames {
        tables: &tables,
        own: &own,
    };
    let transfers = ori(alloc)?;
    assert_eq!(rt; transfers_count(alloc, &names, transfers.as_slice())?, 5);
    if are_transfers_in_range(&names, transfers.as_slice()) {
        let template = instruction_template(alloc, &names, transfers.as_slice())?;
        assert!(rt; is_ori(&template));
        return Ok(());
    }
    assert!(rt; false);
    Ok(())
}

/// A function `f ( x : 8 ) := ( x + x )`.
fn doubling(alloc: Global) -> Result<Tables, AllocError> {
    let mut tables = Tables::new(alloc);
    let left = Boxed::new(alloc, Formula::Param(0))?;
    let body = Formula::Bin(Bin::Add, left, Boxed::new(alloc, Formula::Param(0))?);
    let params = Items::from_slice(alloc, [8].as_slice())?;
    tables.functions.push(Function {
        params,
        width: 8,
        body,
    })?;
    give(&mut tables.names, b"f", Meaning::Function(0))?;
    Ok(tables)
}

/// `f(3:8)`.
fn call(alloc: Global) -> Result<SslExpr, AllocError> {
    let mut args = Items::new(alloc);
    args.push(SslExpr::Number(3, 8))?;
    Ok(SslExpr::Call(Items::from_slice(alloc, b"f")?, args))
}

fn is_three(f: &Formula) -> bool {
    match f {
        Formula::Leaf(Leaf::Const(width, 3)) => width.bits() == 8,
        _ => false,
    }
}

fn is_six(f: &Formula) -> bool {
    match f {
        Formula::Bin(Bin::Add, a, b) => is_three(a.get()) && is_three(b.get()),
        _ => false,
    }
}

#[test]
fn a_call_is_its_body(rt: HostRuntime) -> Result<(), Fail> {
    let alloc = rt.alloc();
    let tables = doubling(alloc)?;
    let own = NameTable::new(alloc);
    let names = LineNames {
        tables: &tables,
        own: &own,
    };
    let e = call(alloc)?;
    if measure(&names, &e).width.is_some() {
        assert!(rt; is_six(&expand(alloc, &names, &e)?));
        return Ok(());
    }
    assert!(rt; false);
    Ok(())
}

/// A load of four bytes at a cell.
#[tactic(auto, using(ssl_templates::proofs::ValueLaws::assigned_laws))]
fn loaded(alloc: Global) -> Result<Formula, AllocError>
    ensures { IfOk result (λ f. nodes f ≡ 2) }
{
    let address = Boxed::new(alloc, Formula::Leaf(Leaf::Cell(7)))?;
    Ok(Formula::Load(4, address))
}

#[test]
fn a_load_is_a_place(rt: HostRuntime) -> Result<(), Fail> {
    let alloc = rt.alloc();
    let formula = loaded(alloc)?;
    assert_eq!(rt; assigned_count(&formula, 2), 1);
    let is_place = match operand_template(alloc, &formula)? {
        Template::Place(TPlace::Memory(4, TExpr::Cell(7))) => true,
        _ => false,
    };
    assert!(rt; is_place);
    Ok(())
}
