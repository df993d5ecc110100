//! Operands and addresses put into a template, and cells found by name.
use crate::test_items::{one, two};
use rtl_core::{
    Act, Bin, CellNames, CellPart, Expr, Form, Inst, Leaves, Machine, OperandKind, Order, TAct,
    TExpr, TPlace, TTransfer, Template, Width, ground, try_ground,
};
use sqlite_items::{Boxed, Items};
use std::alloc::{AllocError, Global};
use std::test::Fail;

/// `r[l] := zx(32, n) + %next`.
fn template(alloc: Global) -> Result<Template, AllocError> {
    let n = TExpr::Zext(Width::WORD, Boxed::new(alloc, TExpr::Operand(1))?);
    let sum = TExpr::Bin(
        Bin::Add,
        Boxed::new(alloc, n)?,
        Boxed::new(alloc, TExpr::Next)?,
    );
    let transfer = TTransfer {
        guard: None,
        act: TAct::Assign(TPlace::FileAt(0, 0), sum),
    };
    Ok(Template::Acts(one(alloc, transfer)?))
}

/// Two cells of 32 bits; the file has the first whole, and eight bits of the second.
fn machine(alloc: Global, byte: Width) -> Result<Machine, AllocError> {
    let whole = CellPart {
        cell: 0,
        lo: 0,
        hi: 31,
    };
    let part = CellPart {
        cell: 1,
        lo: 0,
        hi: 7,
    };
    let form = Form {
        kinds: two(
            alloc,
            OperandKind::Field(Width::FLAG),
            OperandKind::Field(byte),
        )?,
        template: template(alloc)?,
    };
    Ok(Machine {
        order: Order::Big,
        align: true,
        delay: None,
        widths: two(alloc, Width::WORD, Width::WORD)?,
        zero: None,
        windows: None,
        files: one(alloc, two(alloc, whole, part)?)?,
        forms: one(alloc, form)?,
        types: one(alloc, one(alloc, 0)?)?,
        most_nodes: 5,
    })
}

fn inst(alloc: Global, l: u32, n: u32) -> Inst {
    let mut leaves = Leaves::new(alloc);
    leaves.push(l);
    leaves.push(n);
    Inst {
        constructor: 0,
        leaves,
    }
}

/// Whether an expression is `zx(32, n) + next`, with `n` of 8 bits.
fn is_sum(e: &Expr, n: u64, next: u64) -> bool {
    let Expr::Bin(Bin::Add, a, b) = e else {
        return false;
    };
    let Expr::Const(_, at) = b.get() else {
        return false;
    };
    match a.get() {
        Expr::Zext(_, c) => match c.get() {
            Expr::Const(w, m) => w.bits() == 8 && *m == n && *at == next,
            _ => false,
        },
        _ => false,
    }
}

#[test]
fn operands_and_addresses_are_put_in(rt: HostRuntime) -> Result<(), Fail> {
    let byte = Width::new(8).expect(&rt, "a width");
    let machine = machine(rt.alloc(), byte)?;
    let high = inst(rt.alloc(), 1, 5);
    let found = try_ground(rt.alloc(), &machine, &high, 0xFFFF_FFFE, 4)?;
    assert!(rt; found.is_some());
    let found = ground(rt.alloc(), &machine, &high, 0xFFFF_FFFE, 4)?;
    assert_eq!(rt; found.next, 2);
    match found.transfers.as_slice() {
        [only] => match &only.act {
            Act::SetSlice(1, 0, 7, e) => assert!(rt; is_sum(e, 5, 2)),
            _ => assert!(rt; false, "eight bits of the second cell"),
        },
        _ => assert!(rt; false, "one transfer"),
    }
    Ok(())
}

#[test]
fn a_whole_part_is_its_cell(rt: HostRuntime) -> Result<(), Fail> {
    let byte = Width::new(8).expect(&rt, "a width");
    let machine = machine(rt.alloc(), byte)?;
    let low = inst(rt.alloc(), 0, 255);
    let found = try_ground(rt.alloc(), &machine, &low, 0x1000, 4)?.expect(&rt, "an instruction");
    match found.transfers.as_slice() {
        [only] => match &only.act {
            Act::SetCell(0, e) => assert!(rt; is_sum(e, 255, 0x1004)),
            _ => assert!(rt; false, "the first cell"),
        },
        _ => assert!(rt; false, "one transfer"),
    }
    Ok(())
}

#[test]
fn numbers_that_spell_no_operands(rt: HostRuntime) -> Result<(), Fail> {
    let byte = Width::new(8).expect(&rt, "a width");
    let machine = machine(rt.alloc(), byte)?;
    for (l, n) in [(2, 5), (0, 256)] {
        let wide = inst(rt.alloc(), l, n);
        assert!(rt; try_ground(rt.alloc(), &machine, &wide, 0, 4)?.is_none());
    }
    let none = Inst {
        constructor: 0,
        leaves: Leaves::new(rt.alloc()),
    };
    assert!(rt; try_ground(rt.alloc(), &machine, &none, 0, 4)?.is_none());
    Ok(())
}

#[test]
fn finds_cells_by_name(rt: HostRuntime) {
    let mut names = CellNames::new(rt.alloc());
    assert!(rt; names.add(b"r", 0, Some(32)).is_ok());
    assert!(rt; names.add(b"C", 32, None).is_ok());
    for (name, index, cell) in [
        (b"r".as_slice(), Some(0), Some(0)),
        (b"r".as_slice(), Some(31), Some(31)),
        (b"r".as_slice(), Some(32), None),
        (b"r".as_slice(), None, None),
        (b"C".as_slice(), None, Some(32)),
        (b"C".as_slice(), Some(0), None),
        (b"q".as_slice(), None, None),
    ] {
        assert_eq!(rt; names.cell_of(name, index), cell);
    }
}
