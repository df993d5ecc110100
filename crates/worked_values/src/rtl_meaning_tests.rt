//! Values of some expressions over one cell and a memory of four bytes, and a store into such a memory.
ghost use Rattle.std.specs.Prelude.{◌≡◌, ◌<◌, ◌^◌, [], ◌∷◌, IfOk, IfSome, None};
ghost use Rattle.rtl_core.specs.Access.{is_size};
ghost use Rattle.rtl_meaning.specs.Sound.{IsSoundExpr};

use crate::test_memory::two_ranges;
use rtl_core::{Bin, Cells, Expr, Machine, Order, Trap, Un, Width, load, store};
use rtl_meaning::eval;
use space::Space;
use sqlite_items::{Boxed, Items};
use std::alloc::{AllocError, Global};
use std::test::Fail;

/// A machine with one cell of 32 bits, which aligns and puts the least byte first.
fn one_cell(alloc: Global) -> Result<Machine, AllocError>
    ensures { IfOk result (λ m. (m.widths ≡ 32 ∷ []) × (m.zero ≡ None)) }
{
    let mut widths = Items::new(alloc);
    widths.push(Width::WORD)?;
    Ok(Machine {
        order: Order::Little,
        align: true,
        delay: None,
        widths,
        zero: None,
        windows: None,
        files: Items::new(alloc),
        forms: Items::new(alloc),
        types: Items::new(alloc),
        most_nodes: 0,
    })
}

/// The cell's value, 2.
fn cell_of_two(alloc: Global) -> Result<Cells, AllocError>
    ensures { IfOk result (λ c. c.values ≡ 2 ∷ []) }
{
    let mut values = Items::new(alloc);
    values.push(2)?;
    Ok(Cells { values })
}

/// Four bytes at address 0, in two ranges.
fn four_bytes(alloc: Global) -> Result<Space, Fail> {
    two_ranges(alloc, &[0x01], &[0x02, 0x03, 0x84])
}

/// An operator over two numbers, where they fit the width.
fn operation(alloc: Global, op: Bin, w: u8, x: u64, y: u64) -> Result<Option<Expr>, AllocError>
    ensures { IfOk result (λ o. IfSome o (λ e. IsSoundExpr (32 ∷ []) e)) }
{
    let Some(width) = Width::new(w) else {
        return Ok(None);
    };
    if u128::from(x) >= 1 << w || u128::from(y) >= 1 << w {
        return Ok(None);
    }
    let left = Boxed::new(alloc, Expr::Const(width, x))?;
    let right = Boxed::new(alloc, Expr::Const(width, y))?;
    Ok(Some(Expr::Bin(op, left, right)))
}

/// Whether a load has this size.
fn can_be_loaded(bytes: u8) -> bool
    ensures { result ≡ is_size bytes }
{
    matches!(bytes, 1 | 2 | 4 | 8)
}

/// A load from the cell's value and a number, where the size is one.
fn load_beyond(alloc: Global, bytes: u8, n: u32) -> Result<Option<Expr>, AllocError>
    ensures { IfOk result (λ o. IfSome o (λ e. IsSoundExpr (32 ∷ []) e)) }
{
    if !can_be_loaded(bytes) {
        return Ok(None);
    }
    let base = Boxed::new(alloc, Expr::Cell(0))?;
    let number = Boxed::new(alloc, Expr::Const(Width::WORD, u64::from(n)))?;
    let at = Boxed::new(alloc, Expr::Bin(Bin::Add, base, number))?;
    Ok(Some(Expr::Load(bytes, at)))
}

/// The last byte with its sign repeated where a bit of the cell is 1, else -1 in 8 bits.
fn chosen_by(alloc: Global, bit: u8) -> Result<Option<Expr>, AllocError>
    requires { bit < 32 }
    ensures { IfOk result (λ o. IfSome o (λ e. IsSoundExpr (32 ∷ []) e)) }
{
    let Some(width) = Width::new(8) else {
        return Ok(None);
    };
    let cell = Boxed::new(alloc, Expr::Cell(0))?;
    let test = Boxed::new(alloc, Expr::Slice(cell, bit, bit))?;
    let at = Boxed::new(alloc, Expr::Const(Width::WORD, 3))?;
    let last = Boxed::new(alloc, Expr::Load(1, at))?;
    let one = Boxed::new(alloc, Expr::Const(width, 1))?;
    let minus = Boxed::new(alloc, Expr::Un(Un::Neg, one))?;
    let left = Boxed::new(alloc, Expr::Sext(Width::WORD, last))?;
    let right = Boxed::new(alloc, Expr::Zext(Width::WORD, minus))?;
    Ok(Some(Expr::If(test, left, right)))
}

#[test]
fn operators_have_these_values(rt: HostRuntime) -> Result<(), Fail> {
    let alloc = rt.alloc();
    let machine = one_cell(alloc)?;
    let cells = cell_of_two(alloc)?;
    let space = four_bytes(alloc)?;
    for (op, w, x, y, want) in [
        (Bin::ShrS, 32, 0x8000_0000, 32, Ok(0xFFFF_FFFF)),
        (Bin::ShrU, 32, 0x8000_0000, 32, Ok(0)),
        (Bin::Shl, 32, 1, 32, Ok(0)),
        (Bin::DivS, 8, 0xF9, 2, Ok(0xFD)),
        (Bin::RemS, 8, 0xF9, 2, Ok(0xFF)),
        (Bin::DivS, 32, 0x8000_0000, 0xFFFF_FFFF, Ok(0x8000_0000)),
        (Bin::DivS, 64, 1 << 63, u64::MAX, Ok(1 << 63)),
        (Bin::RemS, 64, 1 << 63, u64::MAX, Ok(0)),
        (Bin::DivU, 32, 7, 0, Err(Trap::Divide)),
        (Bin::RemS, 32, 7, 0, Err(Trap::Divide)),
        (Bin::Mul, 64, u64::MAX, u64::MAX, Ok(1)),
        (Bin::Sub, 8, 1, 2, Ok(0xFF)),
        (Bin::LtS, 8, 0x80, 0x7F, Ok(1)),
        (Bin::LtU, 8, 0x80, 0x7F, Ok(0)),
        (Bin::LeS, 8, 0x7F, 0x80, Ok(0)),
    ] {
        let e = operation(alloc, op, w, x, y)?.ok_or("the numbers fit")?;
        assert_eq!(rt;
            eval(&machine, &e, &cells, &space),
            want,
            "{op:?} at {w} of {x:#x} and {y:#x}"
        );
    }
    Ok(())
}

#[test]
fn loads_answer_this(rt: HostRuntime) -> Result<(), Fail> {
    let alloc = rt.alloc();
    let machine = one_cell(alloc)?;
    let cells = cell_of_two(alloc)?;
    let space = four_bytes(alloc)?;
    for (bytes, n, want) in [
        (1, 1, Ok(0x84)),
        (2, 0, Ok(0x8403)),
        (4, 0xFFFF_FFFE, Ok(0x8403_0201)),
        (2, 1, Err(Trap::Misaligned(3))),
        (4, 2, Err(Trap::Memory(4))),
        (8, 0xFFFF_FFFE, Err(Trap::Memory(4))),
        (4, 0xFFFF_FFFA, Err(Trap::Memory(0xFFFF_FFFC))),
    ] {
        let e = load_beyond(alloc, bytes, n)?.ok_or("a size")?;
        assert_eq!(rt;
            eval(&machine, &e, &cells, &space),
            want,
            "{bytes} bytes at {n:#x} from 2"
        );
    }
    Ok(())
}

#[test]
fn a_choice_takes_one_side(rt: HostRuntime) -> Result<(), Fail> {
    let alloc = rt.alloc();
    let machine = one_cell(alloc)?;
    let cells = cell_of_two(alloc)?;
    let space = four_bytes(alloc)?;
    let set = chosen_by(alloc, 1)?.ok_or("a width")?;
    let clear = chosen_by(alloc, 0)?.ok_or("a width")?;
    assert_eq!(rt; eval(&machine, &set, &cells, &space), Ok(0xFFFF_FF84));
    assert_eq!(rt; eval(&machine, &clear, &cells, &space), Ok(0xFF));
    Ok(())
}

#[test]
fn a_store_is_whole_or_none(rt: HostRuntime) -> Result<(), Fail> {
    let mut space = four_bytes(rt.alloc())?;
    assert_eq!(rt; store(&mut space, Order::Big, true, 2, 2, 0x1_0A0B), Ok(()));
    assert_eq!(rt; space.load(Order::Big, 4, 0), Ok(0x0102_0A0B));
    assert_eq!(rt;
        store(&mut space, Order::Big, false, 4, 2, 0),
        Err(Trap::Memory(4))
    );
    assert_eq!(rt; space.load(Order::Big, 4, 0), Ok(0x0102_0A0B));
    assert_eq!(rt; load(&space, Order::Little, false, 2, 1), Ok(0x0A02));
    Ok(())
}
