//! What some instructions do on a machine with one window cell of each kind and a cell of 64 bits.
ghost use Rattle.std.specs.Prelude.{◌≡◌, ◌<◌, ◌-◌, ◌*◌, true, [], ◌∷◌, IfOk, IfSome, OnOk, All};
ghost use Rattle.rtl_core.specs.declared.machine.Machine.{Machine};
ghost use Rattle.rtl_core.specs.Access.{is_size};
ghost use Rattle.rtl_core.specs.SoundTerms.{HasWidth, IsSoundAct, IsSoundGuard, IsSoundTransfer};
ghost use Rattle.worked_values.specs.TestMachine.{IsSmall};

use crate::test_memory::two_ranges;
use rtl_core::{
    Act, Bin, Cells, Expr, GroundInst, Machine, Order, Stop, Transfer, Un, Width, WinShape,
};
use rtl_meaning::{Effect, Windows, run_acts};
use space::Space;
use sqlite_items::{Boxed, Items};
use std::alloc::{AllocError, Global};
use std::test::Fail;

/// The cell of 64 bits.
const WIDE: u8 = 4;

/// One act of a test's instruction.
#[derive(Clone, Copy)]
enum Step {
    /// Puts a number into a cell of 32 bits.
    Set(u8, u32),
    /// Puts a number into the wide cell.
    Wide(u64),
    /// Puts a number into the bits 8 to 15 of the wide cell.
    Middle(u8),
    /// Puts 7 divided by a number into the wide cell.
    Divide(u64),
    /// Turns all bits of the wide cell round so many times.
    Turn(u16),
    /// Stores so many low bytes of the wide cell at an address.
    Store(u8, u32),
    /// Loads so many bytes from an address into the wide cell.
    Load(u8, u32),
    Plain(Plain),
}

/// An act without parts, or with a number.
#[derive(Clone, Copy)]
enum Plain {
    Jump(u32),
    Annul,
    Trap(u32),
    Service,
    Save,
    Restore,
}

/// What is left of a run of one instruction.
#[derive(Drop)]
struct Outcome {
    effect: Effect,
    cells: Cells,
    space: Space,
    saved: usize,
}

/// An access has this size.
fn can_be_accessed(bytes: u8) -> bool
    ensures { result ≡ is_size bytes }
{
    matches!(bytes, 1 | 2 | 4 | 8)
}

/// An act; `None` where a cell or a size is none.
fn act_of(alloc: Global, step: Step) -> Result<Option<Act>, AllocError>
    ensures { IfOk result (λ o. IfSome o (λ act. (m : Machine) → IsSmall m → IsSoundAct m act)) }
{
    match step {
        Step::Set(cell, n) => Ok(set(cell, n)),
        Step::Wide(n) => Ok(Some(set_wide(wide(n)))),
        Step::Middle(n) => Ok(Some(set_middle(alloc, n)?)),
        Step::Divide(n) => Ok(Some(set_wide(quotient(alloc, n)?))),
        Step::Turn(times) => Ok(Some(set_wide(turned(alloc, times)?))),
        Step::Store(bytes, at) => store_low(alloc, bytes, at),
        Step::Load(bytes, at) => load_wide(alloc, bytes, at),
        Step::Plain(plain) => Ok(Some(plain_act(plain))),
    }
}

/// An act that needs no memory.
#[tactic(auto, using(crate::proofs::SmallMachine::windows_there))]
fn plain_act(plain: Plain) -> Act
    ensures { (m : Machine) → IsSmall m → IsSoundAct m result }
{
    match plain {
        Plain::Jump(target) => Act::Jump(number(target)),
        Plain::Annul => Act::Annul,
        Plain::Trap(n) => Act::Trap(number(n)),
        Plain::Service => Act::Service,
        Plain::Save => Act::WinSave,
        Plain::Restore => Act::WinRestore,
    }
}

/// The width of 64 bits.
fn double() -> Width
    ensures { result ≡ 64 }
{
    match Width::new(64) {
        Some(w) => w,
        None => unreachable!(),
    }
}

/// A number of 32 bits.
fn number(n: u32) -> Expr
    ensures { (m : Machine) → IsSmall m → HasWidth m.widths result 32 }
{
    Expr::Const(Width::WORD, n as u64)
}

/// A number of 64 bits.
fn wide(n: u64) -> Expr
    ensures { (m : Machine) → IsSmall m → HasWidth m.widths result 64 }
{
    let width = double();
    Expr::Const(width, n)
}

/// Puts a number into a cell of 32 bits.
fn set(cell: u8, n: u32) -> Option<Act>
    ensures { IfSome result (λ act. (m : Machine) → IsSmall m → IsSoundAct m act) }
{
    if cell < WIDE {
        Some(set_word(cell, number(n)))
    } else {
        None
    }
}

/// Puts a value into a cell of 32 bits.
fn set_word(cell: u8, e: Expr) -> Act
    requires cell { cell < 4 }
    requires value { (m : Machine) → IsSmall m → HasWidth m.widths e 32 }
    ensures { (m : Machine) → IsSmall m → IsSoundAct m result }
{
    Act::SetCell(cell, e)
}

/// Puts a value into the wide cell.
fn set_wide(e: Expr) -> Act
    requires { (m : Machine) → IsSmall m → HasWidth m.widths e 64 }
    ensures { (m : Machine) → IsSmall m → IsSoundAct m result }
{
    Act::SetCell(WIDE, e)
}

/// Puts a number into the bits 8 to 15 of the wide cell.
fn set_middle(alloc: Global, n: u8) -> Result<Act, AllocError>
    ensures { IfOk result (λ act. (m : Machine) → IsSmall m → IsSoundAct m act) }
{
    let inner = Boxed::new(alloc, number(n as u32))?;
    Ok(Act::SetSlice(WIDE, 8, 15, Expr::Slice(inner, 0, 7)))
}

/// 7 divided by a number.
fn quotient(alloc: Global, n: u64) -> Result<Expr, AllocError>
    ensures { IfOk result (λ e. (m : Machine) → IsSmall m → HasWidth m.widths e 64) }
{
    let seven = wide(7);
    let divisor = wide(n);
    let left = Boxed::new(alloc, seven)?;
    let right = Boxed::new(alloc, divisor)?;
    Ok(Expr::Bin(Bin::DivU, left, right))
}

/// The wide cell with all bits turned round so many times.
fn turned(alloc: Global, times: u16) -> Result<Expr, AllocError>
    ensures { IfOk result (λ e. (m : Machine) → IsSmall m → HasWidth m.widths e 64) }
{
    let mut e = Expr::Cell(WIDE);
    for i in 0..times {
        let _ = i;
        let inner = Boxed::new(alloc, e)?;
        e = Expr::Un(Un::Not, inner);
    }
    Ok(e)
}

/// Stores low bytes of the wide cell.
fn store_low(alloc: Global, bytes: u8, at: u32) -> Result<Option<Act>, AllocError>
    ensures { IfOk result (λ o. IfSome o (λ act. (m : Machine) → IsSmall m → IsSoundAct m act)) }
{
    if !can_be_accessed(bytes) {
        return Ok(None);
    }
    let inner = Boxed::new(alloc, Expr::Cell(WIDE))?;
    let low = Expr::Slice(inner, 0, top_bit(bytes));
    Ok(Some(Act::Store(bytes, number(at), low)))
}

/// The last bit of so many bytes.
fn top_bit(bytes: u8) -> u8
    requires { is_size bytes ≡ true }
    ensures { result ≡ 8 * bytes - 1 }
{
    match bytes {
        1 => 7,
        2 => 15,
        4 => 31,
        _ => 63,
    }
}

/// Loads bytes into the wide cell.
fn load_wide(alloc: Global, bytes: u8, at: u32) -> Result<Option<Act>, AllocError>
    ensures { IfOk result (λ o. IfSome o (λ act. (m : Machine) → IsSmall m → IsSoundAct m act)) }
{
    if !can_be_accessed(bytes) {
        return Ok(None);
    }
    let address = Boxed::new(alloc, number(at))?;
    let loaded = Boxed::new(alloc, Expr::Load(bytes, address))?;
    let width = double();
    Ok(Some(Act::SetCell(WIDE, Expr::Zext(width, loaded))))
}

/// A guard that is known.
fn guard_of(guard: Option<bool>) -> Option<Expr>
    ensures { (m : Machine) → IsSmall m → IsSoundGuard m.widths result }
{
    match guard {
        None => None,
        Some(holds) => Some(flag(holds)),
    }
}

/// A number of 1 bit.
fn flag(holds: bool) -> Expr
    ensures { (m : Machine) → IsSmall m → HasWidth m.widths result 1 }
{
    if holds {
        return Expr::Const(Width::FLAG, 1);
    }
    Expr::Const(Width::FLAG, 0)
}

/// Adds a transfer.
fn add(transfers: &mut Items<Transfer>, guard: Option<Expr>, act: Act) -> Result<(), AllocError>
    requires transfers { (m : Machine) → IsSmall m → All (IsSoundTransfer m) transfers.old }
    requires guard { (m : Machine) → IsSmall m → IsSoundGuard m.widths guard }
    requires act { (m : Machine) → IsSmall m → IsSoundAct m act }
    ensures { OnOk result ((m : Machine) → IsSmall m → All (IsSoundTransfer m) transfers.new) }
{
    transfers.push(Transfer { guard, act })?;
    Ok(())
}

/// An instruction of these acts, each with its guard; `None` where one of them is none.
fn instruction(
    alloc: Global,
    steps: &[(Option<bool>, Step)],
) -> Result<Option<GroundInst>, AllocError>
    ensures { IfOk result (λ o. IfSome o (λ inst. (m : Machine) → IsSmall m → All (IsSoundTransfer m) inst.transfers)) }
{
    let mut transfers = Items::new(alloc);
    for (guard, step) in steps {
        let Some(act) = act_of(alloc, *step)? else {
            return Ok(None);
        };
        add(&mut transfers, guard_of(*guard), act)?;
    }
    Ok(Some(GroundInst {
        constructor: 0,
        next: 0x44,
        transfers,
    }))
}

/// A machine with a zero cell, an out, a local and an in cell, and a wide cell.
fn small_machine(alloc: Global, order: Order, align: bool) -> Result<Machine, AllocError>
    ensures { IfOk result (λ m. IsSmall m) }
{
    let word = Width::WORD;
    let widths = Items::from_slice(alloc, &[word, word, word, word, double()])?;
    Ok(Machine {
        order,
        align,
        delay: None,
        widths,
        zero: Some(0),
        windows: Some(WinShape {
            out_first: 1,
            local_first: 2,
            in_first: 3,
            count: 1,
        }),
        files: Items::new(alloc),
        forms: Items::new(alloc),
        types: Items::new(alloc),
        most_nodes: 0,
    })
}

/// The cells before an instruction: 0, 11, 12, 13 and 14.
fn first_cells(alloc: Global) -> Result<Cells, AllocError>
    ensures { IfOk result (λ c. c.values ≡ 0 ∷ 11 ∷ 12 ∷ 13 ∷ 14 ∷ []) }
{
    Ok(Cells {
        values: Items::from_slice(alloc, &[0, 11, 12, 13, 14])?,
    })
}

/// What an instruction at 0x40 comes to over eight bytes in two ranges; `None` where it is no instruction.
fn perform(
    alloc: Global,
    order: Order,
    align: bool,
    steps: &[(Option<bool>, Step)],
) -> Result<Option<Outcome>, Fail> {
    let machine = small_machine(alloc, order, align)?;
    let Some(inst) = instruction(alloc, steps)? else {
        return Ok(None);
    };
    let mut cells = first_cells(alloc)?;
    let mut space = two_ranges(alloc, &[1, 2, 3], &[4, 5, 6, 7, 8])?;
    let mut windows = Windows::reserve(alloc, &machine)?;
    Ok(Some(Outcome {
        effect: run_acts(&machine, &inst, 0x40, &mut cells, &mut space, &mut windows),
        cells,
        space,
        saved: windows.len(),
    }))
}

#[test]
fn accesses_answer_this(rt: HostRuntime) -> Result<(), Fail> {
    let alloc = rt.alloc();
    for (order, align, bytes, at, n, stop, loaded, left) in [
        (
            Order::Little,
            true,
            1,
            0,
            0xABCD,
            None,
            0xCD,
            0xCD02_0304_0506_0708,
        ),
        (
            Order::Big,
            true,
            1,
            7,
            0xABCD,
            None,
            0xCD,
            0x0102_0304_0506_07CD,
        ),
        (
            Order::Little,
            true,
            2,
            2,
            0xABCD,
            None,
            0xABCD,
            0x0102_CDAB_0506_0708,
        ),
        (
            Order::Big,
            true,
            2,
            2,
            0xABCD,
            None,
            0xABCD,
            0x0102_ABCD_0506_0708,
        ),
        (
            Order::Little,
            false,
            4,
            1,
            0xA1B2_C3D4,
            None,
            0xA1B2_C3D4,
            0x01D4_C3B2_A106_0708,
        ),
        (
            Order::Big,
            false,
            4,
            1,
            0xA1B2_C3D4,
            None,
            0xA1B2_C3D4,
            0x01A1_B2C3_D406_0708,
        ),
        (
            Order::Little,
            true,
            8,
            0,
            0x0A0B_0C0D_0E0F_1011,
            None,
            0x0A0B_0C0D_0E0F_1011,
            0x1110_0F0E_0D0C_0B0A,
        ),
        (
            Order::Big,
            true,
            8,
            0,
            0x0A0B_0C0D_0E0F_1011,
            None,
            0x0A0B_0C0D_0E0F_1011,
            0x0A0B_0C0D_0E0F_1011,
        ),
        (
            Order::Big,
            true,
            4,
            2,
            0xFF,
            Some(Stop::Misaligned(2)),
            0xFF,
            0x0102_0304_0506_0708,
        ),
        (
            Order::Big,
            true,
            8,
            12,
            0xFF,
            Some(Stop::Misaligned(12)),
            0xFF,
            0x0102_0304_0506_0708,
        ),
        (
            Order::Big,
            false,
            4,
            6,
            0xFF,
            Some(Stop::MemoryFault(8)),
            0xFF,
            0x0102_0304_0506_0708,
        ),
        (
            Order::Little,
            false,
            2,
            0xFFFF_FFFF,
            0xFF,
            Some(Stop::MemoryFault(0xFFFF_FFFF)),
            0xFF,
            0x0102_0304_0506_0708,
        ),
    ] {
        let steps = [
            (None, Step::Wide(n)),
            (None, Step::Store(bytes, at)),
            (None, Step::Load(bytes, at)),
        ];
        let end = perform(alloc, order, align, &steps)?.ok_or("an instruction")?;
        assert_eq!(rt; end.effect.stop, stop, "{bytes} bytes at {at}");
        assert_eq!(rt;
            end.cells.values.get(4).copied(),
            Some(loaded),
            "{bytes} bytes at {at}"
        );
        assert_eq!(rt;
            end.space.load(Order::Big, 8, 0),
            Ok(left),
            "{bytes} bytes at {at}"
        );
    }
    Ok(())
}

#[test]
fn guards_and_stops_end_what_is_behind(rt: HostRuntime) -> Result<(), Fail> {
    let alloc = rt.alloc();
    let passed = perform(
        alloc,
        Order::Big,
        true,
        &[
            (Some(false), Step::Divide(0)),
            (Some(true), Step::Set(1, 5)),
        ],
    )?
    .ok_or("an instruction")?;
    assert_eq!(rt; passed.effect.stop, None);
    assert_eq!(rt;
        passed.cells.values.as_slice(),
        [0, 5, 12, 13, 14].as_slice()
    );
    let divided = perform(
        alloc,
        Order::Big,
        true,
        &[(Some(true), Step::Divide(0)), (None, Step::Set(1, 5))],
    )?
    .ok_or("an instruction")?;
    assert_eq!(rt; divided.effect.stop, Some(Stop::Divide(0x40)));
    assert_eq!(rt;
        divided.cells.values.as_slice(),
        [0, 11, 12, 13, 14].as_slice()
    );
    let trapped = perform(
        alloc,
        Order::Big,
        true,
        &[
            (None, Step::Set(1, 5)),
            (None, Step::Plain(Plain::Trap(7))),
            (None, Step::Set(2, 6)),
            (None, Step::Plain(Plain::Jump(0x100))),
        ],
    )?
    .ok_or("an instruction")?;
    assert_eq!(rt;
        trapped.effect,
        Effect {
            jump: None,
            annul: false,
            service: false,
            stop: Some(Stop::Trap(7))
        }
    );
    assert_eq!(rt;
        trapped.cells.values.as_slice(),
        [0, 5, 12, 13, 14].as_slice()
    );
    Ok(())
}

#[test]
fn an_effect_tells_what_was_done(rt: HostRuntime) -> Result<(), Fail> {
    let end = perform(
        rt.alloc(),
        Order::Big,
        true,
        &[
            (None, Step::Plain(Plain::Jump(0x100))),
            (None, Step::Plain(Plain::Annul)),
            (None, Step::Set(0, 9)),
            (None, Step::Middle(0xAB)),
            (None, Step::Plain(Plain::Service)),
        ],
    )?
    .ok_or("an instruction")?;
    assert_eq!(rt;
        end.effect,
        Effect {
            jump: Some(0x100),
            annul: true,
            service: true,
            stop: None
        }
    );
    assert_eq!(rt;
        end.cells.values.as_slice(),
        [0, 11, 12, 13, 0xAB0E].as_slice()
    );
    Ok(())
}

#[test]
fn windows_are_saved_and_restored(rt: HostRuntime) -> Result<(), Fail> {
    let alloc = rt.alloc();
    let inside = perform(
        alloc,
        Order::Big,
        true,
        &[
            (None, Step::Set(1, 21)),
            (None, Step::Plain(Plain::Save)),
            (None, Step::Set(1, 22)),
        ],
    )?
    .ok_or("an instruction")?;
    assert_eq!(rt;
        inside.cells.values.as_slice(),
        [0, 22, 0, 21, 14].as_slice()
    );
    assert_eq!(rt; inside.saved, 1);
    let back = perform(
        alloc,
        Order::Big,
        true,
        &[
            (None, Step::Set(1, 21)),
            (None, Step::Plain(Plain::Save)),
            (None, Step::Set(1, 22)),
            (None, Step::Set(2, 23)),
            (None, Step::Set(3, 24)),
            (None, Step::Plain(Plain::Restore)),
        ],
    )?
    .ok_or("an instruction")?;
    assert_eq!(rt;
        back.cells.values.as_slice(),
        [0, 24, 12, 13, 14].as_slice()
    );
    assert_eq!(rt; back.saved, 0);
    let empty = perform(
        alloc,
        Order::Big,
        true,
        &[(None, Step::Plain(Plain::Restore)), (None, Step::Set(1, 5))],
    )?
    .ok_or("an instruction")?;
    assert_eq!(rt; empty.effect.stop, Some(Stop::WindowEmpty));
    assert_eq!(rt;
        empty.cells.values.as_slice(),
        [0, 11, 12, 13, 14].as_slice()
    );
    Ok(())
}

#[test]
fn the_65537th_save_is_full(rt: HostRuntime) -> Result<(), Fail> {
    let alloc = rt.alloc();
    let steps = vec![in alloc; (None, Step::Plain(Plain::Save)); 65_537]?;
    let end = perform(alloc, Order::Big, true, &steps)?.ok_or("an instruction")?;
    assert_eq!(rt; end.effect.stop, Some(Stop::WindowFull));
    assert_eq!(rt; end.saved, 65_536);
    Ok(())
}

#[test]
fn an_expression_of_256_nodes_has_a_value(rt: HostRuntime) -> Result<(), Fail> {
    let end = perform(rt.alloc(), Order::Big, true, &[(None, Step::Turn(255))])?;
    let end = end.ok_or("an instruction")?;
    assert_eq!(rt; end.cells.values.get(4).copied(), Some(!14));
    Ok(())
}
