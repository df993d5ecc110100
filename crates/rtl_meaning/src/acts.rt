//! The transfers of one instruction, done in order.
ghost use Rattle.std.specs.Prelude.{◌≡◌, ◌≤◌, ◌+◌, ◌-◌, ◌^◌, ◌<◌, ℕ, List, All};
ghost use Rattle.rtl_core.specs.declared.transfer.Act.{Act};
ghost use Rattle.rtl_core.specs.declared.transfer.Transfer.{Transfer};
ghost use Rattle.rtl_core.specs.Arithmetic.{with_bits as bits_put};
ghost use Rattle.rtl_core.specs.SoundTerms.{AreWidths, HasWidth, IsSoundTerm, IsSoundAct, IsSoundGuard, IsSoundTransfer, Fit};
ghost use Rattle.rtl_core.specs.Terms.{term_of};
ghost use Rattle.rtl_core.specs.Transfers.{acted, transferred, all_transferred, fresh, stop_of as stop_for};
ghost use Rattle.rtl_core.specs.Value.{value_of};
ghost use Rattle.rtl_meaning.specs.declared.effect.Effect.{Effect};
ghost use Rattle.rtl_meaning.specs.Effects.{doing, finished, ended, guided, or_stop};
ghost use Rattle.rtl_meaning.specs.Saved.{Fits};

use crate::arithmetic::bits;
use crate::effect::Effect;
use crate::evaluation::eval;
use crate::window_moves::{restore, save};
use crate::windows::Windows;
use rtl_core::{Act, Cells, Expr, GroundInst, Machine, Memory, Stop, Transfer, Trap, store};

/// Does the transfers of the instruction at `pc`, in order, up to the first stop. The transfers are those of a ground instruction of
/// the machine, whose windows are well formed; the cells fit the machine, and the saved windows are its own.
///
/// A transfer whose guard is 0 does nothing, and its parts are not evaluated. `stop` is that of the first trap, save or restore that
/// could not be done: `MemoryFault` and `Misaligned` as `load` and `store` tell them, `Divide` with `pc`, `Trap` with its number,
/// `WindowFull` where 65,536 windows are saved, `WindowEmpty` where none is. What transfers before it did stays done; a store that
/// stops writes nothing. What is put into the zero cell is dropped. No memory is taken.
pub fn run_acts<M: Memory>(
    machine: &Machine,
    inst: &GroundInst,
    pc: u32,
    cells: &mut Cells,
    mem: &mut M,
    windows: &mut Windows,
) -> Effect
    requires fits { Fits machine.now cells.old.values windows.old }
    requires sound { All (IsSoundTransfer machine.now) inst.now.transfers }
    requires whole { M.whole mem.old }
    requires ready { M.ready mem.old }
    ensures exact { all_transferred machine.now pc inst.now.transfers (fresh cells.old.values (M.contents mem.old) windows.old)
        ≡ finished result.stop (doing cells.new.values (M.contents mem.new) windows.new result) }
    ensures fits { Fits machine.now cells.new.values windows.new }
    ensures whole { M.whole mem.new }
    ensures ready { M.ready mem.new }
    ensures follows { M.follows mem.old mem.new }
{
    let mut effect = Effect {
        jump: None,
        annul: false,
        service: false,
        stop: None,
    };
    let transfers = inst.transfers.as_slice();
    match run_all(machine, pc, transfers, cells, mem, windows, &mut effect) {
        Ok(()) => Effect {
            stop: None,
            ..effect
        },
        Err(stop) => Effect {
            stop: Some(stop),
            ..effect
        },
    }
}

/// Transfers in order, up to the first stop, which is the error.
fn run_all<M: Memory>(
    machine: &Machine,
    pc: u32,
    transfers: &[Transfer],
    cells: &mut Cells,
    mem: &mut M,
    windows: &mut Windows,
    effect: &mut Effect,
) -> Result<(), Stop>
    requires fits { Fits machine.now cells.old.values windows.old }
    requires sound { All (IsSoundTransfer machine.now) transfers.now }
    requires whole { M.whole mem.old }
    requires ready { M.ready mem.old }
    ensures exact { all_transferred machine.now pc transfers.now (doing cells.old.values (M.contents mem.old) windows.old effect.old)
        ≡ ended result (doing cells.new.values (M.contents mem.new) windows.new effect.new) }
    ensures fits { Fits machine.now cells.new.values windows.new }
    ensures whole { M.whole mem.new }
    ensures ready { M.ready mem.new }
    ensures follows { M.follows mem.old mem.new }
{
    for transfer in transfers {
        run_one(machine, pc, transfer, cells, mem, windows, effect)?;
    }
    Ok(())
}

/// One transfer: its act, where its guard allows it.
fn run_one<M: Memory>(
    machine: &Machine,
    pc: u32,
    transfer: &Transfer,
    cells: &mut Cells,
    mem: &mut M,
    windows: &mut Windows,
    effect: &mut Effect,
) -> Result<(), Stop>
    requires fits { Fits machine.now cells.old.values windows.old }
    requires sound { IsSoundTransfer machine.now transfer.now }
    requires whole { M.whole mem.old }
    requires ready { M.ready mem.old }
    ensures exact { transferred machine.now pc transfer.now.guard transfer.now.act (doing cells.old.values (M.contents mem.old) windows.old effect.old)
        ≡ ended result (doing cells.new.values (M.contents mem.new) windows.new effect.new) }
    ensures whole { M.whole mem.new }
    ensures ready { M.ready mem.new }
    ensures follows { M.follows mem.old mem.new }
{
    if !is_allowed(machine, pc, &transfer.guard, cells, mem)? {
        return Ok(());
    }
    run_act(machine, pc, &transfer.act, cells, mem, windows, effect)
}

/// Whether a guard allows its act.
fn is_allowed<M: Memory>(
    machine: &Machine,
    pc: u32,
    guard: &Option<Expr>,
    cells: &Cells,
    mem: &M,
) -> Result<bool, Stop>
    requires whole { M.whole mem.now }
    requires widths { AreWidths machine.now.widths }
    requires sound { IsSoundGuard machine.now.widths guard.now }
    requires fit { Fit machine.now cells.now.values }
    ensures { (act : Act) (saved : List (List ℕ)) (effect : Effect) →
        transferred machine.now pc guard.now act (doing cells.now.values (M.contents mem.now) saved effect)
        ≡ guided result (doing cells.now.values (M.contents mem.now) saved effect) (acted machine.now pc act (doing cells.now.values (M.contents mem.now) saved effect)) }
{
    match guard {
        None => Ok(true),
        Some(e) => {
            let n = value(machine, pc, e, cells, mem)?;
            Ok(n != 0)
        }
    }
}

/// One act.
fn run_act<M: Memory>(
    machine: &Machine,
    pc: u32,
    act: &Act,
    cells: &mut Cells,
    mem: &mut M,
    windows: &mut Windows,
    effect: &mut Effect,
) -> Result<(), Stop>
    requires fits { Fits machine.now cells.old.values windows.old }
    requires sound { IsSoundAct machine.now act.now }
    requires whole { M.whole mem.old }
    requires ready { M.ready mem.old }
    ensures exact { acted machine.now pc act.now (doing cells.old.values (M.contents mem.old) windows.old effect.old)
        ≡ ended result (doing cells.new.values (M.contents mem.new) windows.new effect.new) }
    ensures whole { M.whole mem.new }
    ensures ready { M.ready mem.new }
    ensures follows { M.follows mem.old mem.new }
{
    match act {
        Act::SetCell(cell, e) => set_cell(machine, pc, *cell, e, cells, mem),
        Act::SetSlice(cell, lo, hi, e) => set_slice(machine, pc, *cell, *lo, *hi, e, cells, mem),
        Act::Store(bytes, address, e) => store_at(machine, pc, *bytes, address, e, cells, mem),
        Act::Jump(e) => jump(machine, pc, e, cells, mem, effect),
        Act::Annul => {
            effect.annul = true;
            Ok(())
        }
        Act::Trap(e) => trap(machine, pc, e, cells, mem),
        Act::Service => {
            effect.service = true;
            Ok(())
        }
        Act::WinSave => save(machine, cells, windows),
        Act::WinRestore => restore(machine, cells, windows),
    }
}

/// Assigns a cell.
fn set_cell<M: Memory>(
    machine: &Machine,
    pc: u32,
    cell: u8,
    e: &Expr,
    cells: &mut Cells,
    mem: &M,
) -> Result<(), Stop>
    requires whole { M.whole mem.now }
    requires widths { AreWidths machine.now.widths }
    requires sound { IsSoundAct machine.now (Act.SetCell cell e.now) }
    requires fit { Fit machine.now cells.old.values }
    ensures { (saved : List (List ℕ)) (effect : Effect) →
        acted machine.now pc (Act.SetCell cell e.now) (doing cells.old.values (M.contents mem.now) saved effect)
        ≡ ended result (doing cells.new.values (M.contents mem.now) saved effect) }
{
    let v = value(machine, pc, e, cells, mem)?;
    cells.put(machine.zero, cell, v);
    Ok(())
}

/// Assigns bits of a cell.
fn set_slice<M: Memory>(
    machine: &Machine,
    pc: u32,
    cell: u8,
    lo: u8,
    hi: u8,
    e: &Expr,
    cells: &mut Cells,
    mem: &M,
) -> Result<(), Stop>
    requires whole { M.whole mem.now }
    requires widths { AreWidths machine.now.widths }
    requires sound { IsSoundAct machine.now (Act.SetSlice cell lo hi e.now) }
    requires fit { Fit machine.now cells.old.values }
    ensures { (saved : List (List ℕ)) (effect : Effect) →
        acted machine.now pc (Act.SetSlice cell lo hi e.now) (doing cells.old.values (M.contents mem.now) saved effect)
        ≡ ended result (doing cells.new.values (M.contents mem.now) saved effect) }
{
    let v = value(machine, pc, e, cells, mem)?;
    let before = cells.values.as_slice()[cell as usize];
    cells.put(machine.zero, cell, with_bits(lo, hi, before, v));
    Ok(())
}

/// Stores so many bytes: the address first, then the value.
fn store_at<M: Memory>(
    machine: &Machine,
    pc: u32,
    bytes: u8,
    address: &Expr,
    e: &Expr,
    cells: &Cells,
    mem: &mut M,
) -> Result<(), Stop>
    requires whole { M.whole mem.old }
    requires ready { M.ready mem.old }
    requires widths { AreWidths machine.now.widths }
    requires sound { IsSoundAct machine.now (Act.Store bytes address.now e.now) }
    requires fit { Fit machine.now cells.now.values }
    ensures exact { (saved : List (List ℕ)) (effect : Effect) →
        acted machine.now pc (Act.Store bytes address.now e.now) (doing cells.now.values (M.contents mem.old) saved effect)
        ≡ ended result (doing cells.now.values (M.contents mem.new) saved effect) }
    ensures whole { M.whole mem.new }
    ensures ready { M.ready mem.new }
    ensures follows { M.follows mem.old mem.new }
{
    let at = value(machine, pc, address, cells, mem)?;
    let v = value(machine, pc, e, cells, mem)?;
    match store(mem, machine.order, machine.align, bytes, at, v) {
        Ok(()) => Ok(()),
        Err(trap) => Err(stop_of(pc, trap)),
    }
}

/// Notes a jump.
fn jump<M: Memory>(
    machine: &Machine,
    pc: u32,
    e: &Expr,
    cells: &Cells,
    mem: &M,
    effect: &mut Effect,
) -> Result<(), Stop>
    requires whole { M.whole mem.now }
    requires widths { AreWidths machine.now.widths }
    requires sound { HasWidth machine.now.widths e.now 32 }
    requires fit { Fit machine.now cells.now.values }
    ensures { (saved : List (List ℕ)) →
        acted machine.now pc (Act.Jump e.now) (doing cells.now.values (M.contents mem.now) saved effect.old)
        ≡ ended result (doing cells.now.values (M.contents mem.now) saved effect.new) }
{
    let target = word(machine, pc, e, cells, mem)?;
    effect.jump = Some(target);
    Ok(())
}

/// The stop of a trap.
fn trap<M: Memory>(machine: &Machine, pc: u32, e: &Expr, cells: &Cells, mem: &M) -> Result<(), Stop>
    requires whole { M.whole mem.now }
    requires widths { AreWidths machine.now.widths }
    requires sound { HasWidth machine.now.widths e.now 32 }
    requires fit { Fit machine.now cells.now.values }
    ensures { (saved : List (List ℕ)) (effect : Effect) →
        acted machine.now pc (Act.Trap e.now) (doing cells.now.values (M.contents mem.now) saved effect)
        ≡ ended result (doing cells.now.values (M.contents mem.now) saved effect) }
{
    let number = word(machine, pc, e, cells, mem)?;
    Err(Stop::Trap(number))
}

/// The value of an expression of 32 bits, or the stop of its trap.
fn word<M: Memory>(
    machine: &Machine,
    pc: u32,
    e: &Expr,
    cells: &Cells,
    mem: &M,
) -> Result<u32, Stop>
    requires whole { M.whole mem.now }
    requires widths { AreWidths machine.now.widths }
    requires sound { HasWidth machine.now.widths e.now 32 }
    requires fit { Fit machine.now cells.now.values }
    ensures { result ≡ or_stop pc (value_of machine.now cells.now.values (M.contents mem.now) (term_of e.now)) }
{
    let v = value(machine, pc, e, cells, mem)?;
    Ok(v as u32)
}

/// The value of an expression, or the stop that its trap makes of the instruction at `pc`.
fn value<M: Memory>(
    machine: &Machine,
    pc: u32,
    e: &Expr,
    cells: &Cells,
    mem: &M,
) -> Result<u64, Stop>
    requires whole { M.whole mem.now }
    requires widths { AreWidths machine.now.widths }
    requires sound { IsSoundTerm machine.now.widths (term_of e.now) }
    requires fit { Fit machine.now cells.now.values }
    ensures { result ≡ or_stop pc (value_of machine.now cells.now.values (M.contents mem.now) (term_of e.now)) }
{
    match eval(machine, e, cells, mem) {
        Ok(v) => Ok(v),
        Err(trap) => Err(stop_of(pc, trap)),
    }
}

/// The stop that a trap makes of the instruction at `pc`.
fn stop_of(pc: u32, trap: Trap) -> Stop
    ensures { result ≡ stop_for pc trap }
{
    match trap {
        Trap::Memory(a) => Stop::MemoryFault(a),
        Trap::Misaligned(a) => Stop::Misaligned(a),
        Trap::Divide => Stop::Divide(pc),
    }
}

/// The number `x` with its bits `lo` to `hi`, both included, taken out and `v` put in.
#[tactic(auto, using(crate::proofs::ActSteps::bit_laws))]
pub fn with_bits(lo: u8, hi: u8, x: u64, v: u64) -> u64
    requires order { lo ≤ hi }
    requires within { hi < 64 }
    requires value { v < 2 ^ (hi + 1 - lo) }
    ensures { result ≡ bits_put lo hi x v }
{
    let unit = 1u64 << lo;
    x - bits(lo, hi, x) * unit + v * unit
}
