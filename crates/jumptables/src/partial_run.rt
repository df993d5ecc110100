//! Partial runs: instructions over cells of which some are unknown. No run takes memory.
ghost use Rattle.std.specs.Prelude.{ℕ, Bool, ◌≡◌, ◌≢◌, ◌<◌, ◌≤◌, ◌^◌, ◌+◌, ◌-◌, Some, IfSome, IfOk, length, replicate, false, nat_lt, slice_index, slice_set, true};
ghost use Rattle.std.specs.List.{All};
ghost use Rattle.rtl_core.specs.Terms.{term_of, width_of};
ghost use Rattle.rtl_core.specs.SoundTerms.{HasWidth, IsSoundTerm, IsSoundAct, IsSoundGuard, IsSoundTransfer};
ghost use Rattle.points.specs.PartialRuns.{forgets, puts, puts_bits, value_with_bits, value_in, guard_in, forgets_from, forgets_windows, forgets_flag, forgets_answer, act_done, act_unsure, act_not_done, act_by, partly_transferred, partly_done, ended_at, knowing_only, with_zero_known};
ghost use Rattle.points.specs.Bundles.{setting_of};
ghost use Rattle.jumptables.specs.Mentions.{knowing_zero};
ghost use Rattle.jumptables.specs.Runs.{state, end_of, HasRoom, IsWhole, IsThere, AreAssigned, AreGroups, IsReady};

use crate::values::known_value;
use decode::Bundle;
use rtl_core::{Act, Cells, Expr, GroundInst, Machine, Transfer};
use rtl_meaning::with_bits;
use sqlite_items::Items;
use std::alloc::{AllocError, Global};

/// A partial run on its way: the cells' values and which of them are known, whether a jump before was taken, whether
/// some jump was not, whether the next instruction is passed over, and the target of the last jump.
#[derive(Drop)]
pub struct PartialRun {
    pub cells: Cells,
    pub known: Items<bool>,
    pub taken: bool,
    pub untaken: bool,
    pub passes: bool,
    pub target: Option<u32>,
}

/// What a partial run comes to: whether a jump before the last instruction was taken, whether some jump was not, and the
/// target of the last instruction, where it is known.
#[derive(Clone, Copy)]
pub struct RunEnd {
    pub leaves: bool,
    pub untaken: bool,
    pub target: Option<u32>,
}

impl PartialRun {
    /// Room for runs over a machine's cells.
    pub fn new(alloc: Global, machine: &Machine) -> Result<PartialRun, AllocError>
        ensures { IfOk result (λ run. HasRoom machine.now (state run)) }
    {
        let mut values = Items::new(alloc);
        let mut known = Items::new(alloc);
        for k in 0..machine.widths.len() {
            values.push(0)?;
            known.push(false)?;
        }
        Ok(PartialRun {
            cells: Cells { values },
            known,
            taken: false,
            untaken: false,
            passes: false,
            target: None,
        })
    }

    /// A run starts in which one cell has a number, the zero cell 0, and no other is known.
    pub fn begin(&mut self, on: &Bundle, cell: u8, x: u64)
        requires ready { IsReady (setting_of on.now) }
        requires cell { cell < length on.now.machine.now.widths }
        requires not_zero { on.now.machine.now.zero ≢ Some cell }
        requires small { x < 2 ^ slice_index on.now.machine.now.widths cell }
        requires room { HasRoom on.now.machine.now (state self.old) }
        ensures starts { state self.new ≡ knowing_only (setting_of on.now) cell x }
        ensures whole { IsWhole on.now.machine.now (state self.new) }
    {
        self.know_only(on, cell, x);
    }

    fn know_only(&mut self, on: &Bundle, cell: u8, x: u64)
        requires zero { IsThere on.now.machine.now on.now.machine.now.zero }
        requires cell { cell < length on.now.machine.now.widths }
        requires room { HasRoom on.now.machine.now (state self.old) }
        ensures { state self.new ≡ knowing_only (setting_of on.now) cell x }
    {
        self.know_zero(on);
        self.cells.values.set(usize::from(cell), x);
        self.known.set(usize::from(cell), true);
    }

    /// A run starts in which the zero cell alone is known.
    pub fn begin_idly(&mut self, on: &Bundle)
        requires ready { IsReady (setting_of on.now) }
        requires room { HasRoom on.now.machine.now (state self.old) }
        ensures starts { state self.new ≡ knowing_zero (setting_of on.now) }
        ensures whole { IsWhole on.now.machine.now (state self.new) }
    {
        self.know_zero(on);
    }

    fn know_zero(&mut self, on: &Bundle)
        requires zero { IsThere on.now.machine.now on.now.machine.now.zero }
        requires room { HasRoom on.now.machine.now (state self.old) }
        ensures { state self.new ≡ knowing_zero (setting_of on.now) }
    {
        self.clear();
        if let Some(zero) = on.machine.zero {
            self.known.set(usize::from(zero), true);
        }
        self.taken = false;
        self.untaken = false;
        self.passes = false;
        self.target = None;
    }

    /// Every cell is 0 and unknown.
    fn clear(&mut self)
        requires { length self.old.known ≡ length self.old.cells.values }
        ensures values { self.new.cells.values ≡ replicate (length self.old.cells.values) 0 }
        ensures known { self.new.known ≡ replicate (length self.old.known) false }
    {
        for k in 0..self.known.len() {
            self.cells.values.set(k, 0);
            self.known.set(k, false);
        }
    }

    /// No run: one cell has a flag, and no other.
    pub fn flag_only(&mut self, cell: u8)
        requires count { length self.old.known ≡ length self.old.cells.values }
        requires cell { cell < length self.old.known }
        ensures flags { self.new.known ≡ slice_set (replicate (length self.old.known) false) cell true }
        ensures values { length self.new.cells.values ≡ length self.old.cells.values }
    {
        self.clear();
        self.known.set(usize::from(cell), true);
    }

    /// An instruction before the last one: it is passed over, or done.
    pub fn pass_or_do(&mut self, on: &Bundle, inst: &GroundInst)
        requires ready { IsReady (setting_of on.now) }
        requires sound { All (IsSoundTransfer on.now.machine.now) inst.now.transfers }
        requires whole { IsWhole on.now.machine.now (state self.old) }
        ensures done { state self.new ≡ partly_done (setting_of on.now) inst.now (state self.old) }
        ensures whole { IsWhole on.now.machine.now (state self.new) }
    {
        if self.passes {
            self.passes = false;
        } else {
            self.transfer_all(on, inst.transfers.as_slice());
        }
    }

    /// The last instruction, the jump.
    pub fn end(&mut self, on: &Bundle, jump: &GroundInst) -> RunEnd
        requires ready { IsReady (setting_of on.now) }
        requires sound { All (IsSoundTransfer on.now.machine.now) jump.now.transfers }
        requires whole { IsWhole on.now.machine.now (state self.old) }
        ensures end { end_of result ≡ ended_at (setting_of on.now) jump.now (state self.old) }
        ensures whole { IsWhole on.now.machine.now (state self.new) }
    {
        if self.taken || self.passes {
            return RunEnd {
                leaves: self.taken,
                untaken: self.untaken,
                target: None,
            };
        }
        self.target = None;
        self.transfer_all(on, jump.transfers.as_slice());
        RunEnd {
            leaves: false,
            untaken: self.untaken,
            target: self.target,
        }
    }

    /// The transfers of an instruction, in order.
    fn transfer_all(&mut self, on: &Bundle, transfers: &[Transfer])
        requires ready { IsReady (setting_of on.now) }
        requires sound { All (IsSoundTransfer on.now.machine.now) transfers.now }
        requires whole { IsWhole on.now.machine.now (state self.old) }
        ensures transferred { state self.new ≡ partly_transferred (setting_of on.now) transfers.now (state self.old) }
        ensures whole { IsWhole on.now.machine.now (state self.new) }
    {
        for transfer in transfers {
            self.transfer(on, &transfer.guard, &transfer.act);
        }
    }

    /// One transfer, by what is known of its guard.
    fn transfer(&mut self, on: &Bundle, guard: &Option<Expr>, act: &Act)
        requires ready { IsReady (setting_of on.now) }
        requires guard { IsSoundGuard on.now.machine.now.widths guard.now }
        requires act { IsSoundAct on.now.machine.now act.now }
        requires whole { IsWhole on.now.machine.now (state self.old) }
        ensures done { state self.new ≡ act_by (setting_of on.now) (guard_in (setting_of on.now) (state self.old) guard.now) act.now (state self.old) }
        ensures whole { IsWhole on.now.machine.now (state self.new) }
    {
        match guard {
            None => self.act_done(on, act),
            Some(e) => match self.value(on, e) {
                None => self.act_unsure(on, act),
                Some(0) => self.act_not_done(on, act),
                Some(_) => self.act_done(on, act),
            },
        }
    }

    /// An act whose guard holds.
    fn act_done(&mut self, on: &Bundle, act: &Act)
        requires ready { IsReady (setting_of on.now) }
        requires sound { IsSoundAct on.now.machine.now act.now }
        requires whole { IsWhole on.now.machine.now (state self.old) }
        ensures done { state self.new ≡ act_done (setting_of on.now) act.now (state self.old) }
        ensures whole { IsWhole on.now.machine.now (state self.new) }
    {
        match act {
            Act::SetCell(cell, e) => {
                let value = self.value(on, e);
                self.put(on, *cell, value);
            }
            Act::SetSlice(cell, lo, hi, e) => {
                let value = self.value(on, e);
                self.put_bits(on, *cell, *lo, *hi, value);
            }
            Act::Jump(e) => {
                self.target = self.address(on, e);
                self.taken = true;
            }
            Act::Annul => self.passes = true,
            Act::Store(_, _, _) | Act::Trap(_) => {}
            Act::Service => self.forget_answer(on),
            Act::WinSave | Act::WinRestore => self.forget_windows(on),
        }
    }

    /// An act of whose guard nothing is known.
    fn act_unsure(&mut self, on: &Bundle, act: &Act)
        requires ready { IsReady (setting_of on.now) }
        requires sound { IsSoundAct on.now.machine.now act.now }
        requires whole { IsWhole on.now.machine.now (state self.old) }
        ensures done { state self.new ≡ act_unsure (setting_of on.now) act.now (state self.old) }
        ensures whole { IsWhole on.now.machine.now (state self.new) }
    {
        match act {
            Act::SetCell(cell, _) | Act::SetSlice(cell, _, _, _) => self.forget(on, *cell),
            Act::Jump(e) => self.target = self.address(on, e),
            Act::Annul | Act::Store(_, _, _) | Act::Trap(_) => {}
            Act::Service => self.forget_answer(on),
            Act::WinSave | Act::WinRestore => self.forget_windows(on),
        }
    }

    /// An act whose guard does not hold: of a jump that is remembered.
    fn act_not_done(&mut self, on: &Bundle, act: &Act)
        requires ready { IsReady (setting_of on.now) }
        requires sound { IsSoundAct on.now.machine.now act.now }
        requires whole { IsWhole on.now.machine.now (state self.old) }
        ensures done { state self.new ≡ act_not_done (setting_of on.now) act.now (state self.old) }
        ensures whole { IsWhole on.now.machine.now (state self.new) }
    {
        if let Act::Jump(e) = act {
            self.target = self.address(on, e);
            self.untaken = true;
        }
    }

    /// The value of an expression, where it is known.
    fn value(&self, on: &Bundle, e: &Expr) -> Option<u64>
        requires ready { IsReady (setting_of on.now) }
        requires sound { IsSoundTerm on.now.machine.now.widths (term_of e.now) }
        requires whole { IsWhole on.now.machine.now (state self.now) }
        ensures is { result ≡ value_in (setting_of on.now) (state self.now) e.now }
        ensures fits { IfSome result (λ v. v < 2 ^ width_of on.now.machine.now.widths (term_of e.now)) }
    {
        known_value(on.machine, on.frozen, &self.cells, self.known.as_slice(), e)
    }

    /// The value of an expression of 32 bits, where it is known.
    fn address(&self, on: &Bundle, e: &Expr) -> Option<u32>
        requires ready { IsReady (setting_of on.now) }
        requires sound { HasWidth on.now.machine.now.widths e.now 32 }
        requires whole { IsWhole on.now.machine.now (state self.now) }
        ensures { result ≡ value_in (setting_of on.now) (state self.now) e.now }
    {
        match self.value(on, e) {
            Some(value) => Some(value as u32),
            None => None,
        }
    }

    /// A cell becomes unknown; the zero cell stays.
    fn forget(&mut self, on: &Bundle, cell: u8)
        requires cell { cell < length on.now.machine.now.widths }
        requires whole { IsWhole on.now.machine.now (state self.old) }
        ensures forgets { state self.new ≡ forgets (setting_of on.now) cell (state self.old) }
        ensures whole { IsWhole on.now.machine.now (state self.new) }
    {
        if on.machine.zero != Some(cell) {
            self.known.set(usize::from(cell), false);
        }
    }

    /// A cell gets a value, or becomes unknown; the zero cell stays.
    fn put(&mut self, on: &Bundle, cell: u8, value: Option<u64>)
        requires cell { cell < length on.now.machine.now.widths }
        requires small { IfSome value (λ v. v < 2 ^ slice_index on.now.machine.now.widths cell) }
        requires whole { IsWhole on.now.machine.now (state self.old) }
        ensures puts { state self.new ≡ puts (setting_of on.now) cell value (state self.old) }
        ensures whole { IsWhole on.now.machine.now (state self.new) }
    {
        let Some(v) = value else {
            return self.forget(on, cell);
        };
        if on.machine.zero != Some(cell) {
            self.cells.values.set(usize::from(cell), v);
            self.known.set(usize::from(cell), true);
        }
    }

    /// Bits of a cell get a value, or the cell becomes unknown; an unknown cell stays unknown.
    fn put_bits(&mut self, on: &Bundle, cell: u8, lo: u8, hi: u8, value: Option<u64>)
        requires ready { IsReady (setting_of on.now) }
        requires cell { cell < length on.now.machine.now.widths }
        requires order { lo ≤ hi }
        requires within { hi < slice_index on.now.machine.now.widths cell }
        requires small { IfSome value (λ v. v < 2 ^ (hi + 1 - lo)) }
        requires whole { IsWhole on.now.machine.now (state self.old) }
        ensures puts { state self.new ≡ puts_bits (setting_of on.now) cell lo hi value (state self.old) }
        ensures whole { IsWhole on.now.machine.now (state self.new) }
    {
        let before = self.cells.values.as_slice()[usize::from(cell)];
        let known = self.known.as_slice()[usize::from(cell)];
        self.put(on, cell, value_with_bits(known, lo, hi, before, value));
    }

    /// So many cells from the first on become unknown.
    fn forget_from(&mut self, on: &Bundle, first: u8, count: u8)
        requires there { first + count ≤ length on.now.machine.now.widths }
        requires few { first + count < 256 }
        requires whole { IsWhole on.now.machine.now (state self.old) }
        ensures forgets { state self.new ≡ forgets_from (setting_of on.now) first count (state self.old) }
        ensures whole { IsWhole on.now.machine.now (state self.new) }
    {
        for k in 0..count {
            self.forget(on, first + k);
        }
    }

    /// The cells that a service assigns become unknown.
    fn forget_answer(&mut self, on: &Bundle)
        requires service { AreAssigned on.now.machine.now on.now.conv.now.service }
        requires whole { IsWhole on.now.machine.now (state self.old) }
        ensures forgets { state self.new ≡ forgets_answer (setting_of on.now) on.now.conv.now.service (state self.old) }
        ensures whole { IsWhole on.now.machine.now (state self.new) }
    {
        let service = on.conv.service;
        if let Some(shape) = service {
            self.forget(on, shape.result);
            if let Some(error) = shape.error {
                self.forget(on, error);
            }
        }
    }

    /// The cells that a move of the window assigns become unknown.
    fn forget_windows(&mut self, on: &Bundle)
        requires windows { AreGroups on.now.machine.now on.now.machine.now.windows }
        requires whole { IsWhole on.now.machine.now (state self.old) }
        ensures forgets { state self.new ≡ forgets_windows (setting_of on.now) on.now.machine.now.windows (state self.old) }
        ensures whole { IsWhole on.now.machine.now (state self.new) }
    {
        let windows = on.machine.windows;
        if let Some(w) = windows {
            self.forget_from(on, w.out_first, w.count);
            self.forget_from(on, w.local_first, w.count);
            self.forget_from(on, w.in_first, w.count);
        }
    }
}

/// A cell's value with some bits put in; nothing is known of it where the cell or the bits are unknown.
fn value_with_bits(known: bool, lo: u8, hi: u8, before: u64, value: Option<u64>) -> Option<u64>
    requires order { lo ≤ hi }
    requires within { hi < 64 }
    requires small { IfSome value (λ v. v < 2 ^ (hi + 1 - lo)) }
    ensures is { result ≡ value_with_bits known lo hi before value }
    ensures fits { (w : ℕ) → hi < w → before < 2 ^ w → IfSome result (λ v. v < 2 ^ w) }
{
    match value {
        Some(v) => {
            if known {
                Some(with_bits(lo, hi, before, v))
            } else {
                None
            }
        }
        None => None,
    }
}
