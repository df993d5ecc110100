//! The cells that a block names, and those that it may assign, put at the end of a list.
ghost use Rattle.std.specs.Prelude.{◌≡◌, ◌+◌, ◌^◌, ◌≤◌, ◌++◌, OnOk};
ghost use Rattle.points.specs.Summaries.{expr_cells, guard_cells, cells_in_row, window_cells, answer_cells, service_cells, act_names, act_assigns, transfers_name, transfers_assign, block_names, block_assigns};

use points::Block;
use rtl_core::{Act, Conv, Expr, Machine, ServiceShape, Transfer, WinShape};
use sqlite_items::Items;
use std::alloc::AllocError;

/// The cells that what stands at an address names. The error is want of memory.
pub fn add_names(
    cells: &mut Items<u32>,
    machine: &Machine,
    conv: &Conv,
    block: &Block,
) -> Result<(), AllocError>
    ensures { OnOk result (cells.new ≡ cells.old ++ block_names machine.now conv.now block.now) }
{
    match block {
        Block::Outside | Block::Illegal => Ok(()),
        Block::Inst(inst, _) => add_transfers(cells, machine, conv, inst.transfers.as_slice()),
    }
}

/// The cells that transfers name.
fn add_transfers(
    cells: &mut Items<u32>,
    machine: &Machine,
    conv: &Conv,
    transfers: &[Transfer],
) -> Result<(), AllocError>
    ensures { OnOk result (cells.new ≡ cells.old ++ transfers_name machine.now conv.now transfers.now) }
{
    for transfer in transfers {
        add_guard(cells, &transfer.guard)?;
        add_act(cells, machine, conv, &transfer.act)?;
    }
    Ok(())
}

/// The cells that what stands at an address may assign. The error is want of memory.
pub fn add_assigned(
    cells: &mut Items<u32>,
    machine: &Machine,
    conv: &Conv,
    block: &Block,
) -> Result<(), AllocError>
    ensures { OnOk result (cells.new ≡ cells.old ++ block_assigns machine.now conv.now block.now) }
{
    match block {
        Block::Outside | Block::Illegal => Ok(()),
        Block::Inst(inst, _) => add_all_assigned(cells, machine, conv, inst.transfers.as_slice()),
    }
}

/// The cells that transfers may assign.
fn add_all_assigned(
    cells: &mut Items<u32>,
    machine: &Machine,
    conv: &Conv,
    transfers: &[Transfer],
) -> Result<(), AllocError>
    ensures { OnOk result (cells.new ≡ cells.old ++ transfers_assign machine.now conv.now transfers.now) }
{
    for transfer in transfers {
        add_assigned_by(cells, machine, conv, &transfer.act)?;
    }
    Ok(())
}

/// The cells that an act names.
fn add_act(
    cells: &mut Items<u32>,
    machine: &Machine,
    conv: &Conv,
    act: &Act,
) -> Result<(), AllocError>
    ensures { OnOk result (cells.new ≡ cells.old ++ act_names machine.now conv.now act.now) }
{
    match act {
        Act::SetCell(c, e) | Act::SetSlice(c, _, _, e) => {
            cells.push(u32::from(*c))?;
            add_expr(cells, e)
        }
        Act::Store(_, address, value) => {
            add_expr(cells, address)?;
            add_expr(cells, value)?;
            Ok(())
        }
        Act::Jump(e) | Act::Trap(e) => add_expr(cells, e),
        Act::Annul => Ok(()),
        Act::Service => add_service(cells, conv.service),
        Act::WinSave | Act::WinRestore => add_windows(cells, machine.windows),
    }
}

/// The cells that an act may assign.
fn add_assigned_by(
    cells: &mut Items<u32>,
    machine: &Machine,
    conv: &Conv,
    act: &Act,
) -> Result<(), AllocError>
    ensures { OnOk result (cells.new ≡ cells.old ++ act_assigns machine.now conv.now act.now) }
{
    match act {
        Act::SetCell(c, _) | Act::SetSlice(c, _, _, _) => cells.push(u32::from(*c)),
        Act::Service => add_answer(cells, conv.service),
        Act::WinSave | Act::WinRestore => add_windows(cells, machine.windows),
        Act::Store(_, _, _) | Act::Jump(_) | Act::Annul | Act::Trap(_) => Ok(()),
    }
}

/// The cells of a guard.
fn add_guard(cells: &mut Items<u32>, guard: &Option<Expr>) -> Result<(), AllocError>
    ensures { OnOk result (cells.new ≡ cells.old ++ guard_cells guard.now) }
{
    match guard {
        None => Ok(()),
        Some(e) => add_expr(cells, e),
    }
}

/// The cells of an expression.
#[tactic(auto, using(crate::proofs::CellLists::expr_laws))]
fn add_expr(cells: &mut Items<u32>, e: &Expr) -> Result<(), AllocError>
    ensures { OnOk result (cells.new ≡ cells.old ++ expr_cells e.now) }
{
    match e {
        Expr::Const(_, _) => Ok(()),
        Expr::Cell(c) => cells.push(u32::from(*c)),
        Expr::Load(_, a)
        | Expr::Un(_, a)
        | Expr::Slice(a, _, _)
        | Expr::Zext(_, a)
        | Expr::Sext(_, a) => add_expr(cells, a.get()),
        Expr::Bin(_, a, b) => {
            add_expr(cells, a.get())?;
            add_expr(cells, b.get())?;
            Ok(())
        }
        Expr::If(c, a, b) => {
            add_expr(cells, c.get())?;
            add_expr(cells, a.get())?;
            add_expr(cells, b.get())?;
            Ok(())
        }
    }
}

/// The cells that a service reads or assigns.
fn add_service(cells: &mut Items<u32>, service: Option<ServiceShape>) -> Result<(), AllocError>
    ensures { OnOk result (cells.new ≡ cells.old ++ service_cells service) }
{
    if let Some(shape) = service {
        cells.push(u32::from(shape.number))?;
        cells.push(u32::from(shape.arg_x))?;
        cells.push(u32::from(shape.arg_y))?;
        cells.push(u32::from(shape.arg_z))?;
    }
    add_answer(cells, service)
}

/// The cells that a service assigns.
fn add_answer(cells: &mut Items<u32>, service: Option<ServiceShape>) -> Result<(), AllocError>
    ensures { OnOk result (cells.new ≡ cells.old ++ answer_cells service) }
{
    if let Some(shape) = service {
        cells.push(u32::from(shape.result))?;
        if let Some(error) = shape.error {
            cells.push(u32::from(error))?;
        }
    }
    Ok(())
}

/// The cells of register windows.
fn add_windows(cells: &mut Items<u32>, windows: Option<WinShape>) -> Result<(), AllocError>
    ensures { OnOk result (cells.new ≡ cells.old ++ window_cells windows) }
{
    match windows {
        None => Ok(()),
        Some(shape) => {
            add_row(cells, u32::from(shape.out_first), u32::from(shape.count))?;
            add_row(cells, u32::from(shape.local_first), u32::from(shape.count))?;
            add_row(cells, u32::from(shape.in_first), u32::from(shape.count))?;
            Ok(())
        }
    }
}

/// So many cells from the first on.
pub fn add_row(cells: &mut Items<u32>, first: u32, count: u32) -> Result<(), AllocError>
    requires { first + count ≤ 2 ^ 32 }
    ensures { OnOk result (cells.new ≡ cells.old ++ cells_in_row first count) }
{
    for i in 0..count {
        cells.push(first + i)?;
    }
    Ok(())
}
