//! The statements of a service.
ghost use Rattle.std.specs.Prelude.{◌≡◌, ◌++◌, [], OnOk, IfOk};
ghost use Rattle.rtl_core.specs.SoundTerms.{is_service};
ghost use Rattle.c_control.specs.Services.{does, flag_c, served_c, service_c};

use c_lang::{CExpr, Stmt, Var};
use c_lower::{cell, set_cell};
use rtl_core::{Act, Conv, Machine, ServiceShape, Transfer};
use sqlite_items::Items;
use std::alloc::{AllocError, Global};

/// Pushes the service where one is due, for an instruction that can have one.
pub(crate) fn push_service(
    alloc: Global,
    out: &mut Items<Stmt>,
    machine: &Machine,
    conv: &Conv,
    transfers: &[Transfer],
) -> Result<(), AllocError>
    ensures { OnOk result (out.new ≡ out.old ++ served_c machine.now conv.now transfers.now []) }
{
    if !has_service(transfers) {
        return Ok(());
    }
    match conv.service {
        None => Ok(()),
        Some(shape) => {
            let served = service(alloc, machine, shape)?;
            out.push(Stmt::If(CExpr::Of(Var::Temp(3)), served))
        }
    }
}

/// Whether some transfer is a service.
fn has_service(transfers: &[Transfer]) -> bool
    ensures { result ≡ does is_service transfers.now }
{
    transfers
        .iter()
        .any(|transfer| calls_service(&transfer.act))
}

fn calls_service(act: &Act) -> bool
    ensures { result ≡ is_service act.now }
{
    matches!(act, Act::Service)
}

/// The call of the service, and its answer into the cells.
fn service(alloc: Global, machine: &Machine, shape: ServiceShape) -> Result<Items<Stmt>, AllocError>
    ensures { IfOk result (λ out. out ≡ service_c machine.now.zero shape []) }
{
    let mut out = Items::new(alloc);
    out.push(Stmt::Serve(
        cell(machine, shape.number),
        cell(machine, shape.arg_x),
        cell(machine, shape.arg_y),
        cell(machine, shape.arg_z),
    ))?;
    set_cell(&mut out, machine, shape.result, CExpr::Of(Var::ServeR))?;
    push_flag(&mut out, machine, shape.error)?;
    Ok(out)
}

/// Pushes the error flag of a service into its cell, where there is one.
fn push_flag(out: &mut Items<Stmt>, machine: &Machine, flag: Option<u8>) -> Result<(), AllocError>
    ensures { OnOk result (out.new ≡ out.old ++ flag_c machine.now.zero flag []) }
{
    match flag {
        None => Ok(()),
        Some(flag) => set_cell(out, machine, flag, CExpr::Of(Var::ServeE)),
    }
}
