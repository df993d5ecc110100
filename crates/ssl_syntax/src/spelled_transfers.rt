//! How transfers are spelled.
ghost use Rattle.std.specs.Prelude.{◌≡◌, ◌∷◌, ◌++◌, OnOk};
ghost use Rattle.text_lex.specs.declared.token.Token.TheVariants as token;
ghost use Rattle.line_reading.specs.Signs.{semicolon};
ghost use Rattle.line_reading.specs.Spelling.{each_behind};
ghost use Rattle.ssl_syntax.specs.Expressions.{expr_toks};
ghost use Rattle.ssl_syntax.specs.Transfers.{act_toks, bits_toks, cell_toks, guard_toks, place_toks, transfer_toks};
ghost use Rattle.ssl_syntax.specs.Lines.{transfers_toks};

use super::line::{CellName, SslAct, SslExpr, SslPlace, SslTransfer};
use super::spelled_exprs::{put_at, put_at_op, put_expr, put_limits, put_load, put_open};
use line_reading::signs::{BECOMES, GUARDS, SEMICOLON, STAR};
use line_reading::{put_name, put_number, put_sign};
use sqlite_items::Items;
use std::alloc::{AllocError, Global};
use text_lex::Token;

/// `NAME` or `NAME [ NUMBER ]`.
pub fn put_cell(alloc: Global, out: &mut Items<Token>, cell: &CellName) -> Result<(), AllocError>
    ensures { OnOk result (out.new ≡ out.old ++ cell_toks cell.now) }
{
    match cell.index {
        None => put_name(alloc, out, cell.name.as_slice()),
        Some(index) => put_at(alloc, out, cell.name.as_slice(), index),
    }
}

/// `bits ( CELL , LO , HI )`.
#[tactic(auto, using(std::proofs::Common::append_assoc))]
pub fn put_bits(
    alloc: Global,
    out: &mut Items<Token>,
    cell: &CellName,
    lo: u64,
    hi: u64,
) -> Result<(), AllocError>
    ensures { OnOk result (out.new ≡ out.old ++ bits_toks cell.now lo hi) }
{
    put_open(alloc, out, b"bits")?;
    put_cell(alloc, out, cell)?;
    put_limits(alloc, out, lo, hi)?;
    Ok(())
}

/// What is assigned.
fn put_place(alloc: Global, out: &mut Items<Token>, place: &SslPlace) -> Result<(), AllocError>
    ensures { OnOk result (out.new ≡ out.old ++ place_toks place.now) }
{
    match place {
        SslPlace::Named(name) => put_name(alloc, out, name.as_slice()),
        SslPlace::At(name, index) => put_at(alloc, out, name.as_slice(), *index),
        SslPlace::AtOp(name, op) => put_at_op(alloc, out, name.as_slice(), op.as_slice()),
        SslPlace::Bits(cell, lo, hi) => put_bits(alloc, out, cell, *lo, *hi),
        SslPlace::Load(bits, address) => put_load(alloc, out, *bits, address),
    }
}

/// `* W * PLACE := E`.
#[tactic(auto, using(std::proofs::Common::append_assoc))]
fn put_assignment(
    alloc: Global,
    out: &mut Items<Token>,
    width: u64,
    to: &SslPlace,
    value: &SslExpr,
) -> Result<(), AllocError>
    ensures { OnOk result (out.new ≡ out.old ++ act_toks (SslAct.Assign width to.now value.now)) }
{
    put_sign(out, STAR)?;
    put_number(out, width)?;
    put_sign(out, STAR)?;
    put_place(alloc, out, to)?;
    put_sign(out, BECOMES)?;
    put_expr(alloc, out, value)?;
    Ok(())
}

/// A word and the expression behind it.
#[tactic(auto, using(std::proofs::Common::append_assoc))]
fn put_worded(
    alloc: Global,
    out: &mut Items<Token>,
    word: &[u8],
    expr: &SslExpr,
) -> Result<(), AllocError>
    ensures { OnOk result (out.new ≡ out.old ++ token.Name word.now ∷ expr_toks expr.now) }
{
    put_name(alloc, out, word)?;
    put_expr(alloc, out, expr)?;
    Ok(())
}

/// What is done.
fn put_act(alloc: Global, out: &mut Items<Token>, act: &SslAct) -> Result<(), AllocError>
    ensures { OnOk result (out.new ≡ out.old ++ act_toks act.now) }
{
    match act {
        SslAct::Assign(width, to, value) => put_assignment(alloc, out, *width, to, value),
        SslAct::Jump(target) => put_worded(alloc, out, b"jump", target),
        SslAct::Annul => put_name(alloc, out, b"annul"),
        SslAct::Trap(number) => put_worded(alloc, out, b"trap", number),
        SslAct::Service => put_name(alloc, out, b"service"),
        SslAct::WinSave => put_name(alloc, out, b"wsave"),
        SslAct::WinRestore => put_name(alloc, out, b"wrestore"),
    }
}

/// `E =>`, or nothing.
#[tactic(auto, using(std::proofs::Common::append_assoc))]
fn put_guard(
    alloc: Global,
    out: &mut Items<Token>,
    guard: &Option<SslExpr>,
) -> Result<(), AllocError>
    ensures { OnOk result (out.new ≡ out.old ++ guard_toks guard.now) }
{
    let Some(guard) = guard else {
        return Ok(());
    };
    put_expr(alloc, out, guard)?;
    put_sign(out, GUARDS)?;
    Ok(())
}

/// `ACT` or `E => ACT`.
#[tactic(auto, using(std::proofs::Common::append_assoc))]
fn put_transfer(
    alloc: Global,
    out: &mut Items<Token>,
    transfer: &SslTransfer,
) -> Result<(), AllocError>
    ensures { OnOk result (out.new ≡ out.old ++ transfer_toks transfer.now) }
{
    put_guard(alloc, out, &transfer.guard)?;
    put_act(alloc, out, &transfer.act)?;
    Ok(())
}

/// `none`, or transfers with semicolons between them.
pub fn put_transfers(
    alloc: Global,
    out: &mut Items<Token>,
    transfers: &[SslTransfer],
) -> Result<(), AllocError>
    ensures { OnOk result (out.new ≡ out.old ++ transfers_toks transfers.now) }
{
    let Some((first, rest)) = transfers.split_first() else {
        return put_name(alloc, out, b"none");
    };
    put_transfer(alloc, out, first)?;
    for transfer in rest {
        put_sign(out, SEMICOLON)?;
        put_transfer(alloc, out, transfer)?;
    }
    Ok(())
}
