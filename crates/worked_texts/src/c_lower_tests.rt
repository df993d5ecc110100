//! The statements of one instruction, as they are.
ghost use Rattle.std.specs.Prelude.{◌≡◌, [], ◌∷◌, IfOk};
ghost use Rattle.worked_texts.specs.SmallMachine.{small_machine, or_expression, or_transfers};

use c_lower::{lower, temporaries};
use rtl_core::{Act, Bin, Expr, GroundInst, Machine, Order, Transfer, Width};
use sqlite_items::{Boxed, Items};
use std::alloc::{AllocError, Global};
use std::test::Fail;

fn machine(alloc: Global) -> Result<Machine, AllocError>
    ensures { IfOk result (λ m. m ≡ small_machine) }
{
    let mut widths = Items::new(alloc);
    widths.push(Width::WORD)?;
    widths.push(Width::WORD)?;
    widths.push(Width::WORD)?;
    Ok(Machine {
        order: Order::Big,
        align: true,
        delay: None,
        widths,
        zero: Some(0),
        windows: None,
        files: Items::new(alloc),
        forms: Items::new(alloc),
        types: Items::new(alloc),
        most_nodes: 4,
    })
}

fn or_with_constant(alloc: Global, bits: Width) -> Result<Expr, AllocError>
    requires { bits ≡ 13 }
    ensures { IfOk result (λ e. e ≡ or_expression) }
{
    let constant = Boxed::new(alloc, Expr::Const(bits, 8191))?;
    let extended = Boxed::new(alloc, Expr::Sext(Width::WORD, constant))?;
    Ok(Expr::Bin(Bin::Or, Boxed::new(alloc, Expr::Cell(1))?, extended))
}

fn instruction(alloc: Global, bits: Width) -> Result<GroundInst, AllocError>
    requires { bits ≡ 13 }
    ensures { IfOk result (λ i. i.transfers ≡ or_transfers) }
{
    let mut transfers = Items::new(alloc);
    transfers.push(Transfer {
        guard: None,
        act: Act::SetCell(2, or_with_constant(alloc, bits)?),
    })?;
    Ok(GroundInst {
        constructor: 0,
        next: 0x1004,
        transfers,
    })
}

#[test]
#[tactic(auto, using(crate::proofs::SoundMachine::sound_machine))]
fn register_or_constant(rt: HostRuntime) -> Result<(), Fail> {
    let bits = Width::new(13).expect(&rt, "a width");
    let machine = machine(rt.alloc())?;
    let or = instruction(rt.alloc(), bits)?;
    assert_eq!(rt; temporaries(&or), 6);
    let stmts = lower(rt.alloc(), &machine, &or, 0x1000)?;
    let wanted = [
        "Set(Temp(0), Num(0))",
        "Set(Temp(1), Num(0))",
        "Set(Temp(2), Num(0))",
        "Set(Temp(3), Num(0))",
        "Set(Temp(4), Of(Cell(1)))",
        "Set(Temp(5), Num(8191))",
        "Set(Temp(5), Choose(Boxed { inner: Bin(Lt, Boxed { inner: Of(Temp(5)) }, Boxed { inner: Num(4096) }) }, Boxed { inner: Of(Temp(5)) }, Boxed { inner: Bin(Add, Boxed { inner: Of(Temp(5)) }, Boxed { inner: Num(4294959104) }) }))",
        "Set(Temp(4), Bin(Or, Boxed { inner: Of(Temp(4)) }, Boxed { inner: Of(Temp(5)) }))",
        "Set(Cell(2), Of(Temp(4)))",
    ];
    assert_eq!(rt; stmts.len(), wanted.len());
    for (stmt, want) in stmts.as_slice().iter().zip(wanted) {
        assert_eq!(rt; format!(in rt.alloc(); "{stmt:?}")?.as_str(), want);
    }
    Ok(())
}
