//! How many temporaries an instruction takes.
ghost use Rattle.std.specs.Prelude.{◌≡◌, ◌≤◌, max};
ghost use Rattle.rtl_core.specs.Terms.{term_of};
ghost use Rattle.c_lower.specs.Accounts.{act_need, guard_need, lowered_need};
ghost use Rattle.c_lower.specs.Code.{need};
ghost use Rattle.c_lower.specs.Lowerable.{most_temporaries};

use rtl_core::{Act, Expr, GroundInst, Transfer};

/// How many temporaries the statements of an instruction take, `t0` to `t3` among them.
#[tactic(auto, using(crate::proofs::TransferLaws::least_need))]
pub fn temporaries(inst: &GroundInst) -> u16
    requires { lowered_need inst.now.transfers ≤ most_temporaries }
    ensures { result ≡ lowered_need inst.now.transfers }
{
    let mut most: u16 = 4;
    for transfer in inst.transfers.as_slice() {
        most = most.max(of_transfer(transfer));
    }
    most
}

fn of_transfer(transfer: &Transfer) -> u16
    requires { max (guard_need transfer.now.guard) (act_need transfer.now.act) ≤ most_temporaries }
    ensures { result ≡ max (guard_need transfer.now.guard) (act_need transfer.now.act) }
{
    of_guard(&transfer.guard).max(of_act(&transfer.act))
}

fn of_guard(guard: &Option<Expr>) -> u16
    requires { guard_need guard.now ≤ most_temporaries }
    ensures { result ≡ guard_need guard.now }
{
    match guard {
        None => 4,
        Some(guard) => 4 + of_expr(guard),
    }
}

fn of_act(act: &Act) -> u16
    requires { act_need act.now ≤ most_temporaries }
    ensures { result ≡ act_need act.now }
{
    match act {
        Act::SetCell(_, e) => 4 + of_expr(e),
        Act::SetSlice(_, _, _, e) => 4 + of_expr(e),
        Act::Store(_, a, e) => (4 + of_expr(a)).max(5 + of_expr(e)),
        Act::Jump(e) => 4 + of_expr(e),
        Act::Trap(e) => 4 + of_expr(e),
        Act::Annul | Act::Service | Act::WinSave | Act::WinRestore => 4,
    }
}

/// How many temporaries an expression takes, from the one of its value on.
#[tactic(auto, using(rtl_core::proofs::TermLaws::term_laws))]
fn of_expr(e: &Expr) -> u16
    requires { need (term_of e.now) ≤ most_temporaries }
    ensures { result ≡ need (term_of e.now) }
{
    match e {
        Expr::Const(_, _) => 1,
        Expr::Cell(_) => 1,
        Expr::Load(_, a) => of_expr(a.get()),
        Expr::Un(_, a) => of_expr(a.get()),
        Expr::Bin(_, a, b) => of_expr(a.get()).max(1 + of_expr(b.get())),
        Expr::Slice(a, _, _) => of_expr(a.get()),
        Expr::Zext(_, a) => of_expr(a.get()),
        Expr::Sext(_, a) => of_expr(a.get()),
        Expr::If(c, a, b) => of_expr(c.get()).max((1 + of_expr(a.get())).max(2 + of_expr(b.get()))),
    }
}
