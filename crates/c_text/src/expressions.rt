// Expressions, put into a sink.
ghost use Rattle.std.specs.Prelude.{◌≡◌, true, ◌++◌, ◌∷◌, [], OnOk, OnErr};
ghost use Rattle.c_text.specs.Expressions.{expr_toks, op_sign};
ghost use Rattle.c_text.specs.Output.{Wrote, Broke};
ghost use Rattle.c_text.specs.Gaps.{ends_word, gap_toks};
ghost use Rattle.c_text.specs.Tokens.{is_sign, mark, sign};

use crate::names::put_variable;
use crate::words::{put_gap, put_long, put_sign};
use c_lang::{CExpr, COp};
use edge_io::{Sink, WriteFault};

/// The sign of an operator.
pub fn op_sign(op: COp) -> &'static [u8]
    ensures bytes { result.now ≡ op_sign op }
    ensures sign { is_sign result.now ≡ true }
{
    match op {
        COp::Add => b"+",
        COp::Sub => b"-",
        COp::Mul => b"*",
        COp::Div => b"/",
        COp::Rem => b"%",
        COp::And => b"&",
        COp::Or => b"|",
        COp::Xor => b"^",
        COp::Shl => b"<<",
        COp::Shr => b">>",
        COp::Eq => b"==",
        COp::Ne => b"!=",
        COp::Lt => b"<",
        COp::Le => b"<=",
    }
}

/// Puts an expression.
#[cycle(expr)]
#[tactic(auto, using(crate::proofs::Spelled::expr_laws))]
pub fn put_expr<K: Sink>(out: &mut K, expr: &CExpr, gap: &[u8]) -> Result<(), WriteFault>
    requires { ends_word gap.now ≡ true }
    ensures wrote { OnOk result (Wrote (K.output out.old) (K.output out.new) (expr_toks expr.now ++ gap_toks gap.now)) }
    ensures broke { OnErr result (Broke (K.output out.old) (K.output out.new) (expr_toks expr.now ++ gap_toks gap.now)) }
{
    match expr {
        CExpr::Num(number) => put_long(out, *number, gap),
        CExpr::Of(variable) => put_variable(out, *variable, gap),
        CExpr::Bin(op, left, right) => {
            put_gap(out, b"(")?;
            put_before(out, left.get(), op_sign(*op))?;
            put_last(out, right.get(), gap)
        }
        CExpr::Choose(test, left, right) => {
            put_gap(out, b"(")?;
            put_before(out, test.get(), b"?")?;
            put_before(out, left.get(), b":")?;
            put_last(out, right.get(), gap)
        }
    }
}

/// Puts an expression and the sign behind it, with a blank on each side.
#[cycle(expr)]
fn put_before<K: Sink>(out: &mut K, expr: &CExpr, bytes: &[u8]) -> Result<(), WriteFault>
    requires { is_sign bytes.now ≡ true }
    ensures wrote { OnOk result (Wrote (K.output out.old) (K.output out.new) (expr_toks expr.now ++ sign bytes.now ∷ [])) }
    ensures broke { OnErr result (Broke (K.output out.old) (K.output out.new) (expr_toks expr.now ++ sign bytes.now ∷ [])) }
{
    put_expr(out, expr, b" ")?;
    put_sign(out, bytes)
}

/// Puts the last part of an expression, which closes it.
#[cycle(expr)]
fn put_last<K: Sink>(out: &mut K, expr: &CExpr, gap: &[u8]) -> Result<(), WriteFault>
    requires { ends_word gap.now ≡ true }
    ensures wrote { OnOk result (Wrote (K.output out.old) (K.output out.new) (expr_toks expr.now ++ mark ")" ∷ gap_toks gap.now)) }
    ensures broke { OnErr result (Broke (K.output out.old) (K.output out.new) (expr_toks expr.now ++ mark ")" ∷ gap_toks gap.now)) }
{
    put_expr(out, expr, b")")?;
    put_gap(out, gap)
}
