// Statements, put into a sink, each on a line.
ghost use Rattle.std.specs.Prelude.{OnOk, OnErr, flat_map, [], ◌∷◌};
ghost use Rattle.c_text.specs.Output.{Wrote, Broke};
ghost use Rattle.c_text.specs.Statements.{condition_toks, stmt_toks};
ghost use Rattle.c_text.specs.Tokens.{mark};

use crate::atoms::{Atom, put_atoms};
use crate::words::put_gap;
use c_lang::{CExpr, Stmt};
use edge_io::{Sink, WriteFault};

/// Begins a line inside so many braces: four blanks for each.
fn put_indent<K: Sink>(out: &mut K, depth: usize) -> Result<(), WriteFault>
    ensures wrote { OnOk result (Wrote (K.output out.old) (K.output out.new) ([])) }
    ensures broke { OnErr result (Broke (K.output out.old) (K.output out.new) ([])) }
{
    for _ in 0..depth {
        put_gap(out, b"    ")?;
    }
    Ok(())
}

/// Puts a statement that stands inside so many braces, behind its blanks.
#[cycle(stmt)]
#[tactic(auto, using(crate::proofs::Spelled::stmt_laws))]
pub fn put_stmt<K: Sink>(out: &mut K, stmt: &Stmt, depth: usize) -> Result<(), WriteFault>
    ensures wrote { OnOk result (Wrote (K.output out.old) (K.output out.new) (stmt_toks stmt.now)) }
    ensures broke { OnErr result (Broke (K.output out.old) (K.output out.new) (stmt_toks stmt.now)) }
{
    match stmt {
        Stmt::Set(to, value) => put_atoms(
            out,
            &[
                Atom::Variable(*to, b" "),
                Atom::Sign(b"="),
                Atom::Expr(value, b";\n"),
            ],
        ),
        Stmt::Load(to, size, address) => put_atoms(
            out,
            &[
                Atom::Variable(*to, b" "),
                Atom::Sign(b"="),
                Atom::Name(b"uq_load", b"("),
                Atom::Plain(*size, b", "),
                Atom::Expr(address, b");\n"),
            ],
        ),
        Stmt::Store(size, address, value) => put_atoms(
            out,
            &[
                Atom::Name(b"uq_store", b"("),
                Atom::Plain(*size, b", "),
                Atom::Expr(address, b", "),
                Atom::Expr(value, b");\n"),
            ],
        ),
        Stmt::TakeW(to, place) => put_atoms(
            out,
            &[
                Atom::Variable(*to, b" "),
                Atom::Sign(b"="),
                Atom::Name(b"uq_w", b"["),
                Atom::Expr(place, b"];\n"),
            ],
        ),
        Stmt::PutW(place, value) => put_atoms(
            out,
            &[
                Atom::Name(b"uq_w", b"["),
                Atom::Expr(place, b"] "),
                Atom::Sign(b"="),
                Atom::Expr(value, b";\n"),
            ],
        ),
        Stmt::Serve(number, x, y, z) => put_atoms(
            out,
            &[
                Atom::Name(b"uq_serve", b"("),
                Atom::Expr(number, b", "),
                Atom::Expr(x, b", "),
                Atom::Expr(y, b", "),
                Atom::Expr(z, b");\n"),
            ],
        ),
        Stmt::Call(entry, args) => put_atoms(
            out,
            &[
                Atom::Function(*entry, b"("),
                Atom::Args(args.as_slice(), b");\n"),
            ],
        ),
        Stmt::If(test, inner) => {
            put_condition(out, test)?;
            put_stmts(out, inner.as_slice(), depth.saturating_add(1))?;
            put_close(out, depth)
        }
        Stmt::Stop(number, value) => put_atoms(
            out,
            &[
                Atom::Name(b"uq_stop", b"("),
                Atom::Plain(*number, b", "),
                Atom::Expr(value, b");\n"),
            ],
        ),
    }
}

/// Puts a condition, before its statements.
fn put_condition<K: Sink>(out: &mut K, test: &CExpr) -> Result<(), WriteFault>
    ensures wrote { OnOk result (Wrote (K.output out.old) (K.output out.new) (condition_toks test.now)) }
    ensures broke { OnErr result (Broke (K.output out.old) (K.output out.new) (condition_toks test.now)) }
{
    put_atoms(out, &[Atom::Name(b"if", b" ("), Atom::Expr(test, b") {\n")])
}

/// Puts the brace that ends an `if`.
fn put_close<K: Sink>(out: &mut K, depth: usize) -> Result<(), WriteFault>
    ensures wrote { OnOk result (Wrote (K.output out.old) (K.output out.new) (mark "}" ∷ [])) }
    ensures broke { OnErr result (Broke (K.output out.old) (K.output out.new) (mark "}" ∷ [])) }
{
    put_indent(out, depth)?;
    put_gap(out, b"}\n")
}

/// Puts statements that stand inside so many braces, one behind the other.
#[cycle(stmt)]
pub fn put_stmts<K: Sink>(out: &mut K, stmts: &[Stmt], depth: usize) -> Result<(), WriteFault>
    ensures wrote { OnOk result (Wrote (K.output out.old) (K.output out.new) (flat_map stmt_toks stmts.now)) }
    ensures broke { OnErr result (Broke (K.output out.old) (K.output out.new) (flat_map stmt_toks stmts.now)) }
{
    for stmt in stmts {
        put_indent(out, depth)?;
        put_stmt(out, stmt, depth)?;
    }
    Ok(())
}
