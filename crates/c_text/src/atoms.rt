// Lines of a C text by their parts, and how they are put into a sink.
ghost use Rattle.std.specs.Prelude.{◌≡◌, ◌++◌, ◌∷◌, [], true, OnOk, OnErr, flat_map};
ghost use Rattle.std.specs.List.{list_all};
ghost use Rattle.c_text.specs.Atoms.{is_proper, atom_toks, line_toks};
ghost use Rattle.c_text.specs.Expressions.{expr_toks, listed};
ghost use Rattle.c_text.specs.Gaps.{ends_word, gap_toks};
ghost use Rattle.c_text.specs.Output.{Wrote, Broke};
ghost use Rattle.c_text.specs.Tokens.{mark};

use crate::expressions::put_expr;
use crate::names::{put_function, put_label, put_segment, put_variable};
use crate::words::{put_gap, put_long, put_name, put_plain, put_sign};
use c_lang::{CExpr, Point, Var};
use edge_io::{Sink, WriteFault};

/// A part of a line: a word with the gap behind it, a sign, or a gap alone.
#[derive(Clone, Copy)]
pub enum Atom<'a> {
    /// A name, as it is.
    Name(&'a [u8], &'a [u8]),
    /// A sign, as it is, and a blank.
    Sign(&'a [u8]),
    /// Blanks, line feeds, and signs that stand in no longer one.
    Gap(&'a [u8]),
    /// A number without a suffix.
    Plain(u64, &'a [u8]),
    /// A number with the suffix `ull`.
    Long(u64, &'a [u8]),
    Variable(Var, &'a [u8]),
    Label(Point, &'a [u8]),
    /// The name of the function of an address.
    Function(u32, &'a [u8]),
    /// The name of a segment's bytes, by its place.
    Segment(u64, &'a [u8]),
    Expr(&'a CExpr, &'a [u8]),
    /// Expressions with commas between them.
    Args(&'a [CExpr], &'a [u8]),
}

/// Puts expressions, each with a comma behind it.
fn put_front_args<K: Sink>(out: &mut K, args: &[CExpr]) -> Result<(), WriteFault>
    ensures wrote { OnOk result (Wrote (K.output out.old) (K.output out.new) (flat_map (λ e. expr_toks e ++ mark "," ∷ []) args.now)) }
    ensures broke { OnErr result (Broke (K.output out.old) (K.output out.new) (flat_map (λ e. expr_toks e ++ mark "," ∷ []) args.now)) }
{
    for arg in args {
        put_expr(out, arg, b", ")?;
    }
    Ok(())
}

/// Puts expressions with commas between them.
fn put_args<K: Sink>(out: &mut K, args: &[CExpr], gap: &[u8]) -> Result<(), WriteFault>
    requires { ends_word gap.now ≡ true }
    ensures wrote { OnOk result (Wrote (K.output out.old) (K.output out.new) (listed expr_toks args.now ++ gap_toks gap.now)) }
    ensures broke { OnErr result (Broke (K.output out.old) (K.output out.new) (listed expr_toks args.now ++ gap_toks gap.now)) }
{
    let Some((last, front)) = args.split_last() else {
        return put_gap(out, gap);
    };
    put_front_args(out, front)?;
    put_expr(out, last, gap)
}

/// Puts an atom.
fn put_atom<K: Sink>(out: &mut K, atom: &Atom<'_>) -> Result<(), WriteFault>
    requires { is_proper atom.now ≡ true }
    ensures wrote { OnOk result (Wrote (K.output out.old) (K.output out.new) (atom_toks atom.now)) }
    ensures broke { OnErr result (Broke (K.output out.old) (K.output out.new) (atom_toks atom.now)) }
{
    match atom {
        Atom::Name(letters, gap) => put_name(out, letters, gap),
        Atom::Sign(bytes) => put_sign(out, bytes),
        Atom::Gap(gap) => put_gap(out, gap),
        Atom::Plain(number, gap) => put_plain(out, *number, gap),
        Atom::Long(number, gap) => put_long(out, *number, gap),
        Atom::Variable(variable, gap) => put_variable(out, *variable, gap),
        Atom::Label(point, gap) => put_label(out, *point, gap),
        Atom::Function(entry, gap) => put_function(out, *entry, gap),
        Atom::Segment(place, gap) => put_segment(out, *place, gap),
        Atom::Expr(expr, gap) => put_expr(out, expr, gap),
        Atom::Args(args, gap) => put_args(out, args, gap),
    }
}

/// Puts atoms, one behind the other.
pub fn put_atoms<K: Sink>(out: &mut K, atoms: &[Atom<'_>]) -> Result<(), WriteFault>
    requires { list_all is_proper atoms.now ≡ true }
    ensures wrote { OnOk result (Wrote (K.output out.old) (K.output out.new) (line_toks atoms.now)) }
    ensures broke { OnErr result (Broke (K.output out.old) (K.output out.new) (line_toks atoms.now)) }
{
    for atom in atoms {
        put_atom(out, atom)?;
    }
    Ok(())
}
