// Blocks and their ends, put into a sink: a label at the margin, and four blanks before each statement.
ghost use Rattle.std.specs.Prelude.{OnOk, OnErr, [], ◌∷◌, ◌++◌, flat_map};
ghost use Rattle.c_text.specs.Blocks.{block_toks, case_toks, default_toks, end_toks, finish_toks, goto_toks, switch_toks};
ghost use Rattle.c_text.specs.Output.{Wrote, Broke};
ghost use Rattle.c_text.specs.Tokens.{mark, name};
ghost use Rattle.c_text.specs.Words.{label_word};

use crate::atoms::{Atom, put_atoms};
use crate::names::put_label;
use crate::statements::put_stmts;
use c_lang::{CBlock, CExpr, Case, End, Point};
use edge_io::{Sink, WriteFault};

/// Puts a jump to a label.
fn put_goto<K: Sink>(out: &mut K, to: Point) -> Result<(), WriteFault>
    ensures wrote { OnOk result (Wrote (K.output out.old) (K.output out.new) (goto_toks to)) }
    ensures broke { OnErr result (Broke (K.output out.old) (K.output out.new) (goto_toks to)) }
{
    put_atoms(
        out,
        &[
            Atom::Gap(b"    "),
            Atom::Name(b"goto", b" "),
            Atom::Label(to, b";\n"),
        ],
    )
}

/// Puts a stop that ends a block.
fn put_finish<K: Sink>(out: &mut K, number: u64, value: &CExpr) -> Result<(), WriteFault>
    ensures wrote { OnOk result (Wrote (K.output out.old) (K.output out.new) (finish_toks number value.now)) }
    ensures broke { OnErr result (Broke (K.output out.old) (K.output out.new) (finish_toks number value.now)) }
{
    put_atoms(
        out,
        &[
            Atom::Gap(b"    "),
            Atom::Name(b"uq_end", b"("),
            Atom::Plain(number, b", "),
            Atom::Expr(value, b");\n"),
        ],
    )
}

/// Puts a case of a switch.
fn put_case<K: Sink>(out: &mut K, case: &Case) -> Result<(), WriteFault>
    ensures wrote { OnOk result (Wrote (K.output out.old) (K.output out.new) (case_toks case.now)) }
    ensures broke { OnErr result (Broke (K.output out.old) (K.output out.new) (case_toks case.now)) }
{
    put_atoms(
        out,
        &[
            Atom::Gap(b"        "),
            Atom::Name(b"case", b" "),
            Atom::Long(case.value, b": "),
            Atom::Name(b"goto", b" "),
            Atom::Label(case.to, b";\n"),
        ],
    )
}

/// Puts the cases of a switch.
fn put_cases<K: Sink>(out: &mut K, cases: &[Case]) -> Result<(), WriteFault>
    ensures wrote { OnOk result (Wrote (K.output out.old) (K.output out.new) (flat_map case_toks cases.now)) }
    ensures broke { OnErr result (Broke (K.output out.old) (K.output out.new) (flat_map case_toks cases.now)) }
{
    for case in cases {
        put_case(out, case)?;
    }
    Ok(())
}

/// Puts the head of a switch.
fn put_switch_head<K: Sink>(out: &mut K, test: &CExpr) -> Result<(), WriteFault>
    ensures wrote { OnOk result (Wrote (K.output out.old) (K.output out.new) (switch_toks test.now)) }
    ensures broke { OnErr result (Broke (K.output out.old) (K.output out.new) (switch_toks test.now)) }
{
    put_atoms(
        out,
        &[
            Atom::Gap(b"    "),
            Atom::Name(b"switch", b" ("),
            Atom::Expr(test, b") {\n"),
        ],
    )
}

/// Puts the default of a switch, which ends it.
fn put_default<K: Sink>(out: &mut K, number: u64, value: &CExpr) -> Result<(), WriteFault>
    ensures wrote { OnOk result (Wrote (K.output out.old) (K.output out.new) (default_toks number value.now)) }
    ensures broke { OnErr result (Broke (K.output out.old) (K.output out.new) (default_toks number value.now)) }
{
    put_atoms(
        out,
        &[
            Atom::Gap(b"        "),
            Atom::Name(b"default", b": "),
            Atom::Name(b"uq_end", b"("),
            Atom::Plain(number, b", "),
            Atom::Expr(value, b");\n    }\n"),
        ],
    )
}

/// Puts a switch.
fn put_switch<K: Sink>(
    out: &mut K,
    test: &CExpr,
    cases: &[Case],
    number: u64,
    value: &CExpr,
) -> Result<(), WriteFault>
    ensures wrote { OnOk result (Wrote (K.output out.old) (K.output out.new) (switch_toks test.now ++ (flat_map case_toks cases.now ++ default_toks number value.now))) }
    ensures broke { OnErr result (Broke (K.output out.old) (K.output out.new) (switch_toks test.now ++ (flat_map case_toks cases.now ++ default_toks number value.now))) }
{
    put_switch_head(out, test)?;
    put_cases(out, cases)?;
    put_default(out, number, value)
}

/// Puts an end of two jumps.
fn put_branch<K: Sink>(out: &mut K, test: &CExpr, to: Point, or_to: Point) -> Result<(), WriteFault>
    ensures wrote { OnOk result (Wrote (K.output out.old) (K.output out.new) (end_toks (End.Branch test.now to or_to))) }
    ensures broke { OnErr result (Broke (K.output out.old) (K.output out.new) (end_toks (End.Branch test.now to or_to))) }
{
    put_atoms(
        out,
        &[
            Atom::Gap(b"    "),
            Atom::Name(b"if", b" ("),
            Atom::Expr(test, b") "),
            Atom::Name(b"goto", b" "),
            Atom::Label(to, b";\n    "),
            Atom::Name(b"goto", b" "),
            Atom::Label(or_to, b";\n"),
        ],
    )
}

/// Puts a return.
fn put_return<K: Sink>(out: &mut K) -> Result<(), WriteFault>
    ensures wrote { OnOk result (Wrote (K.output out.old) (K.output out.new) (end_toks End.Return)) }
    ensures broke { OnErr result (Broke (K.output out.old) (K.output out.new) (end_toks End.Return)) }
{
    put_atoms(out, &[Atom::Gap(b"    "), Atom::Name(b"return", b";\n")])
}

/// Puts the end of a block.
fn put_end<K: Sink>(out: &mut K, end: &End) -> Result<(), WriteFault>
    ensures wrote { OnOk result (Wrote (K.output out.old) (K.output out.new) (end_toks end.now)) }
    ensures broke { OnErr result (Broke (K.output out.old) (K.output out.new) (end_toks end.now)) }
{
    match end {
        End::Goto(to) => put_goto(out, *to),
        End::Branch(test, to, or_to) => put_branch(out, test, *to, *or_to),
        End::Switch(test, cases, number, value) => {
            put_switch(out, test, cases.as_slice(), *number, value)
        }
        End::Return => put_return(out),
        End::Finish(number, value) => put_finish(out, *number, value),
    }
}

/// Puts the label of a block.
fn put_block_label<K: Sink>(out: &mut K, label: Point) -> Result<(), WriteFault>
    ensures wrote { OnOk result (Wrote (K.output out.old) (K.output out.new) (name (label_word label) ∷ mark ":" ∷ mark ";" ∷ [])) }
    ensures broke { OnErr result (Broke (K.output out.old) (K.output out.new) (name (label_word label) ∷ mark ":" ∷ mark ";" ∷ [])) }
{
    put_label(out, label, b": ;\n")
}

/// Puts a block.
fn put_block<K: Sink>(out: &mut K, block: &CBlock) -> Result<(), WriteFault>
    ensures wrote { OnOk result (Wrote (K.output out.old) (K.output out.new) (block_toks block.now)) }
    ensures broke { OnErr result (Broke (K.output out.old) (K.output out.new) (block_toks block.now)) }
{
    put_block_label(out, block.label)?;
    put_stmts(out, block.stmts.as_slice(), 1)?;
    put_end(out, &block.end)
}

/// Puts blocks, one behind the other.
pub fn put_blocks<K: Sink>(out: &mut K, blocks: &[CBlock]) -> Result<(), WriteFault>
    ensures wrote { OnOk result (Wrote (K.output out.old) (K.output out.new) (flat_map block_toks blocks.now)) }
    ensures broke { OnErr result (Broke (K.output out.old) (K.output out.new) (flat_map block_toks blocks.now)) }
{
    for block in blocks {
        put_block(out, block)?;
    }
    Ok(())
}
