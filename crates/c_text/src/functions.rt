// Functions and their prototypes, put into a sink.
ghost use Rattle.std.specs.Prelude.{◌≡◌, true, OnOk, OnErr, [], ◌∷◌, ◌++◌, flat_map};
ghost use Rattle.c_lang.specs.Items.{prototype_of};
ghost use Rattle.c_text.specs.Expressions.{commas};
ghost use Rattle.c_text.specs.Blocks.{block_toks};
ghost use Rattle.c_text.specs.Functions.{function_toks, head_toks, local_toks, prototype_toks, temps_toks, typed_toks};
ghost use Rattle.c_text.specs.Gaps.{ends_word, gap_toks};
ghost use Rattle.c_text.specs.Output.{Wrote, Broke};
ghost use Rattle.c_text.specs.Tokens.{mark, name, word};
ghost use Rattle.c_text.specs.Words.{function_word};

use crate::atoms::{Atom, put_atoms};
use crate::blocks::put_blocks;
use crate::names::{put_function as put_function_name, put_variable};
use crate::words::{put_gap, put_name};
use c_lang::{Function, Var};
use edge_io::{Sink, WriteFault};

/// Puts parameters, each with a comma behind it.
fn put_front_params<K: Sink>(out: &mut K, places: &[u8]) -> Result<(), WriteFault>
    ensures wrote { OnOk result (Wrote (K.output out.old) (K.output out.new) (flat_map (λ i. typed_toks (Var.Cell i) ++ mark "," ∷ []) places.now)) }
    ensures broke { OnErr result (Broke (K.output out.old) (K.output out.new) (flat_map (λ i. typed_toks (Var.Cell i) ++ mark "," ∷ []) places.now)) }
{
    for place in places {
        put_typed(out, Var::Cell(*place), b", ")?;
    }
    Ok(())
}

/// Puts a variable and its type.
fn put_typed<K: Sink>(out: &mut K, variable: Var, gap: &[u8]) -> Result<(), WriteFault>
    requires { ends_word gap.now ≡ true }
    ensures wrote { OnOk result (Wrote (K.output out.old) (K.output out.new) (typed_toks variable ++ gap_toks gap.now)) }
    ensures broke { OnErr result (Broke (K.output out.old) (K.output out.new) (typed_toks variable ++ gap_toks gap.now)) }
{
    put_name(out, b"u64", b" ")?;
    put_variable(out, variable, gap)
}

/// Puts the parameters: `ra`, and the cells behind it.
fn put_params<K: Sink>(out: &mut K, places: &[u8], gap: &[u8]) -> Result<(), WriteFault>
    requires { ends_word gap.now ≡ true }
    ensures wrote { OnOk result (Wrote (K.output out.old) (K.output out.new) (typed_toks Var.Ra ++ (commas (λ i. typed_toks (Var.Cell i)) places.now ++ gap_toks gap.now))) }
    ensures broke { OnErr result (Broke (K.output out.old) (K.output out.new) (typed_toks Var.Ra ++ (commas (λ i. typed_toks (Var.Cell i)) places.now ++ gap_toks gap.now))) }
{
    let Some((last, front)) = places.split_last() else {
        return put_typed(out, Var::Ra, gap);
    };
    put_typed(out, Var::Ra, b", ")?;
    put_front_params(out, front)?;
    put_typed(out, Var::Cell(*last), gap)
}

/// Puts the head of a function up to its first parameter.
fn put_start<K: Sink>(out: &mut K, entry: u32) -> Result<(), WriteFault>
    ensures wrote { OnOk result (Wrote (K.output out.old) (K.output out.new) (word "void" ∷ name (function_word entry) ∷ mark "(" ∷ [])) }
    ensures broke { OnErr result (Broke (K.output out.old) (K.output out.new) (word "void" ∷ name (function_word entry) ∷ mark "(" ∷ [])) }
{
    put_name(out, b"void", b" ")?;
    put_function_name(out, entry, b"(")
}

/// Puts a prototype.
fn put_prototype<K: Sink>(out: &mut K, function: &Function) -> Result<(), WriteFault>
    ensures wrote { OnOk result (Wrote (K.output out.old) (K.output out.new) (prototype_toks (prototype_of function.now))) }
    ensures broke { OnErr result (Broke (K.output out.old) (K.output out.new) (prototype_toks (prototype_of function.now))) }
{
    put_start(out, function.entry)?;
    put_params(out, function.params.as_slice(), b");\n")
}

/// Puts the prototypes.
pub fn put_prototypes<K: Sink>(out: &mut K, functions: &[Function]) -> Result<(), WriteFault>
    ensures wrote { OnOk result (Wrote (K.output out.old) (K.output out.new) (flat_map (λ f. prototype_toks (prototype_of f)) functions.now)) }
    ensures broke { OnErr result (Broke (K.output out.old) (K.output out.new) (flat_map (λ f. prototype_toks (prototype_of f)) functions.now)) }
{
    for function in functions {
        put_prototype(out, function)?;
    }
    Ok(())
}

/// Puts a declaration.
fn put_local<K: Sink>(out: &mut K, variable: Var) -> Result<(), WriteFault>
    ensures wrote { OnOk result (Wrote (K.output out.old) (K.output out.new) (local_toks variable)) }
    ensures broke { OnErr result (Broke (K.output out.old) (K.output out.new) (local_toks variable)) }
{
    put_atoms(
        out,
        &[
            Atom::Gap(b"    "),
            Atom::Name(b"u64", b" "),
            Atom::Variable(variable, b";\n"),
        ],
    )
}

/// Puts the declarations of cells.
fn put_locals<K: Sink>(out: &mut K, places: &[u8]) -> Result<(), WriteFault>
    ensures wrote { OnOk result (Wrote (K.output out.old) (K.output out.new) (flat_map (λ i. local_toks (Var.Cell i)) places.now)) }
    ensures broke { OnErr result (Broke (K.output out.old) (K.output out.new) (flat_map (λ i. local_toks (Var.Cell i)) places.now)) }
{
    for place in places {
        put_local(out, Var::Cell(*place))?;
    }
    Ok(())
}

/// Puts the declarations of temporaries.
fn put_temps<K: Sink>(out: &mut K, temps: u16) -> Result<(), WriteFault>
    ensures wrote { OnOk result (Wrote (K.output out.old) (K.output out.new) (temps_toks 0 temps)) }
    ensures broke { OnErr result (Broke (K.output out.old) (K.output out.new) (temps_toks 0 temps)) }
{
    for place in 0..temps {
        put_local(out, Var::Temp(place))?;
    }
    Ok(())
}

/// Puts the head of a function, behind an empty line.
fn put_head<K: Sink>(out: &mut K, function: &Function) -> Result<(), WriteFault>
    ensures wrote { OnOk result (Wrote (K.output out.old) (K.output out.new) (head_toks (prototype_of function.now) ++ mark "{" ∷ [])) }
    ensures broke { OnErr result (Broke (K.output out.old) (K.output out.new) (head_toks (prototype_of function.now) ++ mark "{" ∷ [])) }
{
    put_gap(out, b"\n")?;
    put_start(out, function.entry)?;
    put_params(out, function.params.as_slice(), b") {\n")
}

/// Puts the body of a function, behind the brace that begins it.
fn put_body<K: Sink>(out: &mut K, function: &Function) -> Result<(), WriteFault>
    ensures wrote { OnOk result (Wrote (K.output out.old) (K.output out.new) (local_toks Var.Pt ++ (flat_map (λ i. local_toks (Var.Cell i)) function.now.cells ++ (temps_toks 0 function.now.temps ++ (flat_map block_toks function.now.blocks ++ mark "}" ∷ []))))) }
    ensures broke { OnErr result (Broke (K.output out.old) (K.output out.new) (local_toks Var.Pt ++ (flat_map (λ i. local_toks (Var.Cell i)) function.now.cells ++ (temps_toks 0 function.now.temps ++ (flat_map block_toks function.now.blocks ++ mark "}" ∷ []))))) }
{
    put_local(out, Var::Pt)?;
    put_locals(out, function.cells.as_slice())?;
    put_temps(out, function.temps)?;
    put_blocks(out, function.blocks.as_slice())?;
    put_gap(out, b"}\n")
}

/// Puts a function.
fn put_function<K: Sink>(out: &mut K, function: &Function) -> Result<(), WriteFault>
    ensures wrote { OnOk result (Wrote (K.output out.old) (K.output out.new) (function_toks function.now)) }
    ensures broke { OnErr result (Broke (K.output out.old) (K.output out.new) (function_toks function.now)) }
{
    put_head(out, function)?;
    put_body(out, function)
}

/// Puts the functions.
pub fn put_functions<K: Sink>(out: &mut K, functions: &[Function]) -> Result<(), WriteFault>
    ensures wrote { OnOk result (Wrote (K.output out.old) (K.output out.new) (flat_map function_toks functions.now)) }
    ensures broke { OnErr result (Broke (K.output out.old) (K.output out.new) (flat_map function_toks functions.now)) }
{
    for function in functions {
        put_function(out, function)?;
    }
    Ok(())
}
