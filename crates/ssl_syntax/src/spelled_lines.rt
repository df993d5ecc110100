//! How lines are spelled.
ghost use Rattle.std.specs.Prelude.{◌≡◌, [], ◌∷◌, ◌++◌, IfOk, OnOk};
ghost use Rattle.text_lex.specs.declared.token.Token.TheVariants as token;
ghost use Rattle.line_reading.specs.Signs.{becomes, close_paren, comma, open_paren};
ghost use Rattle.line_reading.specs.Spelling.{listed};
ghost use Rattle.ssl_syntax.specs.Lines.{body_toks, file_toks, param_toks, part_toks};

use super::line::{CellName, Param, SslBody, SslExpr, SslTransfer, ViewPart};
use super::spelled_exprs::{name_token, put_all, put_expr};
use super::spelled_transfers::{put_bits, put_cell, put_transfers};
use line_reading::signs::{
    BECOMES, CLOSE_BRACKET, CLOSE_PAREN, COLON, COMMA, OPEN_BRACKET, OPEN_PAREN,
};
use line_reading::{put_name, put_names, put_number, put_sign};
use sqlite_items::Items;
use std::alloc::{AllocError, Global};
use text_lex::Token;

/// `CELL` or `bits ( CELL , LO , HI )`.
fn put_part(alloc: Global, out: &mut Items<Token>, part: &ViewPart) -> Result<(), AllocError>
    ensures { OnOk result (out.new ≡ out.old ++ part_toks part.now) }
{
    match part {
        ViewPart::Whole(cell) => put_cell(alloc, out, cell),
        ViewPart::Bits(cell, lo, hi) => put_bits(alloc, out, cell, *lo, *hi),
    }
}

/// Parts of a view with commas between them.
fn put_parts(alloc: Global, out: &mut Items<Token>, parts: &[ViewPart]) -> Result<(), AllocError>
    ensures { OnOk result (out.new ≡ out.old ++ listed comma part_toks parts.now) }
{
    let Some((first, rest)) = parts.split_first() else {
        return Ok(());
    };
    put_part(alloc, out, first)?;
    for part in rest {
        put_sign(out, COMMA)?;
        put_part(alloc, out, part)?;
    }
    Ok(())
}

/// `P : W`.
fn put_param(alloc: Global, out: &mut Items<Token>, param: &Param) -> Result<(), AllocError>
    ensures { OnOk result (out.new ≡ out.old ++ param_toks param.now) }
{
    let name = name_token(alloc, param.name.as_slice())?;
    put_all(
        alloc,
        out,
        [name, Token::Sign(COLON), Token::Number(param.width)],
    )
}

/// Parameters with commas between them.
fn put_params(alloc: Global, out: &mut Items<Token>, params: &[Param]) -> Result<(), AllocError>
    ensures { OnOk result (out.new ≡ out.old ++ listed comma param_toks params.now) }
{
    let Some((first, rest)) = params.split_first() else {
        return Ok(());
    };
    put_param(alloc, out, first)?;
    for param in rest {
        put_sign(out, COMMA)?;
        put_param(alloc, out, param)?;
    }
    Ok(())
}

/// A word and a name.
fn put_two(
    alloc: Global,
    out: &mut Items<Token>,
    word: &[u8],
    name: &[u8],
) -> Result<(), AllocError>
    ensures { OnOk result (out.new ≡ out.old ++ token.Name word.now ∷ token.Name name.now ∷ []) }
{
    let word = name_token(alloc, word)?;
    let name = name_token(alloc, name)?;
    put_all(alloc, out, [word, name])
}

/// A word, and `NAME [ N ] W`.
fn put_file(
    alloc: Global,
    out: &mut Items<Token>,
    word: &[u8],
    name: &[u8],
    count: u64,
    width: u64,
) -> Result<(), AllocError>
    ensures { OnOk result (out.new ≡ out.old ++ token.Name word.now ∷ file_toks name.now count width) }
{
    let word = name_token(alloc, word)?;
    let name = name_token(alloc, name)?;
    put_all(
        alloc,
        out,
        [
            word,
            name,
            Token::Sign(OPEN_BRACKET),
            Token::Number(count),
            Token::Sign(CLOSE_BRACKET),
            Token::Number(width),
        ],
    )
}

/// A word, and `NAME (`.
fn put_head(
    alloc: Global,
    out: &mut Items<Token>,
    word: &[u8],
    name: &[u8],
) -> Result<(), AllocError>
    ensures { OnOk result (out.new ≡ out.old ++ token.Name word.now ∷ token.Name name.now ∷ token.Sign open_paren ∷ []) }
{
    let word = name_token(alloc, word)?;
    let name = name_token(alloc, name)?;
    put_all(alloc, out, [word, name, Token::Sign(OPEN_PAREN)])
}

/// `) :=`.
fn put_becomes(alloc: Global, out: &mut Items<Token>) -> Result<(), AllocError>
    ensures { OnOk result (out.new ≡ out.old ++ token.Sign close_paren ∷ token.Sign becomes ∷ []) }
{
    put_all(alloc, out, [Token::Sign(CLOSE_PAREN), Token::Sign(BECOMES)])
}

/// `align yes` or `align no`.
fn put_align(alloc: Global, out: &mut Items<Token>, yes: bool) -> Result<(), AllocError>
    ensures { OnOk result (out.new ≡ out.old ++ body_toks (SslBody.Align yes)) }
{
    if yes {
        put_two(alloc, out, b"align", b"yes")
    } else {
        put_two(alloc, out, b"align", b"no")
    }
}

/// `delay L` or `delay no`.
fn put_delay(alloc: Global, out: &mut Items<Token>, bytes: Option<u64>) -> Result<(), AllocError>
    ensures { OnOk result (out.new ≡ out.old ++ body_toks (SslBody.Delay bytes)) }
{
    match bytes {
        None => put_two(alloc, out, b"delay", b"no"),
        Some(bytes) => {
            let word = name_token(alloc, b"delay")?;
            put_all(alloc, out, [word, Token::Number(bytes)])
        },
    }
}

/// `cell NAME W`.
fn put_single(
    alloc: Global,
    out: &mut Items<Token>,
    name: &Items<u8>,
    width: u64,
) -> Result<(), AllocError>
    ensures { OnOk result (out.new ≡ out.old ++ body_toks (SslBody.Cell name.now width)) }
{
    let word = name_token(alloc, b"cell")?;
    let name = name_token(alloc, name.as_slice())?;
    put_all(alloc, out, [word, name, Token::Number(width)])
}

/// `view NAME [ N ] W is REF {, REF}`.
#[tactic(auto, using(std::proofs::Common::append_assoc))]
fn put_view(
    alloc: Global,
    out: &mut Items<Token>,
    name: &Items<u8>,
    count: u64,
    width: u64,
    parts: &Items<ViewPart>,
) -> Result<(), AllocError>
    ensures { OnOk result (out.new ≡ out.old ++ body_toks (SslBody.View name.now count width parts.now)) }
{
    put_file(alloc, out, b"view", name.as_slice(), count, width)?;
    put_name(alloc, out, b"is")?;
    put_parts(alloc, out, parts.as_slice())?;
    Ok(())
}

/// `zero CELL`.
#[tactic(auto, using(std::proofs::Common::append_assoc))]
fn put_zero(alloc: Global, out: &mut Items<Token>, cell: &CellName) -> Result<(), AllocError>
    ensures { OnOk result (out.new ≡ out.old ++ body_toks (SslBody.Zero cell.now)) }
{
    put_name(alloc, out, b"zero")?;
    put_cell(alloc, out, cell)?;
    Ok(())
}

/// `windows CELL CELL CELL N`.
#[tactic(auto, using(std::proofs::Common::append_assoc))]
fn put_windows(
    alloc: Global,
    out: &mut Items<Token>,
    out_first: &CellName,
    local_first: &CellName,
    in_first: &CellName,
    count: u64,
) -> Result<(), AllocError>
    ensures { OnOk result (out.new ≡ out.old ++ body_toks (SslBody.Windows out_first.now local_first.now in_first.now count)) }
{
    put_name(alloc, out, b"windows")?;
    put_cell(alloc, out, out_first)?;
    put_cell(alloc, out, local_first)?;
    put_cell(alloc, out, in_first)?;
    put_number(out, count)?;
    Ok(())
}

/// `function NAME ( PS? ) := E`.
#[tactic(auto, using(std::proofs::Common::append_assoc))]
fn put_function(
    alloc: Global,
    out: &mut Items<Token>,
    name: &Items<u8>,
    params: &Items<Param>,
    body: &SslExpr,
) -> Result<(), AllocError>
    ensures { OnOk result (out.new ≡ out.old ++ body_toks (SslBody.Function name.now params.now body.now)) }
{
    put_head(alloc, out, b"function", name.as_slice())?;
    put_params(alloc, out, params.as_slice())?;
    put_becomes(alloc, out)?;
    put_expr(alloc, out, body)?;
    Ok(())
}

/// `operand NAME ( OPS? ) := E`.
#[tactic(auto, using(std::proofs::Common::append_assoc))]
fn put_operand(
    alloc: Global,
    out: &mut Items<Token>,
    name: &Items<u8>,
    ops: &Items<Items<u8>>,
    body: &SslExpr,
) -> Result<(), AllocError>
    ensures { OnOk result (out.new ≡ out.old ++ body_toks (SslBody.Operand name.now ops.now body.now)) }
{
    put_head(alloc, out, b"operand", name.as_slice())?;
    put_names(alloc, out, ops.as_slice())?;
    put_becomes(alloc, out)?;
    put_expr(alloc, out, body)?;
    Ok(())
}

/// `instruction NAME ( OPS? ) := TS`.
#[tactic(auto, using(std::proofs::Common::append_assoc))]
fn put_instruction(
    alloc: Global,
    out: &mut Items<Token>,
    name: &Items<u8>,
    ops: &Items<Items<u8>>,
    transfers: &Items<SslTransfer>,
) -> Result<(), AllocError>
    ensures { OnOk result (out.new ≡ out.old ++ body_toks (SslBody.Instruction name.now ops.now transfers.now)) }
{
    put_head(alloc, out, b"instruction", name.as_slice())?;
    put_names(alloc, out, ops.as_slice())?;
    put_becomes(alloc, out)?;
    put_transfers(alloc, out, transfers.as_slice())?;
    Ok(())
}

/// What a line says.
fn put_body(alloc: Global, out: &mut Items<Token>, body: &SslBody) -> Result<(), AllocError>
    ensures { OnOk result (out.new ≡ out.old ++ body_toks body.now) }
{
    match body {
        SslBody::Align { yes } => put_align(alloc, out, *yes),
        SslBody::Delay { bytes } => put_delay(alloc, out, *bytes),
        SslBody::Cell { name, width } => put_single(alloc, out, name, *width),
        SslBody::Cells { name, count, width } => {
            put_file(alloc, out, b"cells", name.as_slice(), *count, *width)
        },
        SslBody::View {
            name,
            count,
            width,
            parts,
        } => put_view(alloc, out, name, *count, *width, parts),
        SslBody::Zero { cell } => put_zero(alloc, out, cell),
        SslBody::Windows {
            out_first,
            local_first,
            in_first,
            count,
        } => put_windows(alloc, out, out_first, local_first, in_first, *count),
        SslBody::Function { name, params, body } => put_function(alloc, out, name, params, body),
        SslBody::Operand { name, ops, body } => put_operand(alloc, out, name, ops, body),
        SslBody::Instruction {
            name,
            ops,
            transfers,
        } => put_instruction(alloc, out, name, ops, transfers),
    }
}

/// The tokens that spell what a line says. The error is want of memory.
///
/// An expression is walked by recursion: one that nests far deeper than a line can hold may run out of stack.
pub fn spell(alloc: Global, body: &SslBody) -> Result<Items<Token>, AllocError>
    ensures { IfOk result (λ tokens. tokens ≡ body_toks body.now) }
{
    let mut out = Items::new(alloc);
    put_body(alloc, &mut out, body)?;
    Ok(out)
}
