//! How expressions are spelled: their tokens, put behind others.
ghost use Rattle.std.specs.Prelude.{◌≡◌, [], ◌∷◌, ◌++◌, IfOk, OnOk};
ghost use Rattle.text_lex.specs.declared.token.Token.TheVariants as token;
ghost use Rattle.ssl_syntax.specs.declared.words.Word.TheVariants as word;
ghost use Rattle.line_reading.specs.Signs.{close_bracket, close_paren, colon, comma, open_bracket, open_paren};
ghost use Rattle.line_reading.specs.Spelling.{listed};
ghost use Rattle.ssl_syntax.specs.Words.{load_word, word_bytes};
ghost use Rattle.ssl_syntax.specs.Expressions.{expr_toks};

use super::line::SslExpr;
use line_reading::signs::{
    CLOSE_BRACKET, CLOSE_PAREN, COLON, COMMA, MINUS, NEXT, OPEN_BRACKET, OPEN_PAREN, PC, TILDE,
};
use line_reading::{put_name, put_number, put_sign};
use sqlite_items::{Boxed, Items};
use std::alloc::{AllocError, Global};
use text_lex::Token;

/// A name as a token.
pub fn name_token(alloc: Global, letters: &[u8]) -> Result<Token, AllocError>
    ensures { IfOk result (λ t. t ≡ token.Name letters.now) }
{
    Ok(Token::Name(Items::from_slice(alloc, letters)?))
}

/// Puts some tokens behind others.
pub fn put_all<const N: usize>(
    alloc: Global,
    out: &mut Items<Token>,
    tokens: [Token; N],
) -> Result<(), AllocError>
    ensures { OnOk result (out.new ≡ out.old ++ tokens.entry) }
{
    out.append(Items::from_vec(Vec::from_array(alloc, tokens)?))
}

/// The word of a load of so many bits.
fn load_word(bits: u8) -> &'static [u8]
    ensures { result.now ≡ load_word bits }
{
    match bits {
        8 => b"m8",
        16 => b"m16",
        32 => b"m32",
        _ => b"m64",
    }
}

/// `NUMBER : W`.
fn put_constant(
    alloc: Global,
    out: &mut Items<Token>,
    value: u64,
    width: u64,
) -> Result<(), AllocError>
    ensures { OnOk result (out.new ≡ out.old ++ token.Number value ∷ token.Sign colon ∷ token.Number width ∷ []) }
{
    put_all(
        alloc,
        out,
        [
            Token::Number(value),
            Token::Sign(COLON),
            Token::Number(width),
        ],
    )
}

/// `NAME [ NUMBER ]`.
pub fn put_at(
    alloc: Global,
    out: &mut Items<Token>,
    name: &[u8],
    index: u64,
) -> Result<(), AllocError>
    ensures { OnOk result (out.new ≡ out.old ++ token.Name name.now ∷ token.Sign open_bracket ∷ token.Number index ∷ token.Sign close_bracket ∷ []) }
{
    let name = name_token(alloc, name)?;
    put_all(
        alloc,
        out,
        [
            name,
            Token::Sign(OPEN_BRACKET),
            Token::Number(index),
            Token::Sign(CLOSE_BRACKET),
        ],
    )
}

/// `NAME [ OP ]`.
pub fn put_at_op(
    alloc: Global,
    out: &mut Items<Token>,
    name: &[u8],
    op: &[u8],
) -> Result<(), AllocError>
    ensures { OnOk result (out.new ≡ out.old ++ token.Name name.now ∷ token.Sign open_bracket ∷ token.Name op.now ∷ token.Sign close_bracket ∷ []) }
{
    let name = name_token(alloc, name)?;
    let op = name_token(alloc, op)?;
    put_all(
        alloc,
        out,
        [
            name,
            Token::Sign(OPEN_BRACKET),
            op,
            Token::Sign(CLOSE_BRACKET),
        ],
    )
}

/// A name and `(`.
pub fn put_open(alloc: Global, out: &mut Items<Token>, name: &[u8]) -> Result<(), AllocError>
    ensures { OnOk result (out.new ≡ out.old ++ token.Name name.now ∷ token.Sign open_paren ∷ []) }
{
    let name = name_token(alloc, name)?;
    put_all(alloc, out, [name, Token::Sign(OPEN_PAREN)])
}

/// `, LO , HI )`.
pub fn put_limits(alloc: Global, out: &mut Items<Token>, lo: u64, hi: u64) -> Result<(), AllocError>
    ensures { OnOk result (out.new ≡ out.old ++ token.Sign comma ∷ token.Number lo ∷ token.Sign comma ∷ token.Number hi ∷ token.Sign close_paren ∷ []) }
{
    put_all(
        alloc,
        out,
        [
            Token::Sign(COMMA),
            Token::Number(lo),
            Token::Sign(COMMA),
            Token::Number(hi),
            Token::Sign(CLOSE_PAREN),
        ],
    )
}

/// An expression.
#[cycle(spelling)]
#[tactic(auto, using(crate::proofs::ExprLaws::spelled_laws))]
pub fn put_expr(alloc: Global, out: &mut Items<Token>, expr: &SslExpr) -> Result<(), AllocError>
    ensures { OnOk result (out.new ≡ out.old ++ expr_toks expr.now) }
{
    match expr {
        SslExpr::Number(value, width) => put_constant(alloc, out, *value, *width),
        SslExpr::Named(name) => put_name(alloc, out, name.as_slice()),
        SslExpr::At(name, index) => put_at(alloc, out, name.as_slice(), *index),
        SslExpr::AtOp(name, op) => put_at_op(alloc, out, name.as_slice(), op.as_slice()),
        SslExpr::Load(bits, address) => put_load(alloc, out, *bits, address.get()),
        SslExpr::Not(inner) => put_behind(alloc, out, TILDE, inner.get()),
        SslExpr::Neg(inner) => put_behind(alloc, out, MINUS, inner.get()),
        SslExpr::Bin(op, left, right) => {
            put_sign(out, OPEN_PAREN)?;
            put_before(alloc, out, left, *op)?;
            put_before(alloc, out, right, CLOSE_PAREN)
        },
        SslExpr::Bits(inner, lo, hi) => put_range(alloc, out, inner.get(), *lo, *hi),
        SslExpr::Zext(width, inner) => put_extended(alloc, out, b"zx", *width, inner.get()),
        SslExpr::Sext(width, inner) => put_extended(alloc, out, b"sx", *width, inner.get()),
        SslExpr::If(test, first, second) => {
            put_open(alloc, out, b"if")?;
            put_before(alloc, out, test, COMMA)?;
            put_before(alloc, out, first, COMMA)?;
            put_before(alloc, out, second, CLOSE_PAREN)
        },
        SslExpr::Call(name, args) => put_call(alloc, out, name.as_slice(), args.as_slice()),
        SslExpr::Pc => put_sign(out, PC),
        SslExpr::Next => put_sign(out, NEXT),
    }
}

/// An expression and the sign behind it.
#[cycle(spelling)]
#[tactic(auto, using(std::proofs::Common::append_assoc))]
fn put_before(
    alloc: Global,
    out: &mut Items<Token>,
    expr: &Boxed<SslExpr>,
    index: u8,
) -> Result<(), AllocError>
    ensures { OnOk result (out.new ≡ out.old ++ (expr_toks expr.now ++ token.Sign index ∷ [])) }
{
    put_expr(alloc, out, expr.get())?;
    put_sign(out, index)?;
    Ok(())
}

/// A sign and the expression behind it.
#[cycle(spelling)]
#[tactic(auto, using(std::proofs::Common::append_assoc))]
fn put_behind(
    alloc: Global,
    out: &mut Items<Token>,
    index: u8,
    expr: &SslExpr,
) -> Result<(), AllocError>
    ensures { OnOk result (out.new ≡ out.old ++ token.Sign index ∷ expr_toks expr.now) }
{
    put_sign(out, index)?;
    put_expr(alloc, out, expr)?;
    Ok(())
}

/// `m8 [ E ]`, by the bits of the load.
#[cycle(spelling)]
#[tactic(auto, using(std::proofs::Common::append_assoc))]
pub fn put_load(
    alloc: Global,
    out: &mut Items<Token>,
    bits: u8,
    address: &SslExpr,
) -> Result<(), AllocError>
    ensures { OnOk result (out.new ≡ out.old ++ token.Name (load_word bits) ∷ token.Sign open_bracket ∷ (expr_toks address.now ++ token.Sign close_bracket ∷ [])) }
{
    put_name(alloc, out, load_word(bits))?;
    put_sign(out, OPEN_BRACKET)?;
    put_expr(alloc, out, address)?;
    put_sign(out, CLOSE_BRACKET)?;
    Ok(())
}

/// `bits ( E , LO , HI )`.
#[cycle(spelling)]
#[tactic(auto, using(std::proofs::Common::append_assoc))]
fn put_range(
    alloc: Global,
    out: &mut Items<Token>,
    expr: &SslExpr,
    lo: u64,
    hi: u64,
) -> Result<(), AllocError>
    ensures { OnOk result (out.new ≡ out.old ++ token.Name (word_bytes word.Bits) ∷ token.Sign open_paren ∷ (expr_toks expr.now ++ token.Sign comma ∷ token.Number lo ∷ token.Sign comma ∷ token.Number hi ∷ token.Sign close_paren ∷ [])) }
{
    put_open(alloc, out, b"bits")?;
    put_expr(alloc, out, expr)?;
    put_limits(alloc, out, lo, hi)?;
    Ok(())
}

/// `zx ( W , E )`, or the same with another word.
#[cycle(spelling)]
#[tactic(auto, using(std::proofs::Common::append_assoc))]
fn put_extended(
    alloc: Global,
    out: &mut Items<Token>,
    word: &[u8],
    width: u64,
    expr: &SslExpr,
) -> Result<(), AllocError>
    ensures { OnOk result (out.new ≡ out.old ++ token.Name word.now ∷ token.Sign open_paren ∷ token.Number width ∷ token.Sign comma ∷ (expr_toks expr.now ++ token.Sign close_paren ∷ [])) }
{
    put_open(alloc, out, word)?;
    put_number(out, width)?;
    put_sign(out, COMMA)?;
    put_expr(alloc, out, expr)?;
    put_sign(out, CLOSE_PAREN)?;
    Ok(())
}

/// `NAME ( ARGS? )`.
#[cycle(spelling)]
#[tactic(auto, using(std::proofs::Common::append_assoc))]
fn put_call(
    alloc: Global,
    out: &mut Items<Token>,
    name: &[u8],
    args: &[SslExpr],
) -> Result<(), AllocError>
    ensures { OnOk result (out.new ≡ out.old ++ token.Name name.now ∷ token.Sign open_paren ∷ (listed comma expr_toks args.now ++ token.Sign close_paren ∷ [])) }
{
    put_open(alloc, out, name)?;
    put_args(alloc, out, args)?;
    put_sign(out, CLOSE_PAREN)?;
    Ok(())
}

/// Expressions with commas between them.
#[cycle(spelling)]
fn put_args(alloc: Global, out: &mut Items<Token>, args: &[SslExpr]) -> Result<(), AllocError>
    ensures { OnOk result (out.new ≡ out.old ++ listed comma expr_toks args.now) }
{
    let Some((first, rest)) = args.split_first() else {
        return Ok(());
    };
    put_expr(alloc, out, first)?;
    for arg in rest {
        put_sign(out, COMMA)?;
        put_expr(alloc, out, arg)?;
    }
    Ok(())
}
