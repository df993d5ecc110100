//! Each form of line and of expression, read and then spelled again by its own tokens.
use ssl_syntax::{SslLine, read_ssl, spell};
use std::alloc::{AllocError, Global};
use std::test::Fail;
use text_lex::{LogicalLine, Token, lines};

fn is_same(left: &Token, right: &Token) -> bool {
    match (left, right) {
        (Token::Name(x), Token::Name(y)) => x.as_slice() == y.as_slice(),
        (Token::Number(x), Token::Number(y)) => *x == *y,
        (Token::Sign(x), Token::Sign(y)) => *x == *y,
        _ => false,
    }
}

fn are_same(left: &[Token], right: &[Token]) -> bool {
    if left.len() != right.len() {
        return false;
    }
    for (x, y) in left.iter().zip(right) {
        if !is_same(x, y) {
            return false;
        }
    }
    true
}

/// The value of a line has its tokens and its number.
fn is_spelled(alloc: Global, value: &SslLine, line: &LogicalLine) -> Result<bool, AllocError> {
    let tokens = spell(alloc, &value.body)?;
    Ok(value.number == line.number && are_same(tokens.as_slice(), line.tokens.as_slice()))
}

fn are_spelled(
    alloc: Global,
    values: &[SslLine],
    found: &[LogicalLine],
) -> Result<bool, AllocError> {
    if values.len() != found.len() {
        return Ok(false);
    }
    for (value, line) in values.iter().zip(found) {
        if !is_spelled(alloc, value, line)? {
            return Ok(false);
        }
    }
    Ok(true)
}

/// Each line of a text is read, and spelled again by its own tokens.
pub fn reads_back(alloc: Global, text: &[u8]) -> Result<bool, Fail> {
    if text.len() > 1_000_000 {
        return Ok(false);
    }
    let found = lines(alloc, text)?;
    let values = read_ssl(alloc, text)?;
    Ok(are_spelled(alloc, values.as_slice(), found.as_slice())?)
}

const FIRST_LINES: &[u8] = b"align yes
align no
delay no
delay 4

# a comment, and a blank line before it
cell C 1
cell jump 1
cells r[32] 32
view v[2] 8 is bits(r[0], 0, 7),
  C, r[1], bits(C, 0, 0)
view v[2] 8 is bits, bits[1]
zero r[0]
zero C
windows r[8] l r[24] 8
";

const LATER_LINES: &[u8] = b"function f() := 1:1
function f(a: 8) := a
function f(a: 8, b: 16, c: 1) := a
operand m() := r[1]
operand m(a) := r[a]
operand m(a, b) :=
  m8[a]
instruction A() := none
instruction A(a) := *32* r[a] := a; (C = 1:1) => jump a
instruction A(a, b) := annul; trap 1:32; wsave; wrestore; service
instruction A() := *8* C := a; *8* r[1] := a; *8* bits(r[2], 0, 7) := a; *8* bits(C, 0, 0) := a
instruction A() := *8* m8[a] := a; *16* m16[a] := a; *32* m32[a] := a
instruction A() := a => *8* m64[b] := a; b => annul; b => trap b; b => wsave; b => service
";

#[test]
fn each_line_is_spelled_again(rt: HostRuntime) -> Result<(), Fail> {
    assert!(rt; reads_back(rt.alloc(), FIRST_LINES)?);
    assert!(rt; reads_back(rt.alloc(), LATER_LINES)?);
    Ok(())
}

const EXPRESSIONS: &[u8] = b"operand m() := 0x10:32
operand m() := r
operand m() := r[3]
operand m() := r[rs1]
operand m() := m8[a]
operand m() := m64[m16[m32[a]]]
operand m() := m12[a]
operand m() := ~ -a
operand m() := bits(r[1], 7, 4)
operand m() := zx(32, sx(16, a))
operand m() := if(a, b, c)
operand m() := f()
operand m() := f(a)
operand m() := f(a, g(b), 1:1)
operand m() := (%pc + %next)
";

const OPERATORS: &[u8] = b"operand m() := ((a - b) * (a & (b | (a ^ (a << b)))))
operand m() := ((a / b) // (a >> (b < (a <= b))))
operand m() := ((a /! b) //! (a >>! (b <! (a <=! b))))
operand m() := ((a = b) != (b + a))
";

#[test]
fn each_expression_is_spelled_again(rt: HostRuntime) -> Result<(), Fail> {
    assert!(rt; reads_back(rt.alloc(), EXPRESSIONS)?);
    assert!(rt; reads_back(rt.alloc(), OPERATORS)?);
    Ok(())
}
