//! What texts are read as, and which are no line and no expression.
use ssl_syntax::{SslExpr, SyntaxFault, read_expression, read_ssl};
use std::alloc::Global;
use std::test::Fail;
use text_lex::{LogicalLine, lines};

/// The form of an expression, with its numbers.
fn form(expr: &SslExpr) -> (&'static str, u64, u64) {
    match expr {
        SslExpr::Number(value, width) => ("number", *value, *width),
        SslExpr::Named(_) => ("name", 0, 0),
        SslExpr::At(_, index) => ("at a number", *index, 0),
        SslExpr::AtOp(_, _) => ("at an operand", 0, 0),
        SslExpr::Load(bits, _) => ("load", u64::from(*bits), 0),
        SslExpr::Not(_) => ("not", 0, 0),
        SslExpr::Neg(_) => ("minus", 0, 0),
        SslExpr::Bin(op, _, _) => ("binary", u64::from(*op), 0),
        SslExpr::Bits(_, lo, hi) => ("bits", *lo, *hi),
        SslExpr::Zext(width, _) => ("zeros", *width, 0),
        SslExpr::Sext(width, _) => ("signs", *width, 0),
        SslExpr::If(_, _, _) => ("choice", 0, 0),
        SslExpr::Call(_, _) => ("call", 0, 0),
        SslExpr::Pc => ("pc", 0, 0),
        SslExpr::Next => ("next", 0, 0),
    }
}

/// A line is an expression of this form, with these numbers.
fn is_of_form(
    alloc: Global,
    line: &LogicalLine,
    want: (&str, u64, u64),
) -> Result<bool, SyntaxFault> {
    match read_expression(alloc, line.tokens.as_slice())? {
        None => Ok(false),
        Some(expr) => {
            let (name, first, second) = form(&expr);
            Ok(name == want.0 && first == want.1 && second == want.2)
        },
    }
}

const FORMS: [(&str, u64, u64); 18] = [
    ("number", 16, 32),
    ("name", 0, 0),
    ("at a number", 3, 0),
    ("at an operand", 0, 0),
    ("load", 8, 0),
    ("load", 64, 0),
    ("at an operand", 0, 0),
    ("not", 0, 0),
    ("minus", 0, 0),
    ("binary", 1, 0),
    ("binary", 9, 0),
    ("bits", 7, 4),
    ("zeros", 32, 0),
    ("signs", 16, 0),
    ("choice", 0, 0),
    ("call", 0, 0),
    ("pc", 0, 0),
    ("next", 0, 0),
];

#[test]
fn each_form_is_read(rt: HostRuntime) -> Result<(), Fail> {
    let text = b"0x10:32
r
r[3]
r[rs1]
m8[a]
m64[m16[m32[a]]]
m12[a]
~a
-a
((a - b) <=! c)
(a <= (b /! c))
bits(r[1], 7, 4)
zx(32, a)
sx(16, a)
if(a, b, c)
f(a, g(b), 1:1)
%pc
%next
";
    let found = lines(rt.alloc(), text)?;
    assert_eq!(rt; found.len(), 18);
    for (line, want) in found.as_slice().iter().zip(FORMS.as_slice()) {
        assert!(rt; is_of_form(rt.alloc(), line, *want)?);
    }
    Ok(())
}

/// No line of a text is an expression.
fn are_no_expressions(alloc: Global, found: &[LogicalLine]) -> Result<bool, SyntaxFault> {
    for line in found {
        if read_expression(alloc, line.tokens.as_slice())?.is_some() {
            return Ok(false);
        }
    }
    Ok(true)
}

#[test]
fn other_tokens_are_no_expression(rt: HostRuntime) -> Result<(), Fail> {
    let text = b"none
jump
annul
zx
m8
bits
r[jump]
m8[4]
service()
1
1:
1:a
a b
(a)
(a + b
a + b
(a := b)
(a => b)
~
f(a,)
f(,a)
f(a b)
f(a
m8[a
bits(a, 1)
zx(a, 8)
if(a, b)
a[b]]
r[]
$
";
    let found = lines(rt.alloc(), text)?;
    assert_eq!(rt; found.len(), 30);
    assert!(rt; are_no_expressions(rt.alloc(), found.as_slice())?);
    Ok(())
}

/// The text's first line has no form.
pub fn is_bad(alloc: Global, text: &[u8]) -> bool {
    if text.len() > 1_000_000 {
        return false;
    }
    matches!(read_ssl(alloc, text), Err(SyntaxFault::BadLine { line: 1 }))
}

const NO_LINES: [&[u8]; 14] = [
    b"align maybe",
    b"delay",
    b"cell",
    b"cell C 1 1",
    b"cells r 32",
    b"view v[1] 8 is",
    b"view v[1] 8 is a,",
    b"windows a b 8",
    b"function f(a) := a",
    b"operand m(a:8) := a",
    b"instruction A := none",
    b"instruction A() := none; annul",
    b"instruction A() := *8* jump := a",
    b"instruction A() := service => a",
];

#[test]
fn other_lines_have_no_form(rt: HostRuntime) -> Result<(), Fail> {
    for text in NO_LINES {
        assert!(rt; is_bad(rt.alloc(), text));
    }
    Ok(())
}

/// The fault of a text.
fn fault(alloc: Global, text: &[u8]) -> Option<SyntaxFault> {
    if text.len() > 1_000_000 {
        return None;
    }
    read_ssl(alloc, text).err()
}

#[test]
fn the_first_bad_line_is_told(rt: HostRuntime) {
    let text = b"align yes\n\nview v[1] 8 is\ncell C 1\ncell";
    let found = fault(rt.alloc(), text);
    assert!(rt; matches!(found, Some(SyntaxFault::BadLine { line: 3 })));
    assert!(rt; fault(rt.alloc(), b"").is_none());
}
