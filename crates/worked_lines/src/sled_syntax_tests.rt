//! Lines of descriptions of encodings, read and spelled again.
use sled_syntax::{Part, SledBody, SledPattern, SyntaxFault, lines_differ, read_sled, spell};
use sqlite_items::Items;
use std::alloc::{AllocError, Global};
use std::test::Fail;
use text_lex::{Token, lines};

fn push_name(out: &mut String, name: &Items<u8>) -> Result<(), AllocError> {
    for letter in name.as_slice() {
        out.push(char::from(*letter))?;
    }
    Ok(())
}

fn show_part(alloc: Global, out: &mut String, part: &Part) -> Result<(), AllocError> {
    match part {
        Part::Equal(name, value) => {
            push_name(out, name)?;
            out.push_str(&format!(in alloc; "={value}")?)
        },
        Part::Differs(name, value) => {
            push_name(out, name)?;
            out.push_str(&format!(in alloc; "!{value}")?)
        },
        Part::Lone(name) => push_name(out, name),
    }
}

/// Alternatives in braces, items in brackets, parts with blanks before them.
fn show_pattern(alloc: Global, out: &mut String, pattern: &SledPattern) -> Result<(), AllocError> {
    for items in pattern.alternatives.as_slice() {
        out.push_str(" {")?;
        for item in items.as_slice() {
            out.push('[')?;
            for part in item.parts.as_slice() {
                out.push(' ')?;
                show_part(alloc, out, part)?;
            }
            if let Some(name) = &item.rest {
                out.push_str(" .. ")?;
                push_name(out, name)?;
            }
            out.push(']')?;
        }
        out.push('}')?;
    }
    Ok(())
}

/// The parts of a line, in their order.
fn show_body(alloc: Global, out: &mut String, body: &SledBody) -> Result<(), AllocError> {
    match body {
        SledBody::ByteOrder { big } => out.push_str(if *big { " big" } else { " little" }),
        SledBody::Fields {
            token,
            width,
            fields,
        } => {
            out.push_str(&format!(in alloc; " token {width} ")?)?;
            push_name(out, token)?;
            for field in fields.as_slice() {
                out.push(' ')?;
                push_name(out, &field.name)?;
                out.push_str(&format!(in alloc; " {} {}", field.lo, field.hi)?)?;
            }
            Ok(())
        },
        SledBody::Pattern { name, pattern } => {
            out.push_str(" pattern ")?;
            push_name(out, name)?;
            show_pattern(alloc, out, pattern)
        },
        SledBody::Constructor {
            name,
            ops,
            of_type,
            pattern,
        } => {
            out.push_str(" constructor ")?;
            push_name(out, name)?;
            for op in ops.as_slice() {
                out.push(' ')?;
                push_name(out, op)?;
            }
            if let Some(name) = of_type {
                out.push_str(" of ")?;
                push_name(out, name)?;
            }
            show_pattern(alloc, out, pattern)
        },
    }
}

/// The values of a text as words, or its fault.
fn shown(alloc: Global, text: &[u8]) -> Result<String, Fail> {
    let mut out = String::new(alloc);
    if text.len() > 1_000_000 {
        return Ok(out);
    }
    match read_sled(alloc, text) {
        Ok(values) => {
            for value in values.as_slice() {
                out.push_str(&format!(in alloc; " {}", value.number)?)?;
                show_body(alloc, &mut out, &value.body)?;
            }
        },
        Err(SyntaxFault::BadLine { line }) => out.push_str(&format!(in alloc; "bad {line}")?)?,
        Err(fault) => out.push_str(&format!(in alloc; "{fault}")?)?,
    }
    Ok(out)
}

#[test]
fn each_line_is_read(rt: HostRuntime) -> Result<(), Fail> {
    let table: [(&[u8], &str); 20] = [
        (b"", ""),
        (b"order big\n\norder little", " 1 big 3 little"),
        (b"fields of w (8)", " 1 token 8 w"),
        (
            b"fields of w (32) op 30:31\n  all 0 : 0x1F",
            " 1 token 32 w op 30 31 all 0 31",
        ),
        (b"pattern p is a", " 1 pattern p {[ a]}"),
        (
            b"pattern p is a = 1 & b != 2 | c ; d",
            " 1 pattern p {[ a=1 b!2]} {[ c][ d]}",
        ),
        (
            b"pattern p is a ... & t ; b = 0 ... & u | c",
            " 1 pattern p {[ a .. t][ b=0 .. u]} {[ c]}",
        ),
        (b"constructor A is op = 0", " 1 constructor A {[ op=0]}"),
        (
            b"constructor A a, b : t is a & b",
            " 1 constructor A a b of t {[ a b]}",
        ),
        (b"constructor A : t is x", " 1 constructor A of t {[ x]}"),
        (
            b"constructor A is is op = 1",
            " 1 constructor A is {[ op=1]}",
        ),
        (b"constructor A is is = 1", " 1 constructor A {[ is=1]}"),
        (b"constructor A is is", " 1 constructor A {[ is]}"),
        (
            b"constructor is is, is : is is is",
            " 1 constructor is is is of is {[ is]}",
        ),
        (b"order middle", "bad 1"),
        (b"order big\npattern p is\nconstructor", "bad 2"),
        (b"constructor A is is is = 1 1", "bad 1"),
        (b"pattern p is a ... b", "bad 1"),
        (b"fields of w (8) op 1", "bad 1"),
        (
            b"order\npattern \x80",
            "line 2: a byte that no line may hold",
        ),
    ];
    for (text, want) in table {
        assert_eq!(rt; shown(rt.alloc(), text)?.as_str(), want);
    }
    Ok(())
}

#[test]
fn a_constructor_without_a_name_is_a_bad_line(rt: HostRuntime) -> Result<(), Fail> {
    let text = b"order big
fields of w (32) op 30:31 rd 25:29 op3 19:24 rs1 14:18 i 13:13 imm 0:12 all 0:31
constructor ORI rs1, imm, rd is op = 2 & op3 = 2 & i = 1 & rs1 & imm & rd
constructor TA is all = 0x91D02010
constructor
";
    assert_eq!(rt; shown(rt.alloc(), text)?.as_str(), "bad 5");
    Ok(())
}

/// Tokens as text: names and numbers as they are, signs by their places.
fn show_tokens(alloc: Global, tokens: &[Token]) -> Result<String, AllocError> {
    let mut out = String::new(alloc);
    for token in tokens {
        out.push(' ')?;
        match token {
            Token::Name(letters) => push_name(&mut out, letters)?,
            Token::Number(value) => out.push_str(&format!(in alloc; "{value}")?)?,
            Token::Sign(index) => out.push_str(&format!(in alloc; "${index}")?)?,
            Token::Bad => out.push('!')?,
        }
    }
    Ok(out)
}

#[test]
fn what_is_read_is_spelled_again(rt: HostRuntime) -> Result<(), Fail> {
    let text = b"order little
order big
fields of w (32) op 30:31 all 0:31
pattern p is a = 1 & b != 2 | c ; d ... & t
constructor A is op = 0
constructor A a, b : t is a & b
";
    let alloc = rt.alloc();
    let found = lines(alloc, text)?;
    let values = read_sled(alloc, text)?;
    assert_eq!(rt; values.len(), 6);
    for (value, line) in values.as_slice().iter().zip(found.as_slice()) {
        let tokens = spell(alloc, &value.body)?;
        assert_eq!(rt;
            show_tokens(alloc, tokens.as_slice())?.as_str(),
            show_tokens(alloc, line.tokens.as_slice())?.as_str()
        );
    }
    Ok(())
}

#[test]
fn the_law_needs_nothing() {
    lines_differ();
}
