use super::*;
use sqlite_items::Items;
use std::alloc::{AllocError, Global};
use std::test::Fail;
use text_lex::Token;

fn push_name(out: &mut String, name: &Items<u8>) -> Result<(), AllocError> {
    for letter in name.as_slice() {
        out.push(char::from(*letter))?;
    }
    Ok(())
}

/// A cell as its name, and a dot and its index.
fn push_cell(alloc: Global, out: &mut String, cell: &ConvCell) -> Result<(), AllocError> {
    out.push(' ')?;
    push_name(out, &cell.name)?;
    match cell.index {
        None => Ok(()),
        Some(index) => out.push_str(&format!(in alloc; ".{index}")?),
    }
}

fn push_service(alloc: Global, out: &mut String, line: &ServiceLine) -> Result<(), AllocError> {
    out.push_str(" service")?;
    for cell in [
        &line.number,
        &line.arg_x,
        &line.arg_y,
        &line.arg_z,
        &line.result,
    ] {
        push_cell(alloc, out, cell)?;
    }
    match &line.error {
        None => out.push_str(" no error cell"),
        Some(cell) => push_cell(alloc, out, cell),
    }
}

/// A word and a number.
fn push_number(alloc: Global, out: &mut String, word: &str, number: u64) -> Result<(), AllocError> {
    out.push_str(&format!(in alloc; " {word} {number}")?)
}

/// A word and a name.
fn push_named(out: &mut String, word: &str, name: &Items<u8>) -> Result<(), AllocError> {
    out.push_str(word)?;
    push_name(out, name)
}

fn push_body(alloc: Global, out: &mut String, body: &ConvBody) -> Result<(), AllocError> {
    match body {
        ConvBody::Elf(number) => push_number(alloc, out, "elf", *number),
        ConvBody::Stack(line) => {
            out.push_str(" stack")?;
            push_cell(alloc, out, &line.cell)?;
            out.push_str(&format!(in alloc; " {} {} {}", line.base, line.size, line.room)?)
        },
        ConvBody::Heap { base, size } => out.push_str(&format!(in alloc; " heap {base} {size}")?),
        ConvBody::Service(line) => push_service(alloc, out, line),
        ConvBody::Exit(number) => push_number(alloc, out, "exit", *number),
        ConvBody::Read(number) => push_number(alloc, out, "read", *number),
        ConvBody::Write(number) => push_number(alloc, out, "write", *number),
        ConvBody::Brk(number) => push_number(alloc, out, "brk", *number),
        ConvBody::Errors {
            fault,
            descriptor,
            unknown,
        } => out.push_str(&format!(in alloc; " errors {fault} {descriptor} {unknown}")?),
        ConvBody::Link(cell) => {
            out.push_str(" link")?;
            push_cell(alloc, out, cell)
        },
        ConvBody::Call(name) => push_named(out, " call ", name),
        ConvBody::Return(name) => push_named(out, " return ", name),
        ConvBody::Entry(number) => push_number(alloc, out, "entry", *number),
        ConvBody::Whole(number) => push_number(alloc, out, "whole", *number),
        ConvBody::Pad(name) => push_named(out, " pad ", name),
        ConvBody::Args(number) => push_number(alloc, out, "args", *number),
    }
}

/// The values of a text as words, or its fault.
fn shown(alloc: Global, text: &[u8]) -> Result<String, Fail> {
    let mut out = String::new(alloc);
    if text.len() > 1_000_000 {
        return Ok(out);
    }
    match read_conv(alloc, text) {
        Ok(values) => {
            for value in values.as_slice() {
                out.push_str(&format!(in alloc; " {}", value.number)?)?;
                push_body(alloc, &mut out, &value.body)?;
            }
        },
        Err(SyntaxFault::BadLine { line }) => out.push_str(&format!(in alloc; "bad {line}")?)?,
        Err(fault) => out.push_str(&format!(in alloc; "{fault}")?)?,
    }
    Ok(out)
}

#[test]
fn each_line_is_read(rt: HostRuntime) -> Result<(), Fail> {
    let table: [(&[u8], &str); 39] = [
        (b"", ""),
        (b"elf 2\n\nelf 0x10", " 1 elf 2 3 elf 16"),
        (
            b"stack r[14] 0xEF000000 0x00800000 256",
            " 1 stack r.14 4009754624 8388608 256",
        ),
        (b"stack sp 0 1 2", " 1 stack sp 0 1 2"),
        (b"heap 0x20000000 4096", " 1 heap 536870912 4096"),
        (
            b"service r[1] args r[8] r[9] r[10] result r[8] error C",
            " 1 service r.1 r.8 r.9 r.10 r.8 C",
        ),
        (
            b"service a args b c d\n  result e error negative",
            " 1 service a b c d e no error cell",
        ),
        (
            b"service a args b c d result e error negative[0]",
            " 1 service a b c d e negative.0",
        ),
        (
            b"service args args args args args result result error error",
            " 1 service args args args args result error",
        ),
        (
            b"service negative args a b c result d error e",
            " 1 service negative a b c d e",
        ),
        (
            b"exit 1\nread 3\nwrite 4\nbrk 17",
            " 1 exit 1 2 read 3 3 write 4 4 brk 17",
        ),
        (
            b"errors fault 14 descriptor 9 unknown 90",
            " 1 errors 14 9 90",
        ),
        (b"link r[15]\nlink ra", " 1 link r.15 2 link ra"),
        (b"call JMPL\nreturn return", " 1 call JMPL 2 return return"),
        (
            b"entry 0x10000\nwhole 18446744073709551615",
            " 1 entry 65536 2 whole 18446744073709551615",
        ),
        (b"elf", "bad 1"),
        (b"elf 2 3", "bad 1"),
        (b"elf two", "bad 1"),
        (b"elf 18446744073709551616", "bad 1"),
        (b"Elf 2", "bad 1"),
        (b"2 elf", "bad 1"),
        (b"stack r[14] 1 2", "bad 1"),
        (b"stack r[14 1 2 3", "bad 1"),
        (b"heap 4096", "bad 1"),
        (b"service a args b c result e error f", "bad 1"),
        (b"service a args b c d result e error", "bad 1"),
        (b"service a args b c d result e error negative f", "bad 1"),
        (b"errors fault 1 unknown 2 descriptor 3", "bad 1"),
        (b"link r[x]", "bad 1"),
        (b"call 7", "bad 1"),
        (b"entry main", "bad 1"),
        (
            b"pad UNIMP\npad pad\npad UNIMP",
            " 1 pad UNIMP 2 pad pad 3 pad UNIMP",
        ),
        (b"args 64\nargs 0x102", " 1 args 64 2 args 258"),
        (b"pad 4", "bad 1"),
        (b"pad A B", "bad 1"),
        (b"args A", "bad 1"),
        (b"args 64 0", "bad 1"),
        (b"elf 2\nheap\nbrk", "bad 2"),
        (
            b"elf 2\nheap\nbrk \x80",
            "line 3: a byte that no line may hold",
        ),
    ];
    for (text, want) in table {
        assert_eq!(rt; shown(rt.alloc(), text)?.as_str(), want);
    }
    Ok(())
}

/// Tokens as text: names and numbers as they are, signs by their places.
fn tokens_shown(alloc: Global, tokens: &[Token]) -> Result<String, AllocError> {
    let mut out = String::new(alloc);
    for token in tokens {
        out.push(' ')?;
        match token {
            Token::Name(letters) => push_name(&mut out, letters)?,
            Token::Number(value) => out.push_str(&format!(in alloc; "{value}")?)?,
            Token::Sign(index) => out.push_str(&format!(in alloc; "${index}")?)?,
            Token::Bad => out.push('!')?,
        }
    }
    Ok(out)
}

#[test]
fn each_line_is_spelled(rt: HostRuntime) -> Result<(), Fail> {
    let text =
        b"stack r[14] 0 8 16\nservice a args b c[1] d result e error negative\nerrors fault 1 descriptor 2 unknown 3\ncall A\npad B\nargs 64";
    let mut out = String::new(rt.alloc());
    for value in read_conv(rt.alloc(), text)?.as_slice() {
        let tokens = spell(rt.alloc(), &value.body)?;
        out.push_str(&tokens_shown(rt.alloc(), tokens.as_slice())?)?;
    }
    assert_eq!(rt;
        out.as_str(),
        " stack r $17 14 $18 0 8 16 service a args b c $17 1 $18 d result e error negative errors fault 1 descriptor 2 unknown 3 call A pad B args 64"
    );
    Ok(())
}

#[test]
fn the_law_needs_nothing() {
    lines_differ();
}
