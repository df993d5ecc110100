// The command `check` over files in memory.
use crate::tests::{CONV, FINE, SLED, SSL, Texts, answer, plainly, sink, source};
use crate::{DescFault, FileName, Outcome};
use conventions::ConvFault;
use sled_rules::SledFault;
use ssl_rules::SslFault;
use std::alloc::Global;
use std::test::Fail;

#[test]
fn the_small_machine_is_accepted(rt: HostRuntime) -> Result<(), Fail> {
    let alloc = rt.alloc();
    assert_eq!(rt;
        plainly(alloc, b"check", b"abc", b"", &FINE)?,
        Outcome::Done
    );
    Ok(())
}

// A text with its first part `old` as `new`.
fn changed(alloc: Global, text: &[u8], old: &[u8], new: &[u8]) -> Result<Vec<u8>, Fail> {
    let mut out = Vec::new(alloc);
    for at in 0..text.len() {
        let (front, rest) = text.split_at(at);
        if rest.starts_with(old) {
            out.extend_from_slice(front)?;
            out.extend_from_slice(new)?;
            out.extend_from_slice(rest.split_at(old.len()).1)?;
            return Ok(out);
        }
    }
    Ok(out)
}

fn with_sled(alloc: Global, old: &[u8], new: &[u8]) -> Result<Outcome, Fail> {
    let text = changed(alloc, SLED, old, new)?;
    let texts = Texts {
        sled: &text,
        ..FINE
    };
    plainly(alloc, b"check", b"abc", b"", &texts)
}

fn with_ssl(alloc: Global, old: &[u8], new: &[u8]) -> Result<Outcome, Fail> {
    let text = changed(alloc, SSL, old, new)?;
    let texts = Texts { ssl: &text, ..FINE };
    plainly(alloc, b"check", b"abc", b"", &texts)
}

fn with_conv(alloc: Global, old: &[u8], new: &[u8]) -> Result<Outcome, Fail> {
    let text = changed(alloc, CONV, old, new)?;
    let texts = Texts {
        conv: &text,
        ..FINE
    };
    plainly(alloc, b"check", b"abc", b"", &texts)
}

#[test]
fn the_first_fault_of_sled_is_told(rt: HostRuntime) -> Result<(), Fail> {
    let alloc = rt.alloc();
    let outcome = with_sled(alloc, b"0x91D02010", b"0x91D02010\nconstructor")?;
    let fault = DescFault::BadLine { line: 5 };
    let file = FileName::Sled;
    assert_eq!(rt; outcome, Outcome::Description { file, fault });
    assert_eq!(rt; outcome.status(), 65);
    let outcome = with_sled(alloc, b"imm 0:12", b"imm 0:32")?;
    let fault = DescFault::Sled(SledFault::FieldRange { line: 2 });
    assert_eq!(rt; outcome, Outcome::Description { file, fault });
    Ok(())
}

const LINE_5: &[u8] =
    b"zero r[0]\ninstruction ORI (rs1, imm, rd) := *32* r[rd] := (r[rs1] | sx(32, imm))";

#[test]
fn the_first_fault_of_ssl_is_told(rt: HostRuntime) -> Result<(), Fail> {
    let alloc = rt.alloc();
    let file = FileName::Ssl;
    let outcome = with_ssl(alloc, b"(r[rs1] | sx(32, imm))", b"C")?;
    let fault = DescFault::Ssl(SslFault::WidthDiffers {
        line: 6,
        left: 32,
        right: 1,
    });
    assert_eq!(rt; outcome, Outcome::Description { file, fault });
    let outcome = with_ssl(
        alloc,
        LINE_5,
        b"zero q\ninstruction ORI (rs1, imm, rd) := *32* r[rd] := C",
    )?;
    let fault = DescFault::Ssl(SslFault::Unknown { line: 5 });
    assert_eq!(rt; outcome, Outcome::Description { file, fault });
    Ok(())
}

#[test]
fn the_first_fault_of_conv_is_told(rt: HostRuntime) -> Result<(), Fail> {
    let alloc = rt.alloc();
    let file = FileName::Conv;
    let outcome = with_conv(alloc, b"0x01000000", b"0x01000001")?;
    let fault = DescFault::Conv(ConvFault::FieldRange { line: 3 });
    assert_eq!(rt; outcome, Outcome::Description { file, fault });
    let outcome = with_conv(alloc, b"elf 2\n", b"")?;
    let fault = DescFault::Conv(ConvFault::Missing { kind: 1 });
    assert_eq!(rt; outcome, Outcome::Description { file, fault });
    Ok(())
}

#[test]
fn the_line_of_an_answer_is_told(rt: HostRuntime) -> Result<(), Fail> {
    let alloc = rt.alloc();
    let mut out = sink(alloc)?;
    let mut messages = sink(alloc)?;
    let text = changed(alloc, SLED, b"0x91D02010", b"0x91D02010\nconstructor")?;
    let texts = Texts {
        sled: &text,
        ..FINE
    };
    answer(
        alloc,
        b"check",
        b"abc",
        b"",
        &texts,
        &mut source(alloc, b"", Vec::new(alloc))?,
        &mut out,
        &mut messages,
    )?;
    assert_eq!(rt;
        messages.bytes(),
        b"uqbt: description sled bad-line 5\n".as_slice()
    );
    let mut messages = sink(alloc)?;
    let text = changed(alloc, CONV, b"elf 2\n", b"")?;
    let texts = Texts {
        conv: &text,
        ..FINE
    };
    answer(
        alloc,
        b"check",
        b"abc",
        b"",
        &texts,
        &mut source(alloc, b"", Vec::new(alloc))?,
        &mut out,
        &mut messages,
    )?;
    assert_eq!(rt;
        messages.bytes(),
        b"uqbt: description conv missing 1\n".as_slice()
    );
    assert_eq!(rt; out.bytes(), b"".as_slice());
    Ok(())
}

#[test]
fn a_text_over_four_mebibytes_is_too_long(rt: HostRuntime) -> Result<(), Fail> {
    let alloc = rt.alloc();
    let text = vec![in alloc; b'x'; 4_194_305]?;
    let texts = Texts {
        sled: &text,
        ..FINE
    };
    assert_eq!(rt;
        plainly(alloc, b"check", b"abc", b"", &texts)?,
        Outcome::FileTooLong {
            file: FileName::Sled
        }
    );
    Ok(())
}
