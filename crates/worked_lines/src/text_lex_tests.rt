//! Lines of texts as their tokens, and the fault of a text that is none.
use std::alloc::{AllocError, Global};
use std::test::Fail;
use text_lex::{LexFault, LogicalLine, Token, lines, spelled_tokens, written_lines};

/// A line as text: names and numbers as they are, signs by their places, and `!` for a bad token.
fn shown(alloc: Global, line: &LogicalLine) -> Result<String, AllocError> {
    let mut out = format!(in alloc; "{}:", line.number)?;
    for token in line.tokens.as_slice() {
        out.push(' ')?;
        match token {
            Token::Name(letters) => {
                for letter in letters.as_slice() {
                    out.push(char::from(*letter))?;
                }
            },
            Token::Number(value) => out.push_str(&format!(in alloc; "{value}")?)?,
            Token::Sign(index) => out.push_str(&format!(in alloc; "${index}")?)?,
            Token::Bad => out.push('!')?,
        }
    }
    Ok(out)
}

#[test]
fn lines_have_their_tokens(rt: HostRuntime) -> Result<(), Fail> {
    let table: [(&[u8], &[&str]); 10] = [
        (b"", &[]),
        (b"order big", &["1: order big"]),
        (
            b"fields of w (8) op 0:7 # eight bits\n",
            &["1: fields of w $15 8 $16 op 0 $21 7"],
        ),
        (b"a # c\r\n b\r\n\n \t\nc", &["1: a b", "5: c"]),
        (b"#\n x", &["2: x"]),
        (b"a\n#\n  b", &["1: a b"]),
        (
            b"007 0x1F 0xfF 18446744073709551615 0xFFFFFFFFFFFFFFFF",
            &["1: 7 31 255 18446744073709551615 18446744073709551615"],
        ),
        (
            b"12ab 0x 0X1 %pcx %next_ 18446744073709551616 1_",
            &["1: ! ab ! x ! X1 ! pcx ! next_ ! ! _"],
        ),
        (
            b"... <=! >>! //! %next %pc := != => <= <! << >> // /! ( ) [ ] , ; : = & | + - * / < ^ ~",
            &[
                "1: $0 $1 $2 $3 $4 $5 $6 $7 $8 $9 $10 $11 $12 $13 $14 $15 $16 $17 $18 $19 $20 $21 $22 $23 $24 $25 $26 $27 $28 $29 $30 $31",
            ],
        ),
        (b"<<=!..//!!%pc)", &["1: $11 $22 ! ! ! $3 ! $5 $16"]),
    ];
    for (text, want) in table {
        let found = lines(rt.alloc(), text)?;
        assert_eq!(rt; found.len(), want.len());
        for (line, want) in found.as_slice().iter().zip(want) {
            assert_eq!(rt; shown(rt.alloc(), line)?.as_str(), *want);
        }
    }
    Ok(())
}

#[test]
fn faults_are_told(rt: HostRuntime) -> Result<(), Fail> {
    let bad_byte = |line| Some(LexFault::BadByte { line });
    let long_line = Some(LexFault::LongLine { line: 1 });
    let table: [(usize, &[u8], Option<LexFault>); 11] = [
        (1, b"\n\r\r\n", bad_byte(2)),
        (1, b"\r", bad_byte(1)),
        (1, b"\x7F # \x80", bad_byte(1)),
        (1, b" # \r\x00\x80", None),
        (1, b"\n\n \x80\n\x00", bad_byte(3)),
        (65532, b"\n b# not counted", None),
        (65533, b"\n b", long_line),
        (65533, b"\n\n\tb\n\x80", long_line),
        (65533, b"\x80 \n b", bad_byte(1)),
        (65535, b"\n#\n \n", None),
        (65536, b"", long_line),
    ];
    for (letters, tail, want) in table {
        let mut text = vec![in rt.alloc(); b'a'; letters]?;
        text.extend_from_slice(tail)?;
        assert!(rt; text.len() < 100_000);
        assert_eq!(rt; lines(rt.alloc(), &text).err(), want);
    }
    Ok(())
}

fn repeated(alloc: Global, piece: &[u8], count: usize) -> Result<Vec<u8>, AllocError> {
    let mut text = Vec::new(alloc);
    for _ in 0..count {
        text.extend_from_slice(piece)?;
    }
    Ok(text)
}

#[test]
fn many_lines_are_counted(rt: HostRuntime) -> Result<(), Fail> {
    for (count, want) in [(65535, None), (65536, Some(LexFault::ManyLines))] {
        let text = repeated(rt.alloc(), b"a\n\n b\n", count)?;
        assert!(rt; text.len() < 1_000_000);
        assert_eq!(rt; lines(rt.alloc(), &text).err(), want);
    }
    Ok(())
}

#[test]
fn four_mebibytes_are_read(rt: HostRuntime) -> Result<(), Fail> {
    let piece =
        b"instruction add(rs1, rs2) := *32* r[rd] := (r[rs1] + r[rs2])  #\n  ; jump (%pc + 4:32) ; *1* C := (0x1f <! 12) ; trap 0:32  # ab\n";
    assert_eq!(rt; piece.len(), 128);
    let text = repeated(rt.alloc(), piece, 32768)?;
    assert_eq!(rt; text.len(), 4 << 20);
    let found = lines(rt.alloc(), &text)?;
    assert_eq!(rt; found.len(), 32768);
    Ok(())
}

#[test]
fn laws_need_nothing() {
    spelled_tokens();
    written_lines();
}
