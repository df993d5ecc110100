//! Descriptions of encodings with their first fault or their normal form, worked out by hand.
use rtl_core::{Encodings, Item, OperandKind};
use sled_core::normal_sled;
use sled_syntax::read_sled;
use std::alloc::Global;
use std::test::Fail;

/// What is told of a text: its fault, or nothing where it is accepted.
fn told(alloc: Global, text: &str) -> Result<String, Fail> {
    if text.len() > 60_000 {
        return Ok(format!(in alloc; "too long")?);
    }
    let lines = match read_sled(alloc, text.as_bytes()) {
        Ok(lines) => lines,
        Err(fault) => return Ok(format!(in alloc; "{fault}")?),
    };
    match normal_sled(alloc, lines.as_slice()) {
        Ok(_) => Ok(String::new(alloc)),
        Err(fault) => Ok(format!(in alloc; "{fault}")?),
    }
}

/// Three lines that stand before each line of a table.
const BEFORE: &str =
    "order big\nfields of w ( 8 ) a 0 : 3 b 4 : 7 c 0 : 7\nfields of v ( 8 ) d 0 : 3 e 4 : 7\n";

/// Whole texts, with what is told.
const WHOLE: &[(&str, &str)] = &[
    ("", ""),
    ("order little", ""),
    ("order big\norder little", "line 2: a name given twice"),
    ("fields of w ( 8 ) a 0 : 7", "line 1: an unknown name"),
    ("fields of w ( 7 ) w 0 : 9", "line 1: an unknown name"),
    ("order big\nfields of w ( 8 )", ""),
    ("order big\nfields of w ( 16 ) a 0 : 15", ""),
    ("order big\nfields of w ( 9 )", "line 2: out of range"),
    ("order big\nfields of w ( 64 )", "line 2: out of range"),
    ("order big\nfields of w ( 32 ) a 0 : 31", ""),
    (
        "order big\nfields of w ( 32 ) a 0 : 32",
        "line 2: out of range",
    ),
    (
        "order big\nfields of w ( 32 ) a 5 : 4",
        "line 2: out of range",
    ),
    ("order big\nfields of w ( 32 ) a 4 : 4", ""),
    (
        "order big\nfields of w ( 9 ) a 0 : 1 a 2 : 3",
        "line 2: a name given twice",
    ),
    (
        "order big\nfields of w ( 8 ) w 0 : 1",
        "line 2: a name given twice",
    ),
    (
        "order big\nfields of zx ( 8 )",
        "line 2: a name given twice",
    ),
    (
        "order big\nfields of w ( 8 ) none 0 : 1",
        "line 2: a name given twice",
    ),
    (
        "order big\nfields of w ( 8 ) a 0 : 1\nfields of v ( 8 ) a 0 : 1",
        "line 3: a name given twice",
    ),
    (
        "order big\nfields of w ( 8 ) a 0 : 1\nfields of a ( 8 )",
        "line 3: a name given twice",
    ),
    (
        "order big\nfields of w ( 8 ) a 0 : 1\nfields of w ( 8 )",
        "line 3: a name given twice",
    ),
    (
        "order big\npattern p is q = 1\nfields of w ( 9 )",
        "line 2: an unknown name",
    ),
];

/// Lines, behind the three, with what is told.
const LINES: &[(&str, &str)] = &[
    ("constructor A is a = 1", ""),
    ("constructor A is q = 1", "line 4: an unknown name"),
    ("constructor A is w = 1", "line 4: an unknown name"),
    ("constructor A is a", "line 4: an unknown name"),
    ("constructor A is w", "line 4: an unknown name"),
    ("constructor A a is a", ""),
    ("constructor A a is a = 1", "line 4: an unknown name"),
    ("constructor A w is a = 1", "line 4: an unknown name"),
    ("constructor A a is a | b = 1", "line 4: an unknown name"),
    ("constructor A T is T", "line 4: an unknown name"),
    ("constructor A T : T is T", "line 4: an unknown name"),
    ("constructor A is a = 1 ... & T", "line 4: an unknown name"),
    ("constructor A is a = 1 ... & a", "line 4: an unknown name"),
    ("pattern p is a", "line 4: an unknown name"),
    ("pattern p is p", "line 4: an unknown name"),
    ("pattern p is a = 1 & b = 1 ; d != 2 | c = 255", ""),
    ("pattern a is a = 1", "line 4: a name given twice"),
    ("pattern w is a = 1", "line 4: a name given twice"),
    ("pattern bits is a = 1", "line 4: a name given twice"),
    ("constructor a is a = 1", "line 4: a name given twice"),
    ("constructor jump is a = 1", "line 4: a name given twice"),
    ("constructor A : A is a = 1", "line 4: a name given twice"),
    ("constructor A : a is a = 1", "line 4: a name given twice"),
    ("constructor A : if is a = 1", "line 4: a name given twice"),
    (
        "constructor instruction is a = 1",
        "line 4: a name given twice",
    ),
    ("constructor instruction : T is a = 1", ""),
    ("constructor A a , a is a", "line 4: a name given twice"),
    ("constructor A a is a & a", "line 4: a name given twice"),
    ("constructor A a is a ; a", "line 4: a name given twice"),
    (
        "constructor A a is b = 1 ; a | a & a",
        "line 4: a name given twice",
    ),
    ("constructor a q is a = 1", "line 4: an unknown name"),
    ("constructor a is a = 99", "line 4: a name given twice"),
    ("constructor A is a = 15", ""),
    ("constructor A is a = 16", "line 4: out of range"),
    ("constructor A is c = 255", ""),
    ("constructor A is c != 256", "line 4: out of range"),
    (
        "constructor A is c = 18446744073709551615",
        "line 4: out of range",
    ),
    ("constructor A is a = 16 & d = 1", "line 4: out of range"),
    ("constructor A is a = 1 & b = 2", ""),
    (
        "constructor A is a = 1 & d = 2",
        "line 4: parts over different tokens",
    ),
    (
        "constructor A a , d is a & d",
        "line 4: parts over different tokens",
    ),
    ("constructor A a , d is a ; d", ""),
    (
        "constructor A is c = 1 ; c = 1 ; c = 1 ; c = 1 ; c = 1 ; c = 1 ; c = 1 ; c = 1 ; c = 1 ; c = 1 ; c = 1 ; c = 1 ; c = 1 ; c = 1 ; c = 1 ; c = 1",
        "",
    ),
    (
        "pattern p is c = 1 ; c = 1 ; c = 1 ; c = 1 ; c = 1 ; c = 1 ; c = 1 ; c = 1 ; c = 1 ; c = 1 ; c = 1 ; c = 1 ; c = 1 ; c = 1 ; c = 1 ; c = 1 ; c = 1",
        "line 4: over a limit",
    ),
    (
        "constructor A is c = 1 ; c = 1 ; c = 1 ; c = 1 ; c = 1 ; c = 1 ; c = 1 ; c = 1 ; c = 1 ; c = 1 ; c = 1 ; c = 1 ; c = 1 ; c = 1 ; c = 1 ; c = 1 ; c = 1 | c = 2",
        "line 4: over a limit",
    ),
];

/// Lines behind others, behind the three, with what is told.
const BEHIND: &[(&str, &str)] = &[
    ("pattern p is a = 1 | a = 2\nconstructor A is p & b = 1", ""),
    (
        "pattern p is a = 1 | d = 2\nconstructor A is p & b = 1",
        "line 5: parts over different tokens",
    ),
    ("pattern p is a = 1 | d = 2\nconstructor A is p", ""),
    ("pattern p is a = 1 | d = 2\nconstructor A is p ; p", ""),
    ("pattern p is a = 1 ; a = 2\nconstructor A is p", ""),
    (
        "pattern p is a = 1 ; a = 2\nconstructor A is p & b = 1",
        "line 5: parts over different tokens",
    ),
    (
        "pattern p is a = 1 | a = 2 ; b = 1\nconstructor A is b = 1 & p",
        "line 5: parts over different tokens",
    ),
    (
        "pattern p is a = 1\npattern p is a = 2",
        "line 5: a name given twice",
    ),
    (
        "pattern p is a = 1\nconstructor p is a = 2",
        "line 5: a name given twice",
    ),
    (
        "pattern p is a = 1\nconstructor A : p is a = 2",
        "line 5: a name given twice",
    ),
    (
        "pattern p is a = 1\nconstructor A p is p",
        "line 5: an unknown name",
    ),
    ("constructor X : T is a = 1\nconstructor A T is T", ""),
    (
        "constructor X : T is a = 1\nconstructor A T is b = 1 ; T",
        "",
    ),
    (
        "constructor X : T is a = 1\nconstructor A T is b = 1 ... & T",
        "",
    ),
    (
        "constructor X : T is a = 1\nconstructor A T is d = 1 ... & T",
        "line 5: parts over different tokens",
    ),
    (
        "constructor X : T is a = 1 | d = 1\nconstructor A T is a = 1 ... & T",
        "line 5: parts over different tokens",
    ),
    (
        "constructor X : T is a = 1 | d = 1\nconstructor A T is a = 1 ; T",
        "",
    ),
    (
        "constructor X : T is a = 1\nconstructor A T is b = 1 & T",
        "line 5: parts over different tokens",
    ),
    (
        "constructor X : T is a = 1\nconstructor A T is T & b = 1",
        "line 5: parts over different tokens",
    ),
    (
        "constructor X : T is a = 1\nconstructor A T is T ... & T",
        "line 5: a name given twice",
    ),
    (
        "constructor X : T is a = 1\nconstructor A is T",
        "line 5: an unknown name",
    ),
    (
        "constructor X : T is a = 1\nconstructor A is b = 1 & T",
        "line 5: an unknown name",
    ),
    (
        "constructor X : T is a = 1\nconstructor A T is b = 1",
        "line 5: an unknown name",
    ),
    (
        "constructor X : T is a = 1\npattern p is T",
        "line 5: an unknown name",
    ),
    (
        "constructor X : T is a = 1\nconstructor T is a = 1",
        "line 5: a name given twice",
    ),
    (
        "constructor X : T is a = 1\nconstructor X : T is a = 1",
        "line 5: a name given twice",
    ),
    (
        "constructor X : T is a = 1\nconstructor Y : X is a = 1",
        "line 5: a name given twice",
    ),
    (
        "constructor X is a = 1\npattern instruction is a = 1",
        "line 5: a name given twice",
    ),
    (
        "pattern instruction is a = 1\nconstructor X is a = 1",
        "line 5: a name given twice",
    ),
    (
        "constructor X is a = 1\nconstructor A instruction : T is instruction",
        "",
    ),
    (
        "constructor X is a = 1\nconstructor A instruction is instruction",
        "line 5: a constructor behind a use of its type",
    ),
    (
        "constructor X : T is a = 1\nconstructor A T : T is T",
        "line 5: a constructor behind a use of its type",
    ),
    (
        "constructor X : T is a = 1\nconstructor A T is T\nconstructor Y : T is a = 2",
        "line 6: a constructor behind a use of its type",
    ),
    (
        "constructor X : T is a = 1\nconstructor A T is T\nconstructor Y : T is a = 2 & d = 1",
        "line 6: parts over different tokens",
    ),
    (
        "constructor X a , b : T is a & b\nconstructor A T , d is T ; d",
        "",
    ),
    (
        "fields of u ( 32 ) f1 0 : 0 f2 1 : 1 f3 2 : 2 f4 3 : 3 f5 4 : 4 f6 5 : 5 f7 6 : 6 f8 7 : 7 f9 8 : 8\nconstructor A f1 , f2 , f3 , f4 , f5 , f6 , f7 , f8 is f1 & f2 & f3 & f4 & f5 & f6 & f7 & f8",
        "",
    ),
    (
        "fields of u ( 32 ) f1 0 : 0 f2 1 : 1 f3 2 : 2 f4 3 : 3 f5 4 : 4 f6 5 : 5 f7 6 : 6 f8 7 : 7 f9 8 : 8\nconstructor A f1 , f2 , f3 , f4 , f5 , f6 , f7 , f8 , f9 is f1 & f2 & f3 & f4 & f5 & f6 & f7 & f8 & f9",
        "line 5: more than 8 numbers as operands",
    ),
    (
        "constructor X a , b , d , e : T is a & b ; d & e\nconstructor Y c : U is c\nconstructor A T , U is T ; U\nconstructor B T , U , c is T ; U ; c",
        "",
    ),
    (
        "constructor X a , b , d , e : T is a & b ; d & e\nconstructor Y c : U is c\nconstructor Z d : U is d\nconstructor B T , U , c , d is T ; U ; c ; d",
        "line 7: more than 8 numbers as operands",
    ),
    (
        "pattern p is a = 0 | a = 1 | a = 2 | a = 3 | a = 4 | a = 5 | a = 6 | a = 7 | a = 8 | a = 9 | a = 10 | a = 11 | a = 12 | a = 13 | a = 14 | a = 15\nconstructor A is p ; p",
        "",
    ),
    (
        "pattern p is a = 0 | a = 1 | a = 2 | a = 3 | a = 4 | a = 5 | a = 6 | a = 7 | a = 8 | a = 9 | a = 10 | a = 11 | a = 12 | a = 13 | a = 14 | a = 15\nconstructor A is p ; p | b = 1",
        "line 5: over a limit",
    ),
    (
        "pattern p is a = 0 | a = 1 | a = 2 | a = 3 | a = 4 | a = 5 | a = 6 | a = 7 | a = 8 | a = 9 | a = 10 | a = 11 | a = 12 | a = 13 | a = 14 | a = 15\nconstructor A is p & p & p & p & p & p & p & p & p & p & p & p & p & p & p & p & p & p & p & p & p & p & p",
        "line 5: over a limit",
    ),
    (
        "fields of u ( 32 ) f 0 : 31\nconstructor A is f = 1 ; f = 1 ; f = 1 ; f = 1 ; f = 1 ; f = 1 ; f = 1 ; f = 1",
        "",
    ),
    (
        "fields of u ( 32 ) f 0 : 31\nconstructor A is f = 1 ; f = 1 ; f = 1 ; f = 1 ; f = 1 ; f = 1 ; f = 1 ; f = 1 ; a = 1",
        "line 5: over a limit",
    ),
    (
        "fields of u ( 32 ) f 0 : 31\nconstructor X : T is f = 1 ; f = 1 ; f = 1 ; f = 1\nconstructor A T is f = 1 ... & T ; f = 1 ; f = 1 ; f = 1 ; f = 1",
        "",
    ),
    (
        "fields of u ( 32 ) f 0 : 31\nconstructor X : T is f = 1 ; f = 1 ; f = 1 ; f = 1 | a = 1\nconstructor A T is T ; f = 1 ; f = 1 ; f = 1 ; f = 1 ; a = 1",
        "line 6: over a limit",
    ),
];

#[test]
fn tells_the_first_fault_of_whole_texts(rt: HostRuntime) -> Result<(), Fail> {
    for (text, fault) in WHOLE {
        assert_eq!(rt; told(rt.alloc(), text)?.as_str(), *fault, "{text}");
    }
    Ok(())
}

#[test]
fn tells_the_first_fault_of_a_line(rt: HostRuntime) -> Result<(), Fail> {
    for (line, fault) in LINES {
        let text = format!(in rt.alloc(); "{BEFORE}{line}")?;
        assert_eq!(rt; told(rt.alloc(), text.as_str())?.as_str(), *fault, "{line}");
    }
    Ok(())
}

#[test]
fn tells_the_first_fault_behind_other_lines(rt: HostRuntime) -> Result<(), Fail> {
    for (lines, fault) in BEHIND {
        let text = format!(in rt.alloc(); "{BEFORE}{lines}")?;
        assert_eq!(rt;
            told(rt.alloc(), text.as_str())?.as_str(),
            *fault,
            "{lines}"
        );
    }
    Ok(())
}

/// Texts, with their normal forms spelled.
const FORMS: &[(&str, &str)] = &[
    (
        "order big\nfields of w ( 32 ) op 30 : 31 rd 25 : 29 op3 19 : 24 rs1 14 : 18 i 13 : 13 imm 0 : 12 all 0 : 31\nconstructor ORI rs1 , imm , rd is op = 2 & op3 = 2 & i = 1 & rs1 & imm & rd\nconstructor TA is all = 2446336016\npattern nop is all = 16777216",
        "ORI 5 13 5 | 32 30-31=2 19-24=2 13-13=1 14-18:0 0-12:1 25-29:2;\nTA | 32 0-31=2446336016;\ntype 0 1\n",
    ),
    (
        "order big\nfields of w ( 8 ) a 0 : 3 b 4 : 7 c 0 : 7\npattern p is a = 1 | a = 2\npattern q is b != 3 | b = 4\nconstructor A is p & q ; p | c = 9",
        "A | 8 0-3=1 4-7!3; 8 0-3=1; | 8 0-3=1 4-7!3; 8 0-3=2; | 8 0-3=1 4-7=4; 8 0-3=1; | 8 0-3=1 4-7=4; 8 0-3=2; | 8 0-3=2 4-7!3; 8 0-3=1; | 8 0-3=2 4-7!3; 8 0-3=2; | 8 0-3=2 4-7=4; 8 0-3=1; | 8 0-3=2 4-7=4; 8 0-3=2; | 8 0-7=9;\ntype 0\n",
    ),
    (
        "order big\nfields of w ( 8 ) a 0 : 3 b 4 : 7 c 0 : 7\nconstructor X a : T is a & b = 1\nconstructor Y : U is c = 1\nconstructor A U , T , c is b = 2 ... & T ; c ; U\nconstructor Z : V is c = 3 ; c = 4\nconstructor B V : W is V",
        "X 4 | 8 4-7=1 0-3:0;\nY | 8 0-7=1;\nA t2 t1 8 | 8 4-7=2 1@1; 8 0-7:2; 0 2@0;\nZ | 8 0-7=3; 8 0-7=4;\nB t3 | 0 3@0;\ntype 2\ntype 0\ntype 1\ntype 3\ntype 4\n",
    ),
];

/// The normal form, spelled: for each constructor its name, its kinds as widths or `tN`, and its alternatives. A token is
/// its bits with tests `lo-hi=value` or `lo-hi!value` and binds `lo-hi:operand`, a typed operand `type@operand`.
fn spelled(alloc: Global, enc: &Encodings) -> Result<String, Fail> {
    let mut text = String::new(alloc);
    for coded in enc.constructors.as_slice() {
        for byte in coded.name.as_slice() {
            text.push(char::from(*byte))?;
        }
        for kind in coded.kinds.as_slice() {
            match kind {
                OperandKind::Field(width) => write!(text, " {}", width.bits())?,
                OperandKind::Typed(kind) => write!(text, " t{kind}")?,
            }
        }
        for items in coded.alternatives.as_slice() {
            text.push_str(" |")?;
            for item in items.as_slice() {
                spell_item(item, &mut text)?;
            }
        }
        text.push_str("\n")?;
    }
    for members in enc.types.as_slice() {
        text.push_str("type")?;
        for number in members.as_slice() {
            write!(text, " {number}")?;
        }
        text.push_str("\n")?;
    }
    Ok(text)
}

fn spell_item(item: &Item, text: &mut String) -> Result<(), Fail> {
    write!(text, " {}", item.bits)?;
    for test in item.tests.as_slice() {
        let sign = if test.equal { '=' } else { '!' };
        write!(text, " {}-{}{}{}", test.lo, test.hi, sign, test.value)?;
    }
    for bind in item.binds.as_slice() {
        write!(text, " {}-{}:{}", bind.lo, bind.hi, bind.operand)?;
    }
    if let Some(typed) = &item.typed {
        write!(text, " {}@{}", typed.kind, typed.operand)?;
    }
    text.push(';')?;
    Ok(())
}

/// The normal form of a text, spelled.
fn form(alloc: Global, text: &str) -> Result<String, Fail> {
    if text.len() > 60_000 {
        return Ok(String::new(alloc));
    }
    let lines = match read_sled(alloc, text.as_bytes()) {
        Ok(lines) => lines,
        Err(_) => return Ok(String::new(alloc)),
    };
    match normal_sled(alloc, lines.as_slice()) {
        Ok(enc) => spelled(alloc, &enc),
        Err(_) => Ok(String::new(alloc)),
    }
}

#[test]
fn gives_the_normal_form(rt: HostRuntime) -> Result<(), Fail> {
    for (text, wanted) in FORMS {
        assert_eq!(rt; form(rt.alloc(), text)?.as_str(), *wanted, "{text}");
    }
    Ok(())
}
