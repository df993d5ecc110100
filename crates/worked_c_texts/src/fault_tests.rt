//! Changes of a text of each form, with their faults.
use super::texts::{WHOLE, changed, fault_of};
use c_read::CFault;
use std::alloc::Global;
use std::process::Abort;
use std::test::Fail;

/// A change of the whole text, and the fault that the changed text has.
struct Change {
    old: &'static [u8],
    new: &'static [u8],
    fault: Option<CFault>,
}

const TOKENS: [Change; 10] = [
    // a carriage return begins no token
    Change {
        old: b"t0 = 0ull;",
        new: b"t0 = 0ull;\r",
        fault: Some(CFault::Lex { line: 14 }),
    },
    // nor does @
    Change {
        old: b"t0 = 0ull;",
        new: b"t0 = @;",
        fault: Some(CFault::Lex { line: 14 }),
    },
    // nor a point, told on its own line
    Change {
        old: b"c12);\n",
        new: b"c12);\n.",
        fault: Some(CFault::Lex { line: 7 }),
    },
    // nor a lone >
    Change {
        old: b"(c1 < 7ull)",
        new: b"(c1 > 7ull)",
        fault: Some(CFault::Lex { line: 26 }),
    },
    // nor a lone !
    Change {
        old: b"!= (3ull",
        new: b"! (3ull",
        fault: Some(CFault::Lex { line: 24 }),
    },
    // nor # behind the first line
    Change {
        old: b"void uq_main",
        new: b"#void uq_main",
        fault: Some(CFault::Lex { line: 46 }),
    },
    // nor a quotation mark
    Change {
        old: b"{ 0 };",
        new: b"{ \"0\" };",
        fault: Some(CFault::Lex { line: 4 }),
    },
    // nor a vertical tab
    Change {
        old: b"t0 = 0ull;",
        new: b"t0 = 0ull;\x0b",
        fault: Some(CFault::Lex { line: 14 }),
    },
    // such a byte is told before another first line
    Change {
        old: b"#include \"uqbt.h\"\nconst",
        new: b"#include \"x.h\"\n$const",
        fault: Some(CFault::Lex { line: 2 }),
    },
    // and before an item without a form
    Change {
        old: b"const u8 uq_seg_0",
        new: b"wrong $",
        fault: Some(CFault::Lex { line: 3 }),
    },
];

const FORMS: [Change; 51] = [
    // another first line
    Change {
        old: b"#include \"uqbt.h\"",
        new: b"#include \"x.h\"",
        fault: Some(CFault::BadItem { index: 0 }),
    },
    // the first line is exact
    Change {
        old: b"#include \"uqbt.h\"",
        new: b"#include  \"uqbt.h\"",
        fault: Some(CFault::BadItem { index: 0 }),
    },
    // also at its end
    Change {
        old: b"#include \"uqbt.h\"",
        new: b"#include \"uqbt.h\" ",
        fault: Some(CFault::BadItem { index: 0 }),
    },
    // a carriage return in it is no other token
    Change {
        old: b"#include \"uqbt.h\"",
        new: b"#include \"uqbt.h\"\r",
        fault: Some(CFault::BadItem { index: 0 }),
    },
    // no first line
    Change {
        old: b"#include \"uqbt.h\"",
        new: b"",
        fault: Some(CFault::BadItem { index: 0 }),
    },
    // the header has words
    Change {
        old: b"const u64 uq_machine",
        new: b"const u8 uq_machine",
        fault: Some(CFault::BadItem { index: 1 }),
    },
    // another name
    Change {
        old: b"uq_machine",
        new: b"uq_machin",
        fault: Some(CFault::BadItem { index: 1 }),
    },
    // a number of uq_machine over 2^32 - 1
    Change {
        old: b"536870912",
        new: b"4294967296",
        fault: Some(CFault::BadItem { index: 1 }),
    },
    // a length has no suffix
    Change {
        old: b"[14]",
        new: b"[14ull]",
        fault: Some(CFault::BadItem { index: 1 }),
    },
    // a length over 2^64 - 1
    Change {
        old: b"[14]",
        new: b"[18446744073709551616]",
        fault: Some(CFault::BadItem { index: 1 }),
    },
    // a comma without a number
    Change {
        old: b"90, 1 }",
        new: b"90, 1, }",
        fault: Some(CFault::BadItem { index: 1 }),
    },
    // no semicolon
    Change {
        old: b"90, 1 };",
        new: b"90, 1 }",
        fault: Some(CFault::BadItem { index: 1 }),
    },
    // no comma
    Change {
        old: b"90, 1 }",
        new: b"90 1 }",
        fault: Some(CFault::BadItem { index: 1 }),
    },
    // segments stand in order
    Change {
        old: b"uq_seg_0",
        new: b"uq_seg_1",
        fault: Some(CFault::BadItem { index: 2 }),
    },
    // a number in a name has no zero in front
    Change {
        old: b"uq_seg_0",
        new: b"uq_seg_00",
        fault: Some(CFault::BadItem { index: 2 }),
    },
    // a byte of 256
    Change {
        old: b"130, 16",
        new: b"256, 16",
        fault: Some(CFault::BadItem { index: 2 }),
    },
    // segments have bytes
    Change {
        old: b"const u8 uq_seg_0",
        new: b"const u64 uq_seg_0",
        fault: Some(CFault::BadItem { index: 2 }),
    },
    // a segment is left out
    Change {
        old: b"uq_seg_1[1]",
        new: b"uq_seg_2[1]",
        fault: Some(CFault::BadItem { index: 3 }),
    },
    // a number of uq_segs over 2^32 - 1
    Change {
        old: b"131072, 1, 0",
        new: b"4294967296, 1, 0",
        fault: Some(CFault::BadItem { index: 4 }),
    },
    // the table has its name
    Change {
        old: b"uq_segs",
        new: b"uq_seg",
        fault: Some(CFault::BadItem { index: 4 }),
    },
    // an address has eight digits
    Change {
        old: b"f_00010000(u64 ra",
        new: b"f_0001000(u64 ra",
        fault: Some(CFault::BadItem { index: 5 }),
    },
    // in upper case
    Change {
        old: b"f_0001000C(u64 ra);",
        new: b"f_0001000c(u64 ra);",
        fault: Some(CFault::BadItem { index: 6 }),
    },
    // the first parameter is ra
    Change {
        old: b"(u64 ra, u64 c1",
        new: b"(u64 c1",
        fault: Some(CFault::BadItem { index: 5 }),
    },
    // a cell has no zero in front
    Change {
        old: b"u64 c12);",
        new: b"u64 c012);",
        fault: Some(CFault::BadItem { index: 5 }),
    },
    // a cell is below 256
    Change {
        old: b"u64 c12);",
        new: b"u64 c256);",
        fault: Some(CFault::BadItem { index: 5 }),
    },
    // parameters are cells
    Change {
        old: b"u64 c12);",
        new: b"u64 t1);",
        fault: Some(CFault::BadItem { index: 5 }),
    },
    // pt is declared first
    Change {
        old: b"    u64 pt;\n",
        new: b"",
        fault: Some(CFault::BadItem { index: 7 }),
    },
    // temporaries stand in order
    Change {
        old: b"    u64 t1;\n",
        new: b"    u64 t2;\n",
        fault: Some(CFault::BadItem { index: 7 }),
    },
    // cells stand before temporaries
    Change {
        old: b"    u64 c3;\n    u64 t0;\n",
        new: b"    u64 t0;\n    u64 c3;\n",
        fault: Some(CFault::BadItem { index: 7 }),
    },
    // results are not declared
    Change {
        old: b"u64 c3;",
        new: b"u64 q3;",
        fault: Some(CFault::BadItem { index: 7 }),
    },
    // a label has eight digits
    Change {
        old: b"L_00010000: ;",
        new: b"L_000100000: ;",
        fault: Some(CFault::BadItem { index: 7 }),
    },
    // no such label
    Change {
        old: b"L_00010008_E_00010010: ;",
        new: b"L_00010008_X_00010010: ;",
        fault: Some(CFault::BadItem { index: 7 }),
    },
    // a number in an expression has the suffix
    Change {
        old: b"t0 = 0ull;",
        new: b"t0 = 0;",
        fault: Some(CFault::BadItem { index: 7 }),
    },
    // a number and a name
    Change {
        old: b"t0 = 0ull;",
        new: b"t0 = 12ab;",
        fault: Some(CFault::BadItem { index: 7 }),
    },
    // another suffix
    Change {
        old: b"t0 = 0ull;",
        new: b"t0 = 0ul;",
        fault: Some(CFault::BadItem { index: 7 }),
    },
    // a number over 2^64 - 1
    Change {
        old: b"18446744073709551615ull",
        new: b"18446744073709551616ull",
        fault: Some(CFault::BadItem { index: 7 }),
    },
    // a load stands alone on a right side
    Change {
        old: b"uq_load(4, (c1 & 4095ull))",
        new: b"(uq_load(4, c1) + 1ull)",
        fault: Some(CFault::BadItem { index: 7 }),
    },
    // an operator has parentheses
    Change {
        old: b"if ((c1 < 7ull)) {",
        new: b"if (c1 < 7ull) {",
        fault: Some(CFault::BadItem { index: 7 }),
    },
    // a switch has a default
    Change {
        old: b"default: uq_end(5, pt); ",
        new: b"",
        fault: Some(CFault::BadItem { index: 7 }),
    },
    // a case has the suffix
    Change {
        old: b"case 65536ull",
        new: b"case 65536",
        fault: Some(CFault::BadItem { index: 7 }),
    },
    // a block has an end
    Change {
        old: b"    return;\n",
        new: b"",
        fault: Some(CFault::BadItem { index: 7 }),
    },
    // and one only
    Change {
        old: b"    return;\n",
        new: b"    return; return;\n",
        fault: Some(CFault::BadItem { index: 7 }),
    },
    // a number of an end over 2^64 - 1
    Change {
        old: b"uq_end(8,",
        new: b"uq_end(18446744073709551616,",
        fault: Some(CFault::BadItem { index: 7 }),
    },
    // a service has four parts
    Change {
        old: b"uq_serve(c1, c3, q7, uq_wn)",
        new: b"uq_serve(c1, c3, q7)",
        fault: Some(CFault::BadItem { index: 7 }),
    },
    // the number of a stop has no suffix
    Change {
        old: b"uq_stop(3,",
        new: b"uq_stop(3ull,",
        fault: Some(CFault::BadItem { index: 7 }),
    },
    // an expression has parentheses
    Change {
        old: b"c1 = uq_r;",
        new: b"uq_r = c1 + 1ull;",
        fault: Some(CFault::BadItem { index: 7 }),
    },
    // == assigns nothing
    Change {
        old: b"pt = uq_e;",
        new: b"pt == uq_e;",
        fault: Some(CFault::BadItem { index: 7 }),
    },
    // the first call returns to no address
    Change {
        old: b"f_00010000(4294967296ull",
        new: b"f_00010000(0ull",
        fault: Some(CFault::BadItem { index: 9 }),
    },
    // no first call
    Change {
        old: b"void uq_main(void) { f_00010000(4294967296ull, 0ull, 7ull); }\n",
        new: b"",
        fault: Some(CFault::BadItem { index: 9 }),
    },
    // something behind uq_main
    Change {
        old: b"7ull); }\n",
        new: b"7ull); }\n;",
        fault: Some(CFault::BadItem { index: 10 }),
    },
    // whatever it is
    Change {
        old: b"7ull); }\n",
        new: b"7ull); }\nvoid",
        fault: Some(CFault::BadItem { index: 10 }),
    },
];

const RULES: [Change; 33] = [
    // a parameter twice
    Change {
        old: b"u64 c1, u64 c12);",
        new: b"u64 c1, u64 c1);",
        fault: Some(CFault::Static { index: 5, rule: 1 }),
    },
    // a prototype twice
    Change {
        old: b"void f_0001000C(u64 ra);\n",
        new: b"void f_0001000C(u64 ra);\nvoid f_0001000C(u64 ra);\n",
        fault: Some(CFault::Static { index: 7, rule: 1 }),
    },
    // a cell that is a parameter
    Change {
        old: b"u64 c3;",
        new: b"u64 c12;",
        fault: Some(CFault::Static { index: 7, rule: 1 }),
    },
    // a label twice
    Change {
        old: b"L_00010008_R: ;",
        new: b"L_00010008_D_00010004: ;",
        fault: Some(CFault::Static { index: 7, rule: 1 }),
    },
    // a call of a function without a prototype
    Change {
        old: b"void f_0001000C(u64 ra);\n",
        new: b"",
        fault: Some(CFault::Static { index: 6, rule: 2 }),
    },
    // a prototype without a function
    Change {
        old: b"void f_0001000C(u64 ra);\n",
        new: b"void f_0001000C(u64 ra);\nvoid f_00020000(u64 ra);\n",
        fault: Some(CFault::Static { index: 7, rule: 2 }),
    },
    // a prototype unlike its function
    Change {
        old: b"u64 c12);\n",
        new: b"u64 c255);\n",
        fault: Some(CFault::Static { index: 5, rule: 2 }),
    },
    // a cell that is not declared
    Change {
        old: b"u64 c3;",
        new: b"u64 c4;",
        fault: Some(CFault::Static { index: 7, rule: 2 }),
    },
    // a temporary that is not declared
    Change {
        old: b"t1 = uq_w[t0];",
        new: b"t2 = uq_w[t0];",
        fault: Some(CFault::Static { index: 7, rule: 2 }),
    },
    // a label that is not there
    Change {
        old: b"goto L_00010004_T_0001000C;",
        new: b"goto L_00010004_T_00010010;",
        fault: Some(CFault::Static { index: 7, rule: 2 }),
    },
    // a function that is not there
    Change {
        old: b"f_0001000C(65544ull)",
        new: b"f_00020000(65544ull)",
        fault: Some(CFault::Static { index: 7, rule: 2 }),
    },
    // the first function is not there
    Change {
        old: b"{ f_00010000(4294967296ull",
        new: b"{ f_00030000(4294967296ull",
        fault: Some(CFault::Static { index: 9, rule: 2 }),
    },
    // too few arguments
    Change {
        old: b"f_0001000C(65544ull)",
        new: b"f_0001000C()",
        fault: Some(CFault::Static { index: 7, rule: 3 }),
    },
    // too many arguments
    Change {
        old: b"f_0001000C(65544ull)",
        new: b"f_0001000C(65544ull, 1ull)",
        fault: Some(CFault::Static { index: 7, rule: 3 }),
    },
    // too few in the first call
    Change {
        old: b"0ull, 7ull); }",
        new: b"0ull); }",
        fault: Some(CFault::Static { index: 9, rule: 3 }),
    },
    // another length, as large as it may be
    Change {
        old: b"[14]",
        new: b"[18446744073709551615]",
        fault: Some(CFault::Static { index: 1, rule: 4 }),
    },
    // no flag
    Change {
        old: b"{ 1, 1, 5368",
        new: b"{ 2, 1, 5368",
        fault: Some(CFault::Static { index: 1, rule: 4 }),
    },
    // a length that is too large
    Change {
        old: b"[4] = { 130",
        new: b"[5] = { 130",
        fault: Some(CFault::Static { index: 2, rule: 4 }),
    },
    // an array that is too short
    Change {
        old: b"{ 130, 16, 32, 255 }",
        new: b"{ 130, 16, 32 }",
        fault: Some(CFault::Static { index: 2, rule: 4 }),
    },
    // an array without numbers
    Change {
        old: b"{ 130, 16, 32, 255 }",
        new: b"{ }",
        fault: Some(CFault::Static { index: 2, rule: 4 }),
    },
    // whatever it declares
    Change {
        old: b"[4] = { 130, 16, 32, 255 }",
        new: b"[0] = { }",
        fault: Some(CFault::Static { index: 2, rule: 4 }),
    },
    // another length in the table
    Change {
        old: b"[4] = { 130, 16, 32, 255 }",
        new: b"[3] = { 130, 16, 32 }",
        fault: Some(CFault::Static { index: 4, rule: 4 }),
    },
    // a row without a segment
    Change {
        old: b"const u8 uq_seg_1[1] = { 0 };\n",
        new: b"",
        fault: Some(CFault::Static { index: 3, rule: 4 }),
    },
    // no flag in the table
    Change {
        old: b"65536, 0, 4, 12",
        new: b"65536, 2, 4, 12",
        fault: Some(CFault::Static { index: 4, rule: 4 }),
    },
    // more bytes than the segment has
    Change {
        old: b"65536, 0, 4, 12",
        new: b"65536, 0, 4, 3",
        fault: Some(CFault::Static { index: 4, rule: 4 }),
    },
    // a load of three bytes
    Change {
        old: b"uq_load(4,",
        new: b"uq_load(3,",
        fault: Some(CFault::Static { index: 7, rule: 4 }),
    },
    // a store of sixteen bytes
    Change {
        old: b"uq_store(8,",
        new: b"uq_store(16,",
        fault: Some(CFault::Static { index: 7, rule: 4 }),
    },
    // a heap over its limit
    Change {
        old: b"16777216, 4009754624",
        new: b"16777217, 4009754624",
        fault: Some(CFault::Static { index: 1, rule: 5 }),
    },
    // heap and stack share bytes
    Change {
        old: b"4009754624",
        new: b"536870912",
        fault: Some(CFault::Static { index: 1, rule: 5 }),
    },
    // segments share a byte
    Change {
        old: b"131072, 1, 0, 4096",
        new: b"65547, 1, 0, 4096",
        fault: Some(CFault::Static { index: 4, rule: 5 }),
    },
    // a segment in the heap
    Change {
        old: b"131072, 1, 0, 4096",
        new: b"536870912, 1, 0, 4096",
        fault: Some(CFault::Static { index: 4, rule: 5 }),
    },
    // a segment past 2^32
    Change {
        old: b"131072, 1, 0, 4096",
        new: b"4294963201, 1, 0, 4096",
        fault: Some(CFault::Static { index: 4, rule: 5 }),
    },
    // more than 16 MiB of segments
    Change {
        old: b"0, 4096 }",
        new: b"0, 16777216 }",
        fault: Some(CFault::Static { index: 4, rule: 5 }),
    },
];

const KEPT: [Change; 7] = [
    // a segment up to 2^32
    Change {
        old: b"131072, 1, 0, 4096",
        new: b"4294963200, 1, 0, 4096",
        fault: None,
    },
    // a segment of no bytes shares none
    Change {
        old: b"131072, 1, 0, 4096",
        new: b"65540, 1, 0, 0",
        fault: None,
    },
    // segments that touch
    Change {
        old: b"131072, 1, 0, 4096",
        new: b"65548, 1, 0, 4096",
        fault: None,
    },
    // the number of a stop is not asked
    Change {
        old: b"uq_end(8,",
        new: b"uq_end(99,",
        fault: None,
    },
    // a switch without cases
    Change {
        old: b"switch (pt) { case 65536ull: goto L_00010000; case 65536ull: goto L_00010008_R; default",
        new: b"switch (pt) { default",
        fault: None,
    },
    // blanks part tokens
    Change {
        old: b"t0 = 0ull;",
        new: b"t0\t=\n0ull ;",
        fault: None,
    },
    // zeros in front of a number
    Change {
        old: b"t0 = 0ull;",
        new: b"t0 = 000ull;",
        fault: None,
    },
];

/// Asserts the fault of each changed text.
fn has_faults(rt: &impl Abort, alloc: Global, changes: &[Change]) -> Result<(), Fail> {
    for change in changes {
        let text = changed(alloc, change.old, change.new)?;
        assert!(rt; fault_of(alloc, &text) == change.fault);
    }
    Ok(())
}

#[test]
fn bytes_that_begin_no_token(rt: HostRuntime) -> Result<(), Fail> {
    has_faults(&rt, rt.alloc(), &TOKENS)
}

#[test]
fn items_without_a_form(rt: HostRuntime) -> Result<(), Fail> {
    has_faults(&rt, rt.alloc(), &FORMS)
}

#[test]
fn static_rules_that_are_broken(rt: HostRuntime) -> Result<(), Fail> {
    has_faults(&rt, rt.alloc(), &RULES)
}

#[test]
fn changes_that_break_nothing(rt: HostRuntime) -> Result<(), Fail> {
    has_faults(&rt, rt.alloc(), &KEPT)
}

#[test]
fn whole_text_is_read(rt: HostRuntime) -> Result<(), Fail> {
    assert!(&rt; fault_of(rt.alloc(), WHOLE) == None);
    Ok(())
}
