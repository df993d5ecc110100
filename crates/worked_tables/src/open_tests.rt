//! Tables without a bound, and jumps without a table.
use crate::small_machine::{OPEN, WORDS, expect, expect_padded};
use std::test::Fail;

#[test]
fn an_open_table_ends_at_the_first_target_outside_code(rt: HostRuntime) -> Result<(), Fail> {
    let code = [
        "89 01 00010008", // 10000 jump m32[r[1] * 4 + 10008]
        "00 00",
        WORDS, // 10008
    ];
    expect(&rt, &code, 0x1_0000, &OPEN)
}

#[test]
fn an_open_table_ends_at_the_first_unknown_target(rt: HostRuntime) -> Result<(), Fail> {
    let code = [
        "89 01 00010008", // 10000 jump m32[r[1] * 4 + 10008]
        "00 00",
        "00010005 00010001", // 10008; no byte is mapped behind
    ];
    expect(&rt, &code, 0x1_0000, &[0x1_0001, 0x1_0005])
}

#[test]
fn an_open_table_ends_where_the_number_does_not_fit_its_cell(rt: HostRuntime) -> Result<(), Fail> {
    let code = [
        "93 00010008", // 10000 jump m32[n * 4 + 10008]
        "00 00 00",
        "00010000 00010001 00010002 00010003 00010004 00010005 00010006 00010007", // 10008
        "00010008 00010009 0001000A 0001000B 0001000C 0001000D 0001000E 0001000F", // 10028
        "00010010 00010011", // 10048
    ];
    let mut want = Vec::new(rt.alloc());
    for x in 0..16 {
        want.push(0x1_0000 + x)?;
    }
    expect(&rt, &code, 0x1_0000, &want)
}

#[test]
fn an_open_table_has_at_most_256_targets(rt: HostRuntime) -> Result<(), Fail> {
    let code = [
        "80 22 00010000", // 10000 r[2] := r[2] + 10000
        "88 02", // 10006 jump r[2]
    ];
    let mut want = Vec::new(rt.alloc());
    for x in 0..256 {
        want.push(0x1_0000 + x)?;
    }
    expect_padded(&rt, &code, 0x200, 0x1_0006, &want)
}

#[test]
fn a_base_from_a_cell_has_no_table(rt: HostRuntime) -> Result<(), Fail> {
    let code = [
        "85 01 03", // 10000 f := 3 < r[1]
        "86 00010000", // 10003 f => jump 10000
        "81 21 02", // 10008 r[2] := r[1] << 2
        "9D 24", // 1000B jump m32[r[2] + r[4]]
    ];
    expect(&rt, &code, 0x1_000B, &[])
}

#[test]
fn a_base_from_bytes_that_may_be_written_has_no_table(rt: HostRuntime) -> Result<(), Fail> {
    let code = [
        "82 40 00020000", // 10000 r[4] := m32[20000]
        "85 01 03", // 10006 f := 3 < r[1]
        "86 00010000", // 10009 f => jump 10000
        "81 21 02", // 1000E r[2] := r[1] << 2
        "9D 24", // 10011 jump m32[r[2] + r[4]]
    ];
    expect(&rt, &code, 0x1_0011, &[])
}

#[test]
fn a_first_target_outside_code_has_no_table(rt: HostRuntime) -> Result<(), Fail> {
    let code = [
        "89 01 00010008", // 10000 jump m32[r[1] * 4 + 10008]
        "00 00",
        "00000900 00010005", // 10008
    ];
    expect(&rt, &code, 0x1_0000, &[])
}

#[test]
fn a_jump_by_a_cell_alone_has_no_table(rt: HostRuntime) -> Result<(), Fail> {
    // jump r[1]
    expect(&rt, &["88 01"], 0x1_0000, &[])
}
