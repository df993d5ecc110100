//! Guards, annuls and jumps that are known, and those that are not.
use crate::small_machine::{BOUNDED, OPEN, WORDS, expect};
use std::test::Fail;

#[test]
fn an_unknown_guard_makes_its_cell_unknown(rt: HostRuntime) -> Result<(), Fail> {
    let code = [
        "85 01 03", // 10000 f := 3 < r[1]
        "86 00010000", // 10003 f => jump 10000
        "97 11 00000000", // 10008 g => r[1] := r[1] + 0
        "89 01 00010014", // 1000E jump m32[r[1] * 4 + 10014]
        WORDS, // 10014
    ];
    expect(&rt, &code, 0x1_000E, &OPEN)
}

#[test]
fn what_a_known_guard_forbids_is_not_done(rt: HostRuntime) -> Result<(), Fail> {
    let code = [
        "85 01 03", // 10000 f := 3 < r[1]
        "86 00010000", // 10003 f => jump 10000
        "8D 11 00000001", // 10008 f => r[1] := r[1] + 1
        "89 01 00010014", // 1000E jump m32[r[1] * 4 + 10014]
        WORDS, // 10014
    ];
    expect(&rt, &code, 0x1_000E, &BOUNDED)
}

#[test]
fn what_a_known_guard_allows_is_done(rt: HostRuntime) -> Result<(), Fail> {
    let code = [
        "85 01 03", // 10000 f := 3 < r[1]
        "86 00010000", // 10003 f => jump 10000
        "85 01 00", // 10008 f := 0 < r[1]
        "8D 10 00000002", // 1000B f => r[1] := 2
        "89 01 00010018", // 10011 jump m32[r[1] * 4 + 10018]
        "00",
        WORDS, // 10018
    ];
    expect(&rt, &code, 0x1_0011, &[0x900, 0x1_0001])
}

#[test]
fn a_jump_with_an_unknown_guard_does_not_count_as_untaken(rt: HostRuntime) -> Result<(), Fail> {
    let code = [
        "86 00010000", // 10000 f => jump 10000
        "89 01 0001000C", // 10005 jump m32[r[1] * 4 + 1000C]
        "00",
        WORDS, // 1000C
    ];
    expect(&rt, &code, 0x1_0005, &OPEN)
}

#[test]
fn a_jump_with_an_unknown_guard_does_not_leave(rt: HostRuntime) -> Result<(), Fail> {
    let code = [
        "85 01 03", // 10000 f := 3 < r[1]
        "86 00010000", // 10003 f => jump 10000
        "98 00010000", // 10008 g => jump 10000
        "89 01 00010014", // 1000D jump m32[r[1] * 4 + 10014]
        "00",
        WORDS, // 10014
    ];
    expect(&rt, &code, 0x1_000D, &BOUNDED)
}

#[test]
fn a_known_annul_passes_the_next_instruction_over(rt: HostRuntime) -> Result<(), Fail> {
    let code = [
        "85 01 03", // 10000 f := 3 < r[1]
        "86 00010000", // 10003 f => jump 10000
        "8B", // 10008 annul
        "80 11 00000001", // 10009 r[1] := r[1] + 1
        "89 01 00010018", // 1000F jump m32[r[1] * 4 + 10018]
        "00 00 00",
        WORDS, // 10018
    ];
    expect(&rt, &code, 0x1_000F, &BOUNDED)
}

#[test]
fn an_unknown_annul_passes_nothing_over(rt: HostRuntime) -> Result<(), Fail> {
    let code = [
        "85 01 03", // 10000 f := 3 < r[1]
        "86 00010000", // 10003 f => jump 10000
        "99", // 10008 g => annul
        "80 11 00000001", // 10009 r[1] := r[1] + 1
        "89 01 00010018", // 1000F jump m32[r[1] * 4 + 10018]
        "00 00 00",
        WORDS, // 10018
    ];
    expect(&rt, &code, 0x1_000F, &[0x900, 0x1_0005, 0x1_0009, 0x1_000D])
}

#[test]
fn a_jump_that_is_passed_over_has_no_target(rt: HostRuntime) -> Result<(), Fail> {
    // For 2 and 3 the jump is passed over.
    let code = [
        "85 01 03", // 10000 f := 3 < r[1]
        "86 00010000", // 10003 f => jump 10000
        "85 01 01", // 10008 f := 1 < r[1]
        "8A", // 1000B f => annul
        "89 01 00010014", // 1000C jump m32[r[1] * 4 + 10014]
        "00 00",
        "00000900 00010005 00010009 0001000D", // 10014
    ];
    expect(&rt, &code, 0x1_000C, &[0x900, 0x1_0005])
}

#[test]
fn a_jump_that_is_always_passed_over_has_no_bound(rt: HostRuntime) -> Result<(), Fail> {
    let code = [
        "85 01 03", // 10000 f := 3 < r[1]
        "86 00010000", // 10003 f => jump 10000
        "8B", // 10008 annul
        "89 01 00010010", // 10009 jump m32[r[1] * 4 + 10010]
        "00",
        WORDS, // 10010
    ];
    expect(&rt, &code, 0x1_0009, &OPEN)
}

#[test]
fn the_computed_jump_may_have_a_guard(rt: HostRuntime) -> Result<(), Fail> {
    let code = [
        "85 01 03", // 10000 f := 3 < r[1]
        "86 00010000", // 10003 f => jump 10000
        "96 01 00010010", // 10008 g => jump m32[r[1] * 4 + 10010]
        "00 00",
        WORDS, // 10010
    ];
    expect(&rt, &code, 0x1_0008, &BOUNDED)
}

#[test]
fn the_computed_jump_may_be_the_one_that_is_not_taken(rt: HostRuntime) -> Result<(), Fail> {
    // For 0 the quotient and the first flag are unknown, and the last jump alone is known untaken; 1 leaves.
    let code = [
        "90 21 00000008", // 10000 r[2] := 8 / r[1]
        "85 02 07", // 10006 f := 7 < r[2]
        "86 00010000", // 10009 f => jump 10000
        "85 00 01", // 1000E f := 1 < r[0]
        "9E 01 00010018", // 10011 f => jump m32[r[1] * 4 + 10018]
        "00",
        WORDS, // 10018
    ];
    expect(&rt, &code, 0x1_0011, &[0x1_0001])
}
