//! Bounded tables: how far they go, and what is left out of them.
use crate::small_machine::{BOUNDED, OPEN, WORDS, expect};
use std::test::Fail;

#[test]
fn a_comparison_and_a_jump_bound_the_table(rt: HostRuntime) -> Result<(), Fail> {
    let code = [
        "85 01 03", // 10000 f := 3 < r[1]
        "86 00010000", // 10003 f => jump 10000
        "89 01 00010010", // 10008 jump m32[r[1] * 4 + 10010]
        "00 00",
        WORDS, // 10010
    ];
    expect(&rt, &code, 0x1_0008, &BOUNDED)
}

#[test]
fn targets_ascend_and_stand_once(rt: HostRuntime) -> Result<(), Fail> {
    let code = [
        "85 01 03", // 10000 f := 3 < r[1]
        "86 00010000", // 10003 f => jump 10000
        "89 01 00010010", // 10008 jump m32[r[1] * 4 + 10010]
        "00 00",
        "00010005 00000900 00010005 00010001", // 10010
    ];
    expect(&rt, &code, 0x1_0008, &[0x900, 0x1_0001, 0x1_0005])
}

#[test]
fn unknown_targets_below_the_bound_are_left_out(rt: HostRuntime) -> Result<(), Fail> {
    let code = [
        "85 01 03", // 10000 f := 3 < r[1]
        "86 00010000", // 10003 f => jump 10000
        "89 01 00010010", // 10008 jump m32[r[1] * 4 + 10010]
        "00 00",
        "00010001 00000900", // 10010; no byte is mapped behind
    ];
    expect(&rt, &code, 0x1_0008, &[0x900, 0x1_0001])
}

#[test]
fn a_bound_is_found_up_to_1024(rt: HostRuntime) -> Result<(), Fail> {
    let code = [
        "94 01 000003FF", // 10000 f := 3FF < r[1]
        "86 00010000", // 10006 f => jump 10000
        "81 21 02", // 1000B r[2] := r[1] << 2
        "80 22 00010000", // 1000E r[2] := r[2] + 10000
        "88 02", // 10014 jump r[2]
    ];
    let mut want = Vec::new(rt.alloc());
    for x in 0..1024 {
        want.push(0x1_0000 + 4 * x)?;
    }
    expect(&rt, &code, 0x1_0014, &want)
}

#[test]
fn a_bound_of_1025_is_none(rt: HostRuntime) -> Result<(), Fail> {
    // The last two instructions are open with r[2], up to the end of the code.
    let code = [
        "94 01 00000400", // 10000 f := 400 < r[1]
        "86 00010000", // 10006 f => jump 10000
        "81 21 02", // 1000B r[2] := r[1] << 2
        "80 22 00010000", // 1000E r[2] := r[2] + 10000
        "88 02", // 10014 jump r[2]
    ];
    let mut want = Vec::new(rt.alloc());
    for x in 0..0x16 {
        want.push(0x1_0000 + x)?;
    }
    expect(&rt, &code, 0x1_0014, &want)
}

#[test]
fn a_narrow_cell_is_tried_up_to_what_fits(rt: HostRuntime) -> Result<(), Fail> {
    // n has 4 bits: 16 does not fit it, and so leaves nothing.
    for (most, want) in [("92 03", BOUNDED.as_slice()), ("92 0F", OPEN.as_slice())] {
        let code = [
            most, // 10000 f := 3 < n, or 15 < n
            "86 00010000", // 10002 f => jump 10000
            "93 0001000C", // 10007 jump m32[n * 4 + 1000C]
            WORDS, // 1000C
        ];
        expect(&rt, &code, 0x1_0007, want)?;
    }
    Ok(())
}

#[test]
fn a_run_that_leaves_for_0_has_no_table(rt: HostRuntime) -> Result<(), Fail> {
    // f stays 0, so the first jump is not taken, and the second always is.
    let five = [0x1_0005];
    for (jump, want) in [("86 00010000", five.as_slice()), ("9F 00010000", &[])] {
        let code = [
            "80 30 00010005", // 10000 r[3] := 10005
            "85 00 03", // 10006 f := 3 < r[0]
            jump, // 10009 f => jump 10000, or ~f => jump 10000
            "88 03", // 1000E jump r[3]
        ];
        expect(&rt, &code, 0x1_000E, want)?;
    }
    Ok(())
}
