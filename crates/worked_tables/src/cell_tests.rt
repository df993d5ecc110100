//! What becomes of cells on the way: values, the zero cell, and what makes a cell unknown.
use crate::small_machine::{BOUNDED, OPEN, WORDS, expect};
use std::test::Fail;

#[test]
fn a_target_is_loaded_by_a_shifted_number(rt: HostRuntime) -> Result<(), Fail> {
    let code = [
        "85 01 02", // 10000 f := 2 < r[1]
        "86 00010000", // 10003 f => jump 10000
        "81 21 02", // 10008 r[2] := r[1] << 2
        "82 32 00010018", // 1000B r[3] := m32[r[2] + 10018]
        "88 03", // 10011 jump r[3]
        "00 00 00 00 00",
        WORDS, // 10018
    ];
    expect(&rt, &code, 0x1_0011, &[0x900, 0x1_0001, 0x1_0005])
}

#[test]
fn a_shift_by_34_gives_0(rt: HostRuntime) -> Result<(), Fail> {
    let code = [
        "85 01 02", // 10000 f := 2 < r[1]
        "86 00010000", // 10003 f => jump 10000
        "81 21 22", // 10008 r[2] := r[1] << 34
        "82 32 00010018", // 1000B r[3] := m32[r[2] + 10018]
        "88 03", // 10011 jump r[3]
        "00 00 00 00 00",
        "00000900 00010005 00010009", // 10018
    ];
    expect(&rt, &code, 0x1_0011, &[0x900])
}

#[test]
fn a_misaligned_load_is_unknown(rt: HostRuntime) -> Result<(), Fail> {
    // For 1 and 3 the address is no multiple of 4.
    let code = [
        "85 01 03", // 10000 f := 3 < r[1]
        "86 00010000", // 10003 f => jump 10000
        "81 21 01", // 10008 r[2] := r[1] << 1
        "82 32 00010018", // 1000B r[3] := m32[r[2] + 10018]
        "88 03", // 10011 jump r[3]
        "00 00 00 00 00",
        "00000900 00010005 00010009", // 10018
    ];
    expect(&rt, &code, 0x1_0011, &[0x900, 0x1_0005])
}

#[test]
fn a_load_of_bytes_that_may_be_written_is_unknown(rt: HostRuntime) -> Result<(), Fail> {
    let code = [
        "85 01 02", // 10000 f := 2 < r[1]
        "86 00010000", // 10003 f => jump 10000
        "81 21 02", // 10008 r[2] := r[1] << 2
        "82 32 00020000", // 1000B r[3] := m32[r[2] + 20000]
        "88 03", // 10011 jump r[3]
    ];
    expect(&rt, &code, 0x1_0011, &[])
}

#[test]
fn the_zero_cell_is_0(rt: HostRuntime) -> Result<(), Fail> {
    let code = [
        "89 00 00010008", // 10000 jump m32[r[0] * 4 + 10008]
        "00 00",
        WORDS, // 10008
    ];
    expect(&rt, &code, 0x1_0000, &[0x1_0001])
}

#[test]
fn what_is_assigned_to_the_zero_cell_is_dropped(rt: HostRuntime) -> Result<(), Fail> {
    let code = [
        "85 01 03", // 10000 f := 3 < r[1]
        "86 00010000", // 10003 f => jump 10000
        "80 01 00000001", // 10008 r[0] := r[1] + 1
        "89 00 00010014", // 1000E jump m32[r[0] * 4 + 10014]
        WORDS, // 10014
    ];
    expect(&rt, &code, 0x1_000E, &[0x1_0001])
}

#[test]
fn a_store_does_nothing(rt: HostRuntime) -> Result<(), Fail> {
    // To the words themselves, and to an unknown address.
    for store in ["84 00 00010014", "84 12 00010014"] {
        let code = [
            "85 01 03", // 10000 f := 3 < r[1]
            "86 00010000", // 10003 f => jump 10000
            store, // 10008 m32[r[0] + 10014] := r[0], or m32[r[2] + 10014] := r[1]
            "89 01 00010014", // 1000E jump m32[r[1] * 4 + 10014]
            WORDS, // 10014
        ];
        expect(&rt, &code, 0x1_000E, &BOUNDED)?;
    }
    Ok(())
}

#[test]
fn a_trap_ends_no_run(rt: HostRuntime) -> Result<(), Fail> {
    let code = [
        "85 01 03", // 10000 f := 3 < r[1]
        "86 00010000", // 10003 f => jump 10000
        "95 07", // 10008 trap 7
        "89 01 00010010", // 1000A jump m32[r[1] * 4 + 10010]
        WORDS, // 10010
    ];
    expect(&rt, &code, 0x1_000A, &BOUNDED)
}

#[test]
fn a_service_makes_what_it_assigns_unknown(rt: HostRuntime) -> Result<(), Fail> {
    // It assigns r[4], and not r[1].
    let code = [
        "85 04 03", // 10000 f := 3 < r[4]
        "86 00010000", // 10003 f => jump 10000
        "8E", // 10008 service
        "89 04 00010010", // 10009 jump m32[r[4] * 4 + 10010]
        "00",
        WORDS, // 10010
    ];
    expect(&rt, &code, 0x1_0009, &OPEN)?;
    let code = [
        "85 01 03",
        "86 00010000",
        "8E",
        "89 01 00010010",
        "00",
        WORDS,
    ];
    expect(&rt, &code, 0x1_0009, &BOUNDED)
}

#[test]
fn a_move_of_the_window_makes_what_it_assigns_unknown(rt: HostRuntime) -> Result<(), Fail> {
    // Both moves assign r[5], r[6] and r[7], and not r[1].
    for moved in ["8F", "A0"] {
        let code = [
            "85 05 03", // 10000 f := 3 < r[5]
            "86 00010000", // 10003 f => jump 10000
            moved, // 10008 wsave, or wrestore
            "89 05 00010010", // 10009 jump m32[r[5] * 4 + 10010]
            "00",
            WORDS, // 10010
        ];
        expect(&rt, &code, 0x1_0009, &OPEN)?;
        let code = [
            "85 01 03",
            "86 00010000",
            moved,
            "89 01 00010010",
            "00",
            WORDS,
        ];
        expect(&rt, &code, 0x1_0009, &BOUNDED)?;
    }
    Ok(())
}

#[test]
fn a_quotient_by_0_is_unknown(rt: HostRuntime) -> Result<(), Fail> {
    let code = [
        "85 01 03", // 10000 f := 3 < r[1]
        "86 00010000", // 10003 f => jump 10000
        "90 21 00000002", // 10008 r[2] := 2 / r[1]
        "89 02 00010014", // 1000E jump m32[r[2] * 4 + 10014]
        WORDS, // 10014
    ];
    expect(&rt, &code, 0x1_000E, &OPEN)
}

#[test]
fn other_quotients_are_known(rt: HostRuntime) -> Result<(), Fail> {
    // 4 by 1, 2, 3 and 4
    let code = [
        "85 01 03", // 10000 f := 3 < r[1]
        "86 00010000", // 10003 f => jump 10000
        "80 11 00000001", // 10008 r[1] := r[1] + 1
        "90 21 00000004", // 1000E r[2] := 4 / r[1]
        "89 02 0001001C", // 10014 jump m32[r[2] * 4 + 1001C]
        "00 00",
        WORDS, // 1001C
    ];
    expect(&rt, &code, 0x1_0014, &[0x900, 0x1_0005, 0x1_000D])
}

#[test]
fn bits_of_a_known_cell_are_put_in(rt: HostRuntime) -> Result<(), Fail> {
    // The numbers 0 to 7 become 0 to 3.
    let code = [
        "85 01 07", // 10000 f := 7 < r[1]
        "86 00010000", // 10003 f => jump 10000
        "91", // 10008 bits(r[1], 2, 31) := 0
        "89 01 00010010", // 10009 jump m32[r[1] * 4 + 10010]
        "00",
        WORDS, // 10010
    ];
    expect(&rt, &code, 0x1_0009, &BOUNDED)
}

#[test]
fn bits_of_an_unknown_cell_leave_it_unknown(rt: HostRuntime) -> Result<(), Fail> {
    let code = [
        "85 02 03", // 10000 f := 3 < r[2]
        "86 00010000", // 10003 f => jump 10000
        "91", // 10008 bits(r[1], 2, 31) := 0
        "89 01 00010010", // 10009 jump m32[r[1] * 4 + 10010]
        "00",
        WORDS, // 10010
    ];
    expect(&rt, &code, 0x1_0009, &OPEN)
}
