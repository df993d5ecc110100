//! Which instructions are a chain, and which chain comes first.
use crate::small_machine::{BOUNDED, OPEN, WORDS, expect};
use std::test::Fail;

#[test]
fn a_chain_has_at_most_12_instructions(rt: HostRuntime) -> Result<(), Fail> {
    let code = [
        "85 01 03", // 10000 f := 3 < r[1]
        "86 00010000", // 10003 f => jump 10000
        "8C 8C 8C 8C 8C 8C 8C 8C 8C", // 10008 nine that do nothing
        "89 01 00010018", // 10011 jump m32[r[1] * 4 + 10018]
        "00",
        WORDS, // 10018
    ];
    expect(&rt, &code, 0x1_0011, &BOUNDED)?;
    let code = [
        "85 01 03", // 10000 f := 3 < r[1]
        "86 00010000", // 10003 f => jump 10000
        "8C 8C 8C 8C 8C 8C 8C 8C 8C 8C", // 10008 ten that do nothing
        "89 01 00010018", // 10012 jump m32[r[1] * 4 + 10018]
        WORDS, // 10018
    ];
    expect(&rt, &code, 0x1_0012, &OPEN)
}

#[test]
fn a_chain_begins_at_most_64_bytes_before_the_jump(rt: HostRuntime) -> Result<(), Fail> {
    let same = "80 33 00000000"; // r[3] := r[3] + 0
    let code = [
        "94 01 00000003", // 10000 f := 3 < r[1]
        "86 00010000", // 10006 f => jump 10000
        same, // 1000B
        same,
        same,
        same,
        same,
        same,
        same,
        same,
        "98 00010000", // 1003B g => jump 10000
        "89 01 00010048", // 10040 jump m32[r[1] * 4 + 10048]
        "00 00",
        WORDS, // 10048
    ];
    expect(&rt, &code, 0x1_0040, &BOUNDED)?;
    let code = [
        "94 01 00000003", // 10000 f := 3 < r[1]
        "86 00010000", // 10006 f => jump 10000
        same, // 1000B
        same,
        same,
        same,
        same,
        same,
        same,
        same,
        same,
        "89 01 00010048", // 10041 jump m32[r[1] * 4 + 10048]
        "00",
        WORDS, // 10048
    ];
    expect(&rt, &code, 0x1_0041, &OPEN)
}

#[test]
fn an_unguarded_jump_ends_no_chain_but_its_own(rt: HostRuntime) -> Result<(), Fail> {
    let code = [
        "85 01 03", // 10000 f := 3 < r[1]
        "86 00010000", // 10003 f => jump 10000
        "87 00010000", // 10008 jump 10000
        "89 01 00010014", // 1000D jump m32[r[1] * 4 + 10014]
        "00",
        WORDS, // 10014
    ];
    expect(&rt, &code, 0x1_000D, &OPEN)
}

#[test]
fn a_chain_has_no_gap(rt: HostRuntime) -> Result<(), Fail> {
    let code = [
        "85 01 03", // 10000 f := 3 < r[1]
        "86 00010000", // 10003 f => jump 10000
        "00", // 10008 no instruction
        "89 01 00010010", // 10009 jump m32[r[1] * 4 + 10010]
        "00",
        WORDS, // 10010
    ];
    expect(&rt, &code, 0x1_0009, &OPEN)
}

#[test]
fn of_bounded_chains_the_shortest_comes_first(rt: HostRuntime) -> Result<(), Fail> {
    // From 10000 on 2 leaves, and from 10008 on 4.
    let code = [
        "85 01 01", // 10000 f := 1 < r[1]
        "86 00010000", // 10003 f => jump 10000
        "85 01 03", // 10008 f := 3 < r[1]
        "86 00010000", // 1000B f => jump 10000
        "89 01 00010018", // 10010 jump m32[r[1] * 4 + 10018]
        "00 00",
        WORDS, // 10018
    ];
    expect(&rt, &code, 0x1_0010, &BOUNDED)
}

#[test]
fn of_chains_of_one_length_the_greatest_start_comes_first(rt: HostRuntime) -> Result<(), Fail> {
    // From 10000 on f := 3 < r[1] + 2 stands first, so 2 leaves; from 10001 on f := 3 < r[1], so 4 does.
    let code = [
        "9A 85 01 03", // 10000
        "86 00010000", // 10004 f => jump 10000
        "89 01 00010010", // 10009 jump m32[r[1] * 4 + 10010]
        "00",
        WORDS, // 10010
    ];
    expect(&rt, &code, 0x1_0009, &BOUNDED)
}

#[test]
fn of_two_bounded_cells_the_lowest_comes_first(rt: HostRuntime) -> Result<(), Fail> {
    // With r[1] the number 4 leaves, and the annul is done for 1 to 3. With r[2] the number 6 leaves, and no annul is done.
    let code = [
        "9B 03 05", // 10000 f := 3 < r[1]; g := 5 < r[2]; h := 0 < r[1]; r[3] := 0
        "86 00010000", // 10003 f => jump 10000
        "98 00010000", // 10008 g => jump 10000
        "9C", // 1000D h => annul
        "80 33 00000001", // 1000E r[3] := r[3] + 1
        "89 03 0001001C", // 10014 jump m32[r[3] * 4 + 1001C]
        "00 00",
        WORDS, // 1001C
    ];
    expect(&rt, &code, 0x1_0014, &OPEN)
}
