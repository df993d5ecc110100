//! Switches as compilers write them for two machines.
use crate::executable::{Contents, spelled};
use crate::found_table::{Texts, expect_of};
use rtl_core::Order;
use std::test::Fail;

/// Some instructions of the SPARC, by The SPARC Architecture Manual, Version 8, "Instruction Definitions".
const SPARC: Texts = Texts {
    sled: b"order big
fields of w (32) op 30:31 rd 25:29 op3 19:24 rs1 14:18 i 13:13 imm 0:12 rs2 0:4 a 29:29 cond 25:28 op2 22:24 disp 0:21 high 0:21
constructor SETHI high, rd is op = 0 & op2 = 4 & high & rd
constructor BGU a, disp is op = 0 & op2 = 2 & cond = 0xC & a & disp
constructor ADD rs1, rs2, rd is op = 2 & op3 = 0 & i = 0 & rs1 & rs2 & rd
constructor OR rs1, imm, rd is op = 2 & op3 = 2 & i = 1 & rs1 & imm & rd
constructor SUBCC rs1, imm, rd is op = 2 & op3 = 0x14 & i = 1 & rs1 & imm & rd
constructor SLL rs1, imm, rd is op = 2 & op3 = 0x25 & i = 1 & rs1 & imm & rd
constructor JMPL rs1, imm, rd is op = 2 & op3 = 0x38 & i = 1 & rs1 & imm & rd
constructor LD rs1, imm, rd is op = 3 & op3 = 0 & i = 1 & rs1 & imm & rd",
    ssl: b"align yes
delay 4
cells r[32] 32
cell Z 1
cell C 1
zero r[0]
instruction SETHI (high, rd) := *32* r[rd] := (zx(32, high) << 10:32)
instruction BGU (a, disp) := ~(C | Z) => jump (%pc + (sx(32, disp) << 2:32)); (a & (C | Z)) => annul
instruction ADD (rs1, rs2, rd) := *32* r[rd] := (r[rs1] + r[rs2])
instruction OR (rs1, imm, rd) := *32* r[rd] := (r[rs1] | sx(32, imm))
instruction SUBCC (rs1, imm, rd) := *1* Z := (r[rs1] = sx(32, imm)); *1* C := (r[rs1] < sx(32, imm)); *32* r[rd] := (r[rs1] - sx(32, imm))
instruction SLL (rs1, imm, rd) := *32* r[rd] := (r[rs1] << zx(32, bits(imm, 0, 4)))
instruction JMPL (rs1, imm, rd) := jump (r[rs1] + sx(32, imm)); *32* r[rd] := %pc
instruction LD (rs1, imm, rd) := *32* r[rd] := m32[(r[rs1] + sx(32, imm))]",
    conv: b"elf 2
stack r[14] 0xEF000000 0x00800000 256
heap 0x20000000 0x01000000",
};

#[test]
fn a_switch_of_the_sparc_has_three_targets(rt: HostRuntime) -> Result<(), Fail> {
    let lines = [
        "82102001 92102002", // 10000
        "80A26002 1880000D 952A6002 17000040", // 10008 subcc %o1, 2, %g0; bgu 10040; sll %o1, 2, %o2; sethi 10000, %o3
        "9602C00A D602E048 81C2E000 01000000", // 10018 add %o3, %o2, %o3; ld [%o3 + 48], %o3; jmpl %o3, %g0; a slot
        "9010200A 91D02010 9010200B 91D02010 9010200C 91D02010 90102063 91D02010",
        "00010028 00010030 00010038", // 10048
    ];
    let code = spelled(rt.alloc(), &lines)?;
    let of = Contents {
        order: Order::Big,
        machine: 2,
        base: 0x1_0000,
        code: &code,
        data: b"\0\0\0\0",
    };
    expect_of(&rt, &SPARC, &of, 0x1_0020, &[0x1_0028, 0x1_0030, 0x1_0038])
}

/// Some instructions of the 80386, by the Programmer's Reference Manual, "80386 Instruction Set".
const I386: Texts = Texts {
    sled: b"order little
fields of opcode (8) op 0:7
fields of modrm (8) mod 6:7 reg 3:5 rm 0:2
fields of sib (8) scale 6:7 index 3:5 base 0:2
fields of byte (8) i8 0:7
fields of dword (32) i32 0:31
constructor CMP rm, i8 is op = 0x83 ; mod = 3 & reg = 7 & rm ; i8
constructor JA i8 is op = 0x77 ; i8
constructor MOVZX reg, rm is op = 0x0F ; op = 0xB6 ; mod = 0 & reg & rm
constructor JMP index, i32 is op = 0xFF ; mod = 0 & reg = 4 & rm = 4 ; scale = 2 & index & base = 5 ; i32",
    ssl: b"cells r[8] 32
cell CF 1
cell ZF 1
instruction CMP (rm, i8) := *1* CF := (r[rm] < sx(32, i8)); *1* ZF := (r[rm] = sx(32, i8))
instruction JA (i8) := ~(CF | ZF) => jump (%next + sx(32, i8))
instruction MOVZX (reg, rm) := *32* r[reg] := zx(32, m8[r[rm]])
instruction JMP (index, i32) := jump m32[((r[index] << 2:32) + i32)]",
    conv: b"elf 3
stack r[4] 0xBF000000 0x00800000 256
heap 0x20000000 0x01000000",
};

#[test]
fn a_switch_of_the_80386_has_four_targets(rt: HostRuntime) -> Result<(), Fail> {
    let lines = [
        "B803000000 BB00000000 89E1 BA01000000 CD80", // 08048000
        "0FB601 83F803 7717 FF24853C800408", // 08048013 movzx eax, [ecx]; cmp eax, 3; ja 08048032; jmp
        "B30A EB0E B30B EB0A B30C EB06 B30D EB02 B363 B801000000 CD80 90", // 08048022
        "22800408 26800408 2A800408 2E800408", // 0804803C
    ];
    let code = spelled(rt.alloc(), &lines)?;
    let of = Contents {
        order: Order::Little,
        machine: 3,
        base: 0x0804_8000,
        code: &code,
        data: b"\0\0\0\0",
    };
    let want = [0x0804_8022, 0x0804_8026, 0x0804_802A, 0x0804_802E];
    expect_of(&rt, &I386, &of, 0x0804_801B, &want)
}
