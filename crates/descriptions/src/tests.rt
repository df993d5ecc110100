//! Texts with the first fault of the three, worked out by hand.
use super::{DescFault, Undescribed, read_descriptions};
use std::alloc::Global;
use std::test::Fail;

/// What is told of three texts: the check that fails, or nothing where they describe a machine.
fn told(alloc: Global, sled: &str, ssl: &str, conv: &str) -> Result<String, Fail> {
    if sled.len() > 60_000 || ssl.len() > 60_000 || conv.len() > 60_000 {
        return Ok(format!(in alloc; "too long")?);
    }
    match read_descriptions(alloc, sled.as_bytes(), ssl.as_bytes(), conv.as_bytes()) {
        Ok(_) => Ok(String::new(alloc)),
        Err(Undescribed::Ssl(DescFault::Ssl(fault))) => Ok(format!(in alloc; "{fault}")?),
        Err(Undescribed::Conv(DescFault::Conv(fault))) => Ok(format!(in alloc; "{fault}")?),
        Err(_) => Ok(format!(in alloc; "another text")?),
    }
}

/// Encodings with two types: `src` of constructors 0 and 1, `dst` of 2.
const CODES: &str = "order big
fields of v (16) f 0:2 g 3:5 h 6:7 k 8:15 all 0:15
constructor X f : src is f & h = 0
constructor Y g : src is g & h = 1
constructor Z f : dst is f & h = 2
constructor ADD f, g is f & g & h = 3 & k = 1
constructor MOV dst is k = 9 ; dst
constructor SRC src is k = 10 ; src
constructor NOP is all = 0
";

/// Three lines that stand before those of a table.
const CELLS: &str = "cells r[8] 32\ncell C 1\ncell w 64\n";

/// Conventions for the machines of the tables.
const CALLS: &str = "elf 2
stack r[6] 0xEF000000 0x00800000 256
heap 0x20000000 0x01000000
service r[1] args r[2] r[3] r[4] result r[2] error C
exit 1
read 3
write 4
brk 17
errors fault 14 descriptor 9 unknown 90
";

/// Lines of the machine: cells, views, the zero cell, windows. Where no line is at fault the first constructor without a template is told.
const MACHINE: &[(&str, &str)] = &[
    ("align yes", "constructor 0 has no template"),
    ("delay 1", "constructor 0 has no template"),
    ("delay 32", "constructor 0 has no template"),
    ("delay no", "constructor 0 has no template"),
    ("cell d 64", "constructor 0 has no template"),
    ("cells s[0] 8", "constructor 0 has no template"),
    ("cells s[110] 8", "constructor 0 has no template"),
    (
        "view v[2] 8 is bits(r[0], 0, 7), bits(r[0], 8, 15)",
        "constructor 0 has no template",
    ),
    ("view v[1] 64 is w", "constructor 0 has no template"),
    ("zero r[0]", "constructor 0 has no template"),
    ("zero C", "constructor 0 has no template"),
    ("windows r[0] r[2] r[4] 2", "constructor 0 has no template"),
    ("align yes\nalign no", "line 5: given twice"),
    ("delay no\ndelay 4", "line 5: given twice"),
    ("zero r[0]\nzero r[1]", "line 5: given twice"),
    (
        "windows r[0] r[2] r[4] 2\nwindows r[0] r[2] r[4] 2",
        "line 5: given twice",
    ),
    ("cell C 8", "line 4: given twice"),
    ("cell r 8", "line 4: given twice"),
    ("cell zx 8", "line 4: given twice"),
    ("cells w[1] 8", "line 4: given twice"),
    ("view r[1] 32 is r[0]", "line 4: given twice"),
    ("delay 0", "line 4: a number out of range"),
    ("delay 33", "line 4: a number out of range"),
    ("cell d 0", "line 4: a number out of range"),
    ("cell d 65", "line 4: a number out of range"),
    ("cells s[4] 65", "line 4: a number out of range"),
    ("view v[1] 32 is r[8]", "line 4: a number out of range"),
    (
        "view v[1] 8 is bits(r[0], 7, 0)",
        "line 4: a number out of range",
    ),
    (
        "view v[1] 33 is bits(r[0], 0, 32)",
        "line 4: a number out of range",
    ),
    ("view v[1] 65 is w", "line 4: a number out of range"),
    ("zero r[8]", "line 4: a number out of range"),
    ("windows r[0] r[1] r[4] 2", "line 4: a number out of range"),
    ("windows r[0] r[2] r[4] 0", "line 4: a number out of range"),
    ("windows r[0] r[2] r[4] 9", "line 4: a number out of range"),
    ("windows r[0] r[2] w 2", "line 4: a number out of range"),
    (
        "zero r[1]\nwindows r[0] r[2] r[4] 2",
        "line 5: a number out of range",
    ),
    (
        "windows r[0] r[2] r[4] 2\nzero r[5]",
        "line 5: a number out of range",
    ),
    ("cells s[111] 8", "line 4: too many"),
    ("cells s[110] 8\ncell d 1", "line 5: too many"),
    (
        "view v[3] 8 is bits(r[0], 0, 7), bits(r[0], 8, 15)",
        "line 4: another number of operands",
    ),
    (
        "view v[1] 8 is bits(r[0], 0, 8)",
        "line 4: 8 bits and 9 bits",
    ),
    ("view v[1] 32 is w", "line 4: 32 bits and 64 bits"),
    ("windows r[0] r[2] r[7] 2", "line 4: 32 bits and 1 bits"),
    ("view v[1] 32 is q[0]", "line 4: an unknown name"),
    ("zero r", "line 4: an unknown name"),
    ("zero C[0]", "line 4: an unknown name"),
    ("zero q", "line 4: an unknown name"),
    ("windows r[0] r[2] q 2", "line 4: an unknown name"),
    (
        "view v[1] 8 is bits(r[0], 0, 7)\nview u[1] 8 is v[0]",
        "line 5: an unknown name",
    ),
];

/// Functions, and the expressions in them. Where no line is at fault the first constructor without a template is told.
const EXPRESSIONS: &[(&str, &str)] = &[
    ("function e (x:32) := x", "constructor 0 has no template"),
    ("function e () := 255:8", "constructor 0 has no template"),
    (
        "function e () := 18446744073709551615:64",
        "constructor 0 has no template",
    ),
    ("function e () := r[7]", "constructor 0 has no template"),
    ("function e () := C", "constructor 0 has no template"),
    ("function e () := m8[r[0]]", "constructor 0 has no template"),
    ("function e () := ~r[0]", "constructor 0 has no template"),
    ("function e () := -C", "constructor 0 has no template"),
    (
        "function e () := (r[0] + r[1])",
        "constructor 0 has no template",
    ),
    (
        "function e () := (C & (r[0] = r[1]))",
        "constructor 0 has no template",
    ),
    (
        "function e () := bits(r[0], 0, 31)",
        "constructor 0 has no template",
    ),
    (
        "function e () := bits((r[0] + r[1]), 8, 15)",
        "constructor 0 has no template",
    ),
    (
        "function e () := zx(64, r[0])",
        "constructor 0 has no template",
    ),
    (
        "function e () := zx(32, r[0])",
        "constructor 0 has no template",
    ),
    (
        "function e () := if(C, r[0], r[1])",
        "constructor 0 has no template",
    ),
    (
        "function e () := (%pc + %next)",
        "constructor 0 has no template",
    ),
    (
        "function e (x:32) := x\nfunction f2 (y:32) := e(y)",
        "constructor 0 has no template",
    ),
    ("function e (x:32, x:32) := x", "line 4: given twice"),
    ("function C (x:32) := x", "line 4: given twice"),
    ("function e (C:32) := C", "line 4: given twice"),
    ("function jump () := C", "line 4: given twice"),
    ("function e (x:0) := C", "line 4: a number out of range"),
    ("function e (x:65) := C", "line 4: a number out of range"),
    ("function e () := 256:8", "line 4: a number out of range"),
    ("function e () := 0:0", "line 4: a number out of range"),
    ("function e () := 1:65", "line 4: a number out of range"),
    ("function e () := r[8]", "line 4: a number out of range"),
    (
        "function e () := bits(r[0], 0, 32)",
        "line 4: a number out of range",
    ),
    (
        "function e () := bits(r[0], 5, 4)",
        "line 4: a number out of range",
    ),
    (
        "function e () := zx(31, r[0])",
        "line 4: a number out of range",
    ),
    (
        "function e () := sx(65, r[0])",
        "line 4: a number out of range",
    ),
    (
        "function e () := (C + 300:8)",
        "line 4: a number out of range",
    ),
    ("function e (x:32) := y", "line 4: an unknown name"),
    ("function e (x:32) := e(x)", "line 4: an unknown name"),
    ("function e () := q[0]", "line 4: an unknown name"),
    ("function e () := r", "line 4: an unknown name"),
    ("function e () := C[0]", "line 4: an unknown name"),
    ("function e () := (q + 300:8)", "line 4: an unknown name"),
    ("function e () := id(1:8)", "line 4: an unknown name"),
    ("function e (x:32) := (x + C)", "line 4: 32 bits and 1 bits"),
    ("function e () := m8[w]", "line 4: 32 bits and 64 bits"),
    ("function e () := m16[C]", "line 4: 32 bits and 1 bits"),
    ("function e () := (C << r[0])", "line 4: 1 bits and 32 bits"),
    (
        "function e () := (r[0] & (r[0] = r[1]))",
        "line 4: 32 bits and 1 bits",
    ),
    (
        "function e () := if(r[0], r[0], r[1])",
        "line 4: 1 bits and 32 bits",
    ),
    (
        "function e () := if(C, r[0], w)",
        "line 4: 32 bits and 64 bits",
    ),
    ("function e () := (%next + C)", "line 4: 32 bits and 1 bits"),
    (
        "function e (x:32) := x\nfunction f2 (y:32) := e(y, y)",
        "line 5: another number of operands",
    ),
    (
        "function e (x:32) := x\nfunction f2 (y:32) := e()",
        "line 5: another number of operands",
    ),
    (
        "function e (x:32) := x\nfunction f2 (y:8) := e(y)",
        "line 5: 32 bits and 8 bits",
    ),
    (
        "function e () := ~~~~~~~~~~~~~~~~~~~~~~~~~~~~~~~~~~~~~~~~~~~~~~~~~~~~~~~~~~~~~~~~~~~~~~~~~~~~~~~~~~~~~~~~~~~~~~~~~~~~~~~~~~~~~~~~~~~~~~~~~~~~~~~~~~~~~~~~~~~~~~~~~~~~~~~~~~~~~~~~~~~~~~~~~~~~~~~~~~~~~~~~~~~~~~~~~~~~~~~~~~~~~~~~~~~~~~~~~~~~~~~~~~~~~~~~~~~~~~~~~~~~~~~~~~~~~~~C",
        "constructor 0 has no template",
    ),
    (
        "function e () := ~~~~~~~~~~~~~~~~~~~~~~~~~~~~~~~~~~~~~~~~~~~~~~~~~~~~~~~~~~~~~~~~~~~~~~~~~~~~~~~~~~~~~~~~~~~~~~~~~~~~~~~~~~~~~~~~~~~~~~~~~~~~~~~~~~~~~~~~~~~~~~~~~~~~~~~~~~~~~~~~~~~~~~~~~~~~~~~~~~~~~~~~~~~~~~~~~~~~~~~~~~~~~~~~~~~~~~~~~~~~~~~~~~~~~~~~~~~~~~~~~~~~~~~~~~~~~~~~C",
        "line 4: too many nodes",
    ),
];

/// Templates of constructors. Where no line is at fault the first constructor without a template is told.
const TEMPLATES: &[(&str, &str)] = &[
    ("operand X (f) := r[f]", "constructor 1 has no template"),
    (
        "operand X (f) := zx(32, f)",
        "constructor 1 has no template",
    ),
    (
        "operand X (f) := (f + 1:3)",
        "constructor 1 has no template",
    ),
    (
        "operand X (f) := r[f]\noperand Y (g) := zx(32, g)",
        "constructor 2 has no template",
    ),
    ("operand X () := r[0]", "line 4: another number of operands"),
    (
        "operand X (f, g) := r[f]",
        "line 4: another number of operands",
    ),
    (
        "instruction NOP (f) := none",
        "line 4: another number of operands",
    ),
    (
        "operand X (f) := r[f]\noperand Y (g) := r[g]\ninstruction SRC (d, e) := trap e",
        "line 6: another number of operands",
    ),
    (
        "operand X (f) := r[f]\noperand Y (g) := r[g]\ninstruction SRC (r, x) := trap x",
        "line 6: given twice",
    ),
    (
        "operand X (f, e) := r[e]",
        "line 4: another number of operands",
    ),
    (
        "operand X (f, e) := e[f]",
        "line 4: another number of operands",
    ),
    (
        "instruction NOP (e) := *32* e := e[3]",
        "line 4: another number of operands",
    ),
    (
        "instruction NOP (e) := *32* e[0] := r[e]",
        "line 4: another number of operands",
    ),
    (
        "instruction NOP (e) := *8* bits(e, 0, 7) := 1:8",
        "line 4: another number of operands",
    ),
    (
        "instruction NOP (e) := trap e(1:32)",
        "line 4: an unknown name",
    ),
    ("instruction NOP (e) := trap q", "line 4: an unknown name"),
    ("operand ADD (f, g) := r[0]", "line 4: an unknown name"),
    ("operand Q (f) := r[f]", "line 4: an unknown name"),
    ("instruction X (f) := none", "line 4: an unknown name"),
    (
        "instruction MOV (d) := *32* d := 1:32",
        "line 4: an unknown name",
    ),
    (
        "instruction NOP () := *32* r[f] := r[0]",
        "line 4: an unknown name",
    ),
    (
        "instruction NOP () := *32* q := 1:32",
        "line 4: an unknown name",
    ),
    (
        "instruction NOP () := *32* r := 1:32",
        "line 4: an unknown name",
    ),
    ("instruction NOP () := wsave", "line 4: an unknown name"),
    ("operand X (f) := f[f]", "line 4: an unknown name"),
    (
        "operand X (f) := r[f]\noperand X (f) := r[f]",
        "line 5: given twice",
    ),
    ("operand X (C) := r[C]", "line 4: given twice"),
    ("instruction ADD (f, f) := none", "line 4: given twice"),
    (
        "instruction NOP () := none\ninstruction NOP () := none",
        "line 5: given twice",
    ),
    (
        "operand X (f) := r[f]\noperand Y (g) := C",
        "line 5: 32 bits and 1 bits",
    ),
    (
        "operand X (f) := C\noperand Y (g) := r[g]",
        "line 5: 1 bits and 32 bits",
    ),
    (
        "cells s[7] 32\noperand X (f) := s[f]",
        "line 5: a number out of range",
    ),
    (
        "operand Z (f) := r[f]\ninstruction MOV (d) := *32* d := 1:32",
        "constructor 0 has no template",
    ),
    (
        "operand Z (f) := zx(32, f)\ninstruction MOV (d) := *32* d := 1:32",
        "line 5: not a place",
    ),
    (
        "instruction ADD (f, g) := *3* f := 1:3",
        "line 4: not a place",
    ),
    (
        "operand X (f) := r[f]\noperand Y (g) := zx(32, g)\ninstruction SRC (s) := *32* r[0] := s",
        "constructor 2 has no template",
    ),
    (
        "operand X (f) := r[f]\noperand Y (g) := zx(32, g)\ninstruction SRC (s) := *32* s := r[0]",
        "line 6: not a place",
    ),
    (
        "instruction NOP () := none",
        "constructor 0 has no template",
    ),
    (
        "instruction NOP () := *32* r[0] := r[1]",
        "constructor 0 has no template",
    ),
    (
        "instruction NOP () := *8* bits(r[0], 0, 7) := 1:8",
        "constructor 0 has no template",
    ),
    (
        "instruction NOP () := *8* m8[r[0]] := 1:8",
        "constructor 0 has no template",
    ),
    (
        "instruction NOP () := jump r[0]",
        "constructor 0 has no template",
    ),
    (
        "instruction NOP () := trap 5:32",
        "constructor 0 has no template",
    ),
    (
        "instruction NOP () := C => annul",
        "constructor 0 has no template",
    ),
    (
        "instruction NOP () := annul ; service",
        "constructor 0 has no template",
    ),
    (
        "instruction NOP () := trap 1:32 ; trap 2:32",
        "constructor 0 has no template",
    ),
    (
        "windows r[0] r[2] r[4] 2\ninstruction NOP () := wsave",
        "constructor 0 has no template",
    ),
    (
        "windows r[0] r[2] r[4] 2\ninstruction NOP () := wsave ; wrestore",
        "line 5: two jumps",
    ),
    (
        "instruction ADD (f, g) := *32* r[f] := (r[f] + r[g])",
        "constructor 0 has no template",
    ),
    (
        "instruction NOP () := *0* r[0] := r[0]",
        "line 4: a number out of range",
    ),
    (
        "instruction NOP () := *65* r[0] := r[0]",
        "line 4: a number out of range",
    ),
    (
        "instruction NOP () := *8* bits(r[0], 25, 32) := 1:8",
        "line 4: a number out of range",
    ),
    (
        "instruction NOP () := *32* r[8] := r[0]",
        "line 4: a number out of range",
    ),
    (
        "instruction NOP () := jump 5:2",
        "line 4: a number out of range",
    ),
    (
        "instruction NOP () := *32* r[0] := C",
        "line 4: 32 bits and 1 bits",
    ),
    (
        "instruction NOP () := *1* r[0] := C",
        "line 4: 1 bits and 32 bits",
    ),
    (
        "instruction NOP () := *8* bits(r[0], 0, 8) := 1:8",
        "line 4: 8 bits and 9 bits",
    ),
    (
        "instruction NOP () := *8* m8[w] := 1:8",
        "line 4: 32 bits and 64 bits",
    ),
    (
        "instruction NOP () := *16* m8[r[0]] := 1:16",
        "line 4: 16 bits and 8 bits",
    ),
    (
        "instruction NOP () := jump w",
        "line 4: 32 bits and 64 bits",
    ),
    ("instruction NOP () := trap C", "line 4: 32 bits and 1 bits"),
    (
        "instruction NOP () := r[0] => annul",
        "line 4: 1 bits and 32 bits",
    ),
    (
        "instruction NOP () := jump r[0] ; jump r[1]",
        "line 4: two jumps",
    ),
    (
        "instruction NOP () := C => jump r[0] ; jump r[1]",
        "line 4: two jumps",
    ),
    ("instruction NOP () := annul ; annul", "line 4: two jumps"),
    ("instruction NOP () := service ; annul", "line 4: two jumps"),
    (
        "instruction NOP () := service ; service",
        "line 4: two jumps",
    ),
    (
        "operand X (f) := ((r[f] + r[0]) + (r[1] + r[2]))\noperand Y (g) := r[g]\nfunction d (x:32) := (x + x)\ninstruction SRC (s) := *32* r[0] := d(d(d(d(d(s)))))",
        "constructor 2 has no template",
    ),
    (
        "operand X (f) := ((r[f] + r[0]) + (r[1] + r[2]))\noperand Y (g) := r[g]\nfunction d (x:32) := (x + x)\ninstruction SRC (s) := *32* r[0] := ~d(d(d(d(d(s)))))",
        "line 7: too many nodes",
    ),
    (
        "operand X (f) := r[f]\noperand Y (g) := r[g]\noperand Z (f) := r[f]\ninstruction ADD (f, g) := none\ninstruction MOV (d) := *32* d := 1:32\ninstruction SRC (s) := *32* r[0] := s\n",
        "constructor 6 has no template",
    ),
    (
        "operand X (f) := r[f]\noperand Y (g) := r[g]\noperand Z (f) := r[f]\ninstruction ADD (f, g) := none\ninstruction MOV (d) := *32* d := 1:32\ninstruction SRC (s) := *32* r[0] := s\ninstruction NOP () := service",
        "",
    ),
];

/// The small machine, with a constructor of another type and a cell more.
const SMALL_CODES: &str = "order big
fields of w (32) op 30:31 rd 25:29 op3 19:24 rs1 14:18 i 13:13 imm 0:12 all 0:31
constructor ORI rs1, imm, rd is op = 2 & op3 = 2 & i = 1 & rs1 & imm & rd
constructor TA is all = 0x91D02010
constructor B : low is all = 5
";

const SMALL_CELLS: &str = "align yes
delay 4
cells r[32] 32
cell C 1
cell y 32
zero r[0]
instruction ORI (rs1, imm, rd) := *32* r[rd] := (r[rs1] | sx(32, imm))
instruction TA () := service
operand B () := y
";

/// Convention files.
const CONVENTIONS: &[(&str, &str)] = &[
    ("stack q 0 4096 0", "line 1: an unknown name"),
    ("stack r 0 4096 0", "line 1: an unknown name"),
    ("stack r[32] 0 4096 0", "line 1: an unknown name"),
    ("stack r[4294967310] 0 4096 0", "line 1: an unknown name"),
    ("stack C[0] 0 4096 0", "line 1: an unknown name"),
    ("stack q 1 1 1", "line 1: an unknown name"),
    ("link zz", "line 1: an unknown name"),
    ("link y\nlink zz", "line 2: an unknown name"),
    (
        "service r[1] args r[8] r[9] r[10] result r[8] error q",
        "line 1: an unknown name",
    ),
    (
        "service C args r[8] r[9] q result r[8] error r[1]",
        "line 1: an unknown name",
    ),
    ("call Q", "line 1: an unknown name"),
    ("call low", "line 1: an unknown name"),
    ("return low", "line 1: an unknown name"),
    ("call B", "line 1: an unknown name"),
    ("pad Q", "line 1: an unknown name"),
    ("pad B", "line 1: an unknown name"),
    ("args 64", "line 1: an unknown name"),
    ("args 258\nstack y 0 4096 256", "line 1: an unknown name"),
    ("heap 0 4096\nargs 0\nargs 0", "line 2: an unknown name"),
    ("elf 2\nelf 70000", "line 2: given twice"),
    ("exit 1\nread 3\nexit 1", "line 3: given twice"),
    ("link y\nlink C", "line 2: given twice"),
    ("heap 0 4096\nheap 0 1", "line 2: given twice"),
    ("stack y 0 4096 0\nstack C 1 1 1", "line 2: given twice"),
    (
        "service r[1] args r[8] r[9] r[10] result r[8] error C\nservice r[1] args r[8] r[9] r[10] result r[8] error negative",
        "line 2: given twice",
    ),
    ("read 1\nread 1", "line 2: given twice"),
    ("write 1\nwrite 1", "line 2: given twice"),
    ("brk 1\nbrk 1", "line 2: given twice"),
    (
        "errors fault 1 descriptor 2 unknown 3\nentry 1\nerrors fault 1 descriptor 2 unknown 3",
        "line 3: given twice",
    ),
    (
        "stack y 0 4096 256\nargs 64\nargs 64",
        "line 3: given twice",
    ),
    (
        "stack y 0 4096 256\nargs 64\nargs 258",
        "line 3: given twice",
    ),
    ("elf 65536", "line 1: out of range"),
    ("exit 4294967296", "line 1: out of range"),
    ("entry 4294967296", "line 1: out of range"),
    ("whole 4294967296", "line 1: out of range"),
    (
        "errors fault 1 descriptor 2 unknown 4294967296",
        "line 1: out of range",
    ),
    ("heap 0 0", "line 1: out of range"),
    ("heap 1 4096", "line 1: out of range"),
    ("heap 0 4097", "line 1: out of range"),
    ("heap 0 16781312", "line 1: out of range"),
    ("heap 0xFF001000 0x01000000", "line 1: out of range"),
    ("heap 0xFFFFFFFFFFFFF000 4096", "line 1: out of range"),
    ("stack y 0 0x00801000 0", "line 1: out of range"),
    ("stack y 0 4096 4104", "line 1: out of range"),
    ("stack y 0 4096 12", "line 1: out of range"),
    ("stack y 0xFF800000 0x00800000 0", "line 1: out of range"),
    ("stack r[0] 0 4096 0", "line 1: out of range"),
    ("stack C 0 4096 12", "line 1: out of range"),
    ("stack y 4096 4096 0\nheap 0 8192", "line 2: out of range"),
    ("heap 0 8192\nstack y 4096 4096 0", "line 2: out of range"),
    (
        "heap 0 4096\nentry 0\nstack y 0 4096 0",
        "line 3: out of range",
    ),
    (
        "elf 2\nstack r[14] 0xEF000000 0x00800000 256\nheap 0x20000000 0x01000001",
        "line 3: out of range",
    ),
    ("stack y 0 4096 256\nargs 258", "line 2: out of range"),
    ("stack y 0 4096 264\nargs 258", "line 2: out of range"),
    ("stack y 0 4096 256\nargs 260", "line 2: out of range"),
    (
        "stack y 0 4096 256\nargs 4294967296",
        "line 2: out of range",
    ),
    ("stack C 0 4096 0", "line 1: a cell of 1 bits, not 32"),
    ("link C", "line 1: a cell of 1 bits, not 32"),
    (
        "service r[1] args r[8] r[9] r[10] result r[8] error r[2]",
        "line 1: a cell of 32 bits, not 1",
    ),
    (
        "service C args y y y result y error y",
        "line 1: a cell of 1 bits, not 32",
    ),
    (
        "service y args y y C result y error y",
        "line 1: a cell of 1 bits, not 32",
    ),
    (
        "service y args y y y result C error C",
        "line 1: a cell of 1 bits, not 32",
    ),
    (
        "service y args y y y result y error y\nlink C",
        "line 1: a cell of 32 bits, not 1",
    ),
    ("", "no line of kind 1"),
    ("stack y 0 4096 4096", "no line of kind 1"),
    ("stack y 0xFF800000 0x00800000 8", "no line of kind 1"),
    ("heap 0 4096\nstack y 4096 4096 0", "no line of kind 1"),
    ("exit 4294967295", "no line of kind 1"),
    ("stack y 0 4096 256\nargs 256", "no line of kind 1"),
    ("stack y 0 4096 256\nargs 4", "no line of kind 1"),
    ("stack y 0 4096 0\nargs 0", "no line of kind 1"),
    ("pad ORI\npad TA\npad ORI\nreturn ORI", "no line of kind 1"),
    ("elf 2", "no line of kind 2"),
    ("elf 2\nstack y 0 4096 0", "no line of kind 3"),
    (
        "elf 2\nstack y 0 4096 0\nheap 4096 4096\nbrk 1",
        "no line of kind 4",
    ),
    (
        "elf 2\nstack y 0 4096 0\nheap 4096 4096\nservice r[1] args r[8] r[9] r[10] result r[8] error C\nread 3",
        "no line of kind 5",
    ),
    (
        "elf 2\nstack y 0 4096 0\nheap 4096 4096\nservice r[1] args r[8] r[9] r[10] result r[8] error negative\nexit 1",
        "no line of kind 6",
    ),
    (
        "elf 2\nstack y 0 4096 0\nheap 4096 4096\nservice r[1] args r[8] r[9] r[10] result r[8] error C\nexit 1\nread 3",
        "no line of kind 7",
    ),
    (
        "elf 2\nstack y 0 4096 0\nheap 4096 4096\nservice r[1] args r[8] r[9] r[10] result r[8] error C\nexit 1\nread 3\nwrite 4",
        "no line of kind 8",
    ),
    (
        "elf 2\nstack y 0 4096 0\nheap 4096 4096\nservice r[1] args r[8] r[9] r[10] result r[8] error C\nexit 1\nread 3\nwrite 4\nbrk 5",
        "no line of kind 9",
    ),
    (
        "stack r[14] 0xEF000000 0x00800000 256\nheap 0x20000000 0x01000000\nservice r[1] args r[8] r[9] r[10] result r[8] error C\nexit 1\nread 3\nwrite 4\nbrk 17\nerrors fault 14 descriptor 9 unknown 90",
        "no line of kind 1",
    ),
];

/// Tries texts of instructions behind the three lines.
fn are_told(alloc: Global, table: &[(&str, &str)]) -> Result<bool, Fail> {
    for (lines, wanted) in table {
        let text = format!(in alloc; "{CELLS}{lines}")?;
        let found = told(alloc, CODES, text.as_str(), CALLS)?;
        if found.as_str() != *wanted {
            return Ok(false);
        }
    }
    Ok(true)
}

#[test]
fn tells_the_first_fault_of_the_lines_of_a_machine(rt: HostRuntime) -> Result<(), Fail> {
    assert!(rt; are_told(rt.alloc(), MACHINE)?);
    Ok(())
}

#[test]
fn tells_the_first_fault_of_functions(rt: HostRuntime) -> Result<(), Fail> {
    assert!(rt; are_told(rt.alloc(), EXPRESSIONS)?);
    Ok(())
}

#[test]
fn tells_the_first_fault_of_templates(rt: HostRuntime) -> Result<(), Fail> {
    assert!(rt; are_told(rt.alloc(), TEMPLATES)?);
    Ok(())
}

#[test]
fn tells_the_first_fault_of_a_convention_file(rt: HostRuntime) -> Result<(), Fail> {
    for (text, wanted) in CONVENTIONS {
        let found = told(rt.alloc(), SMALL_CODES, SMALL_CELLS, text)?;
        assert_eq!(rt; found.as_str(), *wanted, "{text}");
    }
    Ok(())
}
