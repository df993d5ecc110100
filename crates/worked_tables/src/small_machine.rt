//! The machine of most tests: each instruction is one byte of 80 or more and its operands, and those are below 80, so that
//! nothing else is an instruction, but where a test wants it. Cells `r[0]` to `r[7]`, of which `r[0]` is the zero cell,
//! a narrow one `n`, and the flags `f`, `g` and `h`.
use crate::executable::{Contents, spelled};
use crate::found_table::{Texts, expect_of};
use rtl_core::Order;
use std::process::Abort;
use std::test::Fail;

const SMALL: Texts = Texts {
    sled: b"order big
fields of op (8) code 0:7
fields of regs (8) d 4:6 s 0:2
fields of small (8) k 0:6
fields of other (8) j 0:6
fields of word (32) w 0:31
constructor LET d, s, w is code = 0x80 ; d & s ; w
constructor SHIFT d, s, k is code = 0x81 ; d & s ; k
constructor LOAD d, s, w is code = 0x82 ; d & s ; w
constructor STORE d, s, w is code = 0x84 ; d & s ; w
constructor OVER s, k is code = 0x85 ; s ; k
constructor JUMP_F w is code = 0x86 ; w
constructor JUMP w is code = 0x87 ; w
constructor BY s is code = 0x88 ; s
constructor VIA s, w is code = 0x89 ; s ; w
constructor SKIP_F is code = 0x8A
constructor SKIP is code = 0x8B
constructor PASS is code = 0x8C
constructor LET_F d, s, w is code = 0x8D ; d & s ; w
constructor SERVE is code = 0x8E
constructor SAVE is code = 0x8F
constructor DIVIDE d, s, w is code = 0x90 ; d & s ; w
constructor LOW is code = 0x91
constructor OVER_N k is code = 0x92 ; k
constructor VIA_N w is code = 0x93 ; w
constructor OVER_W s, w is code = 0x94 ; s ; w
constructor TRAP k is code = 0x95 ; k
constructor VIA_G s, w is code = 0x96 ; s ; w
constructor LET_G d, s, w is code = 0x97 ; d & s ; w
constructor JUMP_G w is code = 0x98 ; w
constructor SKIP_G is code = 0x99
constructor NEARLY j, s, k is code = 0x9A ; j ; s ; k
constructor BOTH j, k is code = 0x9B ; j ; k
constructor SKIP_H is code = 0x9C
constructor VIA_SUM d, s is code = 0x9D ; d & s
constructor VIA_F s, w is code = 0x9E ; s ; w
constructor JUMP_NOT w is code = 0x9F ; w
constructor RESTORE is code = 0xA0",
    ssl: b"align yes
cells r[8] 32
cell n 4
cell f 1
cell g 1
cell h 1
zero r[0]
windows r[5] r[6] r[7] 1
instruction LET (d, s, w) := *32* r[d] := (r[s] + w)
instruction SHIFT (d, s, k) := *32* r[d] := (r[s] << zx(32, k))
instruction LOAD (d, s, w) := *32* r[d] := m32[(r[s] + w)]
instruction STORE (d, s, w) := *32* m32[(r[s] + w)] := r[d]
instruction OVER (s, k) := *1* f := (zx(32, k) < r[s])
instruction JUMP_F (w) := f => jump w
instruction JUMP (w) := jump w
instruction BY (s) := jump r[s]
instruction VIA (s, w) := jump m32[((r[s] << 2:32) + w)]
instruction SKIP_F () := f => annul
instruction SKIP () := annul
instruction PASS () := none
instruction LET_F (d, s, w) := f => *32* r[d] := (r[s] + w)
instruction SERVE () := service
instruction SAVE () := wsave
instruction DIVIDE (d, s, w) := *32* r[d] := (w / r[s])
instruction LOW () := *30* bits(r[1], 2, 31) := 0:30
instruction OVER_N (k) := *1* f := (bits(k, 0, 3) < n)
instruction VIA_N (w) := jump m32[((zx(32, n) << 2:32) + w)]
instruction OVER_W (s, w) := *1* f := (w < r[s])
instruction TRAP (k) := trap zx(32, k)
instruction VIA_G (s, w) := g => jump m32[((r[s] << 2:32) + w)]
instruction LET_G (d, s, w) := g => *32* r[d] := (r[s] + w)
instruction JUMP_G (w) := g => jump w
instruction SKIP_G () := g => annul
instruction NEARLY (j, s, k) := *1* f := (zx(32, k) < (r[s] + 2:32))
instruction BOTH (j, k) := *1* f := (zx(32, j) < r[1]); *1* g := (zx(32, k) < r[2]); *1* h := (0:32 < r[1]); *32* r[3] := 0:32
instruction SKIP_H () := h => annul
instruction VIA_SUM (d, s) := jump m32[(r[d] + r[s])]
instruction VIA_F (s, w) := f => jump m32[((r[s] << 2:32) + w)]
instruction JUMP_NOT (w) := ~f => jump w
instruction RESTORE () := wrestore",
    conv: b"elf 2
stack r[1] 0x00800000 4096 256
heap 0x00900000 4096
service r[4] args r[4] r[4] r[4] result r[4] error g
exit 1
read 3
write 4
brk 17
errors fault 14 descriptor 9 unknown 90",
};

/// Five words of which the third is no address of code: behind a bound of four they give `BOUNDED`, and without one `OPEN`.
pub const WORDS: &str = "00010001 00010005 00000900 00010009 0001000D";
/// The first four of them.
pub const BOUNDED: [u32; 4] = [0x900, 0x1_0001, 0x1_0005, 0x1_0009];
/// Those before the third.
pub const OPEN: [u32; 2] = [0x1_0001, 0x1_0005];

/// Fails where the jump at an address of a code has another table. The code begins at 10000, and zeros make up its length
/// where it is shorter than `len`. The words 10001, 10005 and 10009 stand from 20000 on, where bytes may be written.
pub fn expect_padded(
    rt: &(impl Abort + AllocGlobal),
    lines: &[&str],
    len: usize,
    at: u32,
    want: &[u32],
) -> Result<(), Fail> {
    let mut code = spelled(rt.alloc(), lines)?;
    for _ in code.len()..len {
        code.push(0)?;
    }
    let of = Contents {
        order: Order::Big,
        machine: 2,
        base: 0x1_0000,
        code: &code,
        data: b"\0\x01\0\x01\0\x01\0\x05\0\x01\0\x09",
    };
    expect_of(rt, &SMALL, &of, at, want)
}

/// The same without zeros behind.
pub fn expect(
    rt: &(impl Abort + AllocGlobal),
    lines: &[&str],
    at: u32,
    want: &[u32],
) -> Result<(), Fail> {
    expect_padded(rt, lines, 0, at, want)
}
