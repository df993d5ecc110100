//! A text of each form, changes of it, and what a text is read as.
use c_read::{CFault, read_c};
use std::alloc::{AllocError, Global};

/// Items: 0 the first line, 1 `uq_machine`, 2 `uq_seg_0`, 3 `uq_seg_1`, 4 `uq_segs`, 5 and 6 prototypes, 7 and 8 functions,
/// 9 `uq_main`. Lines 1 to 7 are the items 0 to 6.
pub const WHOLE: &[u8] = b"#include \"uqbt.h\"
const u64 uq_machine[14] = { 1, 1, 536870912, 16777216, 4009754624, 8388608, 1, 3, 4, 17, 14, 9, 90, 1 };
const u8 uq_seg_0[4] = { 130, 16, 32, 255 };
const u8 uq_seg_1[1] = { 0 };
const u64 uq_segs[8] = { 65536, 0, 4, 12, 131072, 1, 0, 4096 };
void f_00010000(u64 ra, u64 c1, u64 c12);
void f_0001000C(u64 ra);
void f_00010000(u64 ra, u64 c1, u64 c12) {
    u64 pt;
    u64 c3;
    u64 t0;
    u64 t1;
L_00010000: ;
    t0 = 0ull;
    t1 = ((t0 + c1) * (t0 ? c12 : 18446744073709551615ull));
    c3 = uq_load(4, (c1 & 4095ull));
    uq_store(8, c1, (c3 << 2ull));
    t1 = uq_w[t0];
    uq_w[3ull] = (t1 | ra);
    uq_serve(c1, c3, q7, uq_wn);
    c1 = uq_r;
    pt = uq_e;
    uq_depth = (uq_depth - 1ull);
    q7 = (c1 / (c12 % (c3 ^ (c1 >> (1ull == (2ull != (3ull < (4ull <= 5ull))))))));
    f_0001000C(65544ull);
    if ((c1 < 7ull)) {
        uq_stop(3, c1);
        if (t1) {
        }
    }
    goto L_00010004_T_0001000C;
L_00010004_T_0001000C: ;
    if (t1) goto L_00010000; goto L_00010008_D_00010004;
L_00010008_D_00010004: ;
    switch (pt) { case 65536ull: goto L_00010000; case 65536ull: goto L_00010008_R; default: uq_end(5, pt); }
L_00010008_R: ;
    return;
L_00010008_E_00010010: ;
    uq_end(8, 65544ull);
L_00010008_C_0001000C_00010010: ;
    uq_end(0, 1ull);
}
void f_0001000C(u64 ra) {
    u64 pt;
}
void uq_main(void) { f_00010000(4294967296ull, 0ull, 7ull); }
";

/// Whether the bytes from a place on begin with some others.
fn begins(text: &[u8], at: usize, front: &[u8]) -> bool {
    let (_, rest) = text.split_at(at.min(text.len()));
    rest.starts_with(front)
}

/// The first place of some bytes in the whole text, or its end.
pub fn place_of(bytes: &[u8]) -> usize {
    for at in 0..WHOLE.len() {
        if begins(WHOLE, at, bytes) {
            return at;
        }
    }
    WHOLE.len()
}

/// The text with the first place of `old` changed to `new`.
pub fn changed(alloc: Global, old: &[u8], new: &[u8]) -> Result<Vec<u8>, AllocError> {
    let (front, rest) = WHOLE.split_at(place_of(old).min(WHOLE.len()));
    let (_, back) = rest.split_at(old.len().min(rest.len()));
    let mut text = Vec::from_slice(alloc, front)?;
    text.extend_from_slice(new)?;
    text.extend_from_slice(back)?;
    Ok(text)
}

/// What a text is read as: its fault, or none.
pub fn fault_of(alloc: Global, text: &[u8]) -> Option<CFault> {
    if text.len() >= 1 << 30 {
        return None;
    }
    match read_c(alloc, text) {
        Ok(_program) => None,
        Err(fault) => Some(fault),
    }
}
