//! A small description after i386, and matchers of texts.
use sled_core::normal_sled;
use sled_match::Matcher;
use sled_syntax::read_sled;
use std::alloc::Global;

/// Tokens of one byte and of four, and the constructors of a type, the memory and registers of an instruction:
/// a byte with mode, register and number, then perhaps a byte of scale, and a displacement.
pub const BEFORE: &str = "order little
fields of op (8) all 0:7 row 4:7 col 0:3 page 3:7 low 0:2
fields of mr (8) mode 6:7 reg 3:5 number 0:2
fields of sb (8) scale 6:7 index 3:5 base 0:2
fields of i1 (8) byte 0:7
fields of i4 (32) word 0:31
pattern shift is all = 0xD1 | all = 0xD3
pattern arith is all = 0x01 | all = 0x09 | all = 0x29 | all = 0x31
pattern far is all = 0x0F ; row = 8
constructor Register number : Ea is mode = 3 & number
constructor At number : Ea is mode = 0 & number != 4 & number != 5 & number
constructor Absolute word : Ea is mode = 0 & number = 5 ; word
constructor Scaled scale, index, base : Ea is mode = 0 & number = 4 ; scale & index != 4 & index & base
constructor Near number, byte : Ea is mode = 1 & number != 4 & number ; byte
constructor Distant number, word : Ea is mode = 2 & number != 4 & number ; word
";

/// How many constructors of types stand in the lines above.
pub const TYPED: usize = 6;

/// The constructors of type instruction, in text order: operands in the first byte, alternatives, sequences,
/// tests of `!=`, tests beside a typed operand, one that starts with a typed operand, and two that overlap others.
pub const INSTRUCTIONS: [&str; 26] = [
    "constructor Nop is all = 0x90\n",
    "constructor Push low is page = 10 & low\n",
    "constructor Pop low is page = 11 & low\n",
    "constructor Store reg, Ea is all = 0x89 ; reg ... & Ea\n",
    "constructor Load reg, Ea is all = 0x8B ; reg ... & Ea\n",
    "constructor Arith reg, Ea is arith ; reg ... & Ea\n",
    "constructor Or Ea, byte is all = 0x83 ; reg = 1 ... & Ea ; byte\n",
    "constructor Xor Ea, byte is all = 0x83 ; reg = 6 ... & Ea ; byte\n",
    "constructor And Ea, byte is all = 0x83 ; reg = 4 ... & Ea ; byte\n",
    "constructor Sub Ea, byte is all = 0x83 ; reg = 5 ... & Ea ; byte\n",
    "constructor Cmp Ea, byte is all = 0x83 ; reg = 7 ... & Ea ; byte\n",
    "constructor Shift Ea is shift ; reg != 6 ... & Ea\n",
    "constructor Inc Ea is all = 0xFE ; reg = 0 ... & Ea | all = 0xFF ; reg = 0 ... & Ea\n",
    "constructor Dec Ea is all = 0xFE ; reg = 1 ... & Ea | all = 0xFF ; reg = 1 ... & Ea\n",
    "constructor Call Ea is all = 0xFF ; reg = 2 ... & Ea\n",
    "constructor Jump Ea is all = 0xFF ; reg = 4 ... & Ea\n",
    "constructor Push_all Ea is all = 0xFF ; reg = 6 ... & Ea\n",
    "constructor Short byte is row = 7 & col != 15 ; byte\n",
    "constructor Long word is far ; word\n",
    "constructor Set is all = 0x0F ; row = 9 ; mode = 3\n",
    "constructor Bits reg, Ea is all = 0x0F ; col = 15 & page != 23 ; reg ... & Ea\n",
    "constructor Move low, word is page = 0x17 & low ; word\n",
    "constructor Segment is all = 0x26 | all = 0x2E | all = 0x36 | all = 0x3E\n",
    "constructor Sparse is row != 15 & row != 7 & col = 15\n",
    "constructor Trap byte is all = 0xCD ; byte != 0x80 & byte\n",
    "constructor Rest Ea, byte is Ea ; byte\n",
];

/// The matcher of the encodings that a text describes, if it is accepted.
pub fn matcher_of(alloc: Global, text: &str) -> Option<Matcher> {
    if text.len() > 1_000_000 {
        return None;
    }
    let Ok(lines) = read_sled(alloc, text.as_bytes()) else {
        return None;
    };
    let Ok(encodings) = normal_sled(alloc, lines.as_slice()) else {
        return None;
    };
    match Matcher::build(alloc, &encodings) {
        Ok(matcher) => Some(matcher),
        Err(_) => None,
    }
}
