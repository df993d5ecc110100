//! The instruction at an address of an image.
#![tactic(auto)]

ghost use Rattle.std.specs.Prelude.{◌≡◌};
ghost use Rattle.decode.specs.At.{found_at, AreShort};

use rtl_core::{Conv, Frozen, Machine};
use sled_match::{MatchedInst, Matcher};

/// A described machine and an image for it: what the machine's instructions do and how they are matched,
/// its conventions, and the bytes that no store changes.
#[derive(Clone, Copy)]
pub struct Bundle<'a> {
    pub machine: &'a Machine,
    pub matcher: &'a Matcher,
    pub conv: &'a Conv,
    pub frozen: &'a Frozen,
}

/// What stands at an address.
#[derive(PartialEq, Eq, Drop)]
pub enum Found {
    Inst(MatchedInst),
    /// Code that no instruction matches up to the end of its part.
    Illegal,
    /// No code.
    Outside,
}

/// What stands at an address: `Outside` exactly where it is not code, `Illegal` exactly where it is and no
/// instruction matches the bytes from there to the end of their part. Takes no memory.
pub fn inst_at(on: &Bundle, pc: u32) -> Found
    requires { AreShort on.now.frozen.now }
    ensures { result ≡ found_at on.now.matcher.now on.now.frozen.now pc }
{
    match on.frozen.rest(pc) {
        None => Found::Outside,
        Some(bytes) => match on.matcher.find(bytes) {
            None => Found::Illegal,
            Some(inst) => Found::Inst(inst),
        },
    }
}
