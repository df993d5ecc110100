//! Widths of values.
ghost use Rattle.std.specs.Prelude.{◌≡◌, ◌≤◌, ◌↔◌, IsSome, IfSome};

use std::marker::Model;

/// A number of bits, from 1 to 64. Contracts see it as that number.
#[derive(Clone, Copy, Debug, PartialEq, Eq)]
pub struct Width {
    bits: u8,
}

impl Model for Width {
    ghost use Rattle.std.specs.Prelude.{ℕ, ◌≤◌};
    ghost use Rattle.std.specs.Coded.{coded_ℕ};

    ghost Value = { ℕ };

    ghost coded = { coded_ℕ };

    ghost view = { λ w. w.bits };

    ghost invariant = { λ w. (1 ≤ w.bits) × (w.bits ≤ 64) };

    ghost inverse = { λ n. record { bits = n } };
}

impl Width {
    /// The width of addresses, jump targets and most cells.
    pub const WORD: Width = Width { bits: 32 };

    /// The width of conditions and flags.
    pub const FLAG: Width = Width { bits: 1 };

    /// The width of so many bits; `None` exactly where `bits` is 0 or over 64.
    pub fn new(bits: u8) -> Option<Width>
        ensures valid { IsSome result ↔ ((1 ≤ bits) × (bits ≤ 64)) }
        ensures value { IfSome result (λ w. w ≡ bits) }
    {
        if bits == 0 || bits > 64 {
            return None;
        }
        Some(Width { bits })
    }

    /// The number of bits.
    pub fn bits(&self) -> u8
        ensures value { result ≡ self.now }
        ensures least { 1 ≤ result }
        ensures most { result ≤ 64 }
    {
        self.bits
    }
}
