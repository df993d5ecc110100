//! Expressions of transfers.
ghost use Rattle.std.specs.Prelude.{◌≡◌};
ghost use Rattle.rtl_core.specs.Arithmetic.{is_comparison, is_division, result_width};

use crate::width::Width;
use sqlite_items::Boxed;

/// The order in which the bytes of a number lie in memory: the least significant first, or the most.
#[derive(Clone, Copy, Debug, PartialEq, Eq)]
pub enum Order {
    Little,
    Big,
}

/// Operators of one operand, modulo 2 to the width.
#[derive(Clone, Copy, Debug, PartialEq, Eq)]
pub enum Un {
    /// Every bit turned round.
    Not,
    /// The negative in two's complement.
    Neg,
}

/// Operators of two operands of one width. The last letter tells signed (two's complement) from unsigned.
#[derive(Clone, Copy, Debug, PartialEq, Eq)]
pub enum Bin {
    Add,
    Sub,
    Mul,
    DivU,
    DivS,
    RemU,
    RemS,
    And,
    Or,
    Xor,
    Shl,
    ShrU,
    ShrS,
    Eq,
    Ne,
    LtU,
    LtS,
    LeU,
    LeS,
}

impl Bin {
    /// Whether the operator stops where its second operand is 0.
    pub fn divides(self) -> bool
        ensures { result ≡ is_division self }
    {
        matches!(self, Bin::DivU | Bin::DivS | Bin::RemU | Bin::RemS)
    }

    /// Whether the result is 1 bit, whatever the operands' width.
    pub fn compares(self) -> bool
        ensures { result ≡ is_comparison self }
    {
        matches!(
            self,
            Bin::Eq | Bin::Ne | Bin::LtU | Bin::LtS | Bin::LeU | Bin::LeS
        )
    }

    /// The width of the result, from that of the operands.
    pub fn width_of_result(self, w: u8) -> u8
        ensures { result ≡ result_width self w }
    {
        if self.compares() { 1 } else { w }
    }
}

/// A value of 1 to 64 bits, over the cells and the memory of a machine.
#[derive(Debug, Drop)]
pub enum Expr {
    /// A number of this width.
    Const(Width, u64),
    /// The cell of this number.
    Cell(u8),
    /// So many bytes of memory (1, 2, 4 or 8) from an address of 32 bits on.
    Load(u8, Boxed<Expr>),
    Un(Un, Boxed<Expr>),
    Bin(Bin, Boxed<Expr>, Boxed<Expr>),
    /// The bits from the first number to the second, both included, bit 0 the least.
    Slice(Boxed<Expr>, u8, u8),
    /// The same number in more bits.
    Zext(Width, Boxed<Expr>),
    /// The number with its sign bit repeated in the bits above.
    Sext(Width, Boxed<Expr>),
    /// The second where the first, of 1 bit, is 1; else the third. All three are evaluated.
    If(Boxed<Expr>, Boxed<Expr>, Boxed<Expr>),
}
