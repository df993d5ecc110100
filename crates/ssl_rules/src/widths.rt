//! Widths of expressions.

/// Two widths that must agree and do not: the one that is asked for or stands first, and the other.
#[derive(Clone, Copy, Debug, PartialEq, Eq)]
pub struct Mismatch {
    pub left: u8,
    pub right: u8,
}

/// The width of an expression, where its numbers are in range, and the first two widths in it that differ.
#[derive(Clone, Copy, Debug, PartialEq, Eq)]
pub struct Measure {
    pub width: Option<u8>,
    pub differs: Option<Mismatch>,
}
