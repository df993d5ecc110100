//! The machine of a sample.

/// The machine that a sample is for.
#[derive(Clone, Copy, Debug, PartialEq, Eq)]
pub enum Kind {
    /// SPARC V8.
    Sparc,
    /// The 80386.
    I386,
}
