//! The state of a run as plain lists.
ghost use Rattle.std.specs.Prelude.{◌≡◌, []};

use c_lang::{End, Stmt, Var};
use rtl_core::{Point, Stop};
use sqlite_items::Items;
use sysemu::Streams;

/// A value given to a variable.
#[derive(Clone, Copy, Debug, PartialEq, Eq)]
pub struct Setting {
    pub var: Var,
    pub value: u64,
}

/// A value given to a word of `uq_w`.
#[derive(Clone, Copy, Debug, PartialEq, Eq)]
pub struct Word {
    pub index: u64,
    pub value: u64,
}

/// Where a frame stands: its statements that are left, and the end behind them.
#[derive(Debug, Drop)]
pub enum PlainPlace {
    /// In a function that has no block.
    Nowhere,
    At(Items<Stmt>, End),
}

/// A call that is open: the place of its function among all, where it stands, and what was assigned to its
/// variables.
#[derive(Debug, Drop)]
pub struct PlainFrame {
    pub function: usize,
    pub place: PlainPlace,
    pub vars: Items<Setting>,
}

/// The call on top, those below it (the latest last), and what they share. Between steps nothing is pending.
#[derive(Drop)]
pub struct PlainState {
    pub top: PlainFrame,
    pub below: Items<PlainFrame>,
    pub globals: Items<Setting>,
    pub words: Items<Word>,
    pub output: Items<u8>,
    pub streams: Streams,
    ghost settled: { streams.pending ≡ [] },
}

/// What a step led to.
#[derive(Clone, Copy, Debug, PartialEq, Eq)]
pub enum Taken {
    /// The run goes on.
    Went,
    /// It stops.
    Stops(Stop),
    /// No step can be made in the function on top.
    Sticks,
}

/// What an end decides.
#[derive(Clone, Copy, Debug)]
pub enum Way {
    /// On at a label of the same function.
    On(Point),
    /// Back to the caller.
    Back,
    /// No further: the run stops or sticks.
    Over(Taken),
}
