//! What a run is made on, with what is looked up in it.
use crate::lookup::Lookup;
use points::Graph;
use rtl_core::{Conv, Machine};

/// A machine, its conventions, the graph of a program, and what is looked up in that.
#[derive(Clone, Copy)]
pub struct Charted<'a> {
    pub machine: &'a Machine,
    pub conv: &'a Conv,
    pub graph: &'a Graph,
    pub lookup: &'a Lookup,
}
