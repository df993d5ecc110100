//! The base of every other crate: described machines as plain data, and what they mean.
//!
//! The types stand here in `src/`. The meaning of an instruction stands in `specs/`, as definitions
//! that every contract above cites: matching, grounding, values, transfers, memory, services.
#![tactic(auto)]

pub mod access;
pub mod bytes;
pub mod cells;
pub mod conv;
pub mod encodings;
pub mod examples;
pub mod expr;
mod expr_copies;
pub mod frozen;
mod grounding;
pub mod inst;
pub mod laws;
pub mod machine;
pub mod memory;
pub mod names;
pub mod point;
mod put_in;
mod site;
pub mod stop;
pub mod template;
pub mod transfer;
pub mod width;

pub use access::{load, store};
pub use bytes::{
    byte_at, copy_in, copy_out, first_unmapped, first_unwritable, writable_at, write_at,
};
pub use cells::Cells;
pub use conv::{Conv, Numbers, ServiceShape};
pub use encodings::{Bind, Coded, Encodings, Item, OperandKind, Test, Typed};
pub use examples::{access_examples, arithmetic_examples};
pub use expr::{Bin, Expr, Order, Un};
pub use expr_copies::copy_expr;
pub use frozen::{Frozen, FrozenPart};
pub use grounding::{ground, try_ground};
pub use inst::{GroundInst, Inst, Leaves};
pub use machine::{CellPart, Form, Machine, NamedMachine, WinShape};
pub use memory::Memory;
pub use names::CellNames;
pub use point::{Point, Slot};
pub use stop::{Reply, RunEnd, Stop, Trap};
pub use template::{TAct, TExpr, TPlace, TTransfer, Template};
pub use transfer::{Act, Transfer};
pub use width::Width;
