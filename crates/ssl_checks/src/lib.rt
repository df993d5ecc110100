//! The checks of one line of a description of instructions, each exact against its definition.
#![tactic(auto)]

mod counted;
mod instructions;
mod jumps;
mod known;
mod known_names;
mod measures;
mod named_widths;
mod places;
mod ranges;
mod transfers;
mod views;
mod windows;

pub use counted::is_counted_expr;
pub use instructions::{
    are_counted_transfers, are_known_transfers, are_places_assigned, are_transfers_in_range,
    transfers_differ,
};
pub use jumps::are_single;
pub use known::{is_known_expr, is_known_part};
pub use known_names::KnownNames;
pub use measures::{asked, measure};
pub use ranges::{in_width, is_width};
pub use transfers::{is_transfer_in_range, transfer_differs};
pub use views::{are_parts_in_range, parts_differ};
pub use windows::{are_windows, is_zero, windows_differ};
