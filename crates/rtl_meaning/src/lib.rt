//! What instructions mean: arithmetic on numbers of 1 to 64 bits, the values of expressions, and transfers.
#![tactic(auto)]

mod acts;
mod arithmetic;
mod effect;
mod evaluation;
mod window_moves;
mod windows;

pub use acts::{run_acts, with_bits};
pub use arithmetic::{apply, apply_un, bits, sign_extend};
pub use effect::Effect;
pub use evaluation::{eval, width_of_expr};
pub use rtl_core::Trap;
pub use windows::{Window, Windows};
