//! A pool of frames of 4,096 bytes, each of which may have several holders until one of them writes.
#![tactic(auto)]

mod bytes;
mod free_list;
mod pool;

pub use pool::{FRAME_BYTES, Frame, Pool};
