//! The services of the operating system that a guest program asks for: exit, read, write and brk.
#![tactic(auto)]

pub mod cell_service;
pub mod services;
pub mod streams;

pub use cell_service::{Served, serve};
pub use rtl_core::Reply;
pub use services::reply;
pub use streams::Streams;
