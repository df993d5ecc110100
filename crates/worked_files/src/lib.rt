//! What files, memory and services answer on worked values.
#![tactic(auto)]

#[cfg(test)]
mod edge_io_tests;
#[cfg(test)]
mod elf32_tests;
#[cfg(test)]
mod gathering_tests;
#[cfg(test)]
mod load_image_tests;
#[cfg(test)]
mod space_tests;
#[cfg(test)]
mod sysemu_tests;
