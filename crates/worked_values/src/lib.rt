//! What public calls of crates below answer on worked values.
#![tactic(auto)]

#[cfg(test)]
mod act_tests;
#[cfg(test)]
mod decode_tests;
#[cfg(test)]
mod rtl_core_tests;
#[cfg(test)]
mod rtl_meaning_tests;
#[cfg(test)]
mod sled_match_tests;
#[cfg(test)]
mod test_items;
#[cfg(test)]
mod test_memory;
