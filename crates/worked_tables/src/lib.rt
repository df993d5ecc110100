//! Tables of computed jumps, worked by hand.
#![tactic(auto)]

#[cfg(test)]
mod bound_tests;
#[cfg(test)]
mod cell_tests;
#[cfg(test)]
mod chain_tests;
#[cfg(test)]
mod executable;
#[cfg(test)]
mod found_table;
#[cfg(test)]
mod guard_tests;
#[cfg(test)]
mod machine_tests;
#[cfg(test)]
mod open_tests;
#[cfg(test)]
mod small_machine;
