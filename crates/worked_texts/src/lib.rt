//! What C texts are and do, on worked values.
#![tactic(auto)]

#[cfg(test)]
mod c_eval_tests;
#[cfg(test)]
mod c_lower_tests;
#[cfg(test)]
mod c_text_tests;
#[cfg(test)]
mod law_tests;
