//! What the tree of a matcher finds, against a plain scan.
#![tactic(auto)]

#[cfg(test)]
mod byte_pairs;
#[cfg(test)]
mod large_texts;
#[cfg(test)]
mod small_i386;
#[cfg(test)]
mod text_order;
