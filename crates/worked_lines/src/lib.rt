//! What the readers of descriptions answer on worked lines.
#![tactic(auto)]

#[cfg(test)]
mod sled_core_tests;
#[cfg(test)]
mod sled_syntax_tests;
#[cfg(test)]
mod ssl_checks_tests;
#[cfg(test)]
mod ssl_nodes_tests;
#[cfg(test)]
mod ssl_rules_tests;
#[cfg(test)]
mod ssl_templates_tests;
#[cfg(test)]
mod text_lex_tests;
