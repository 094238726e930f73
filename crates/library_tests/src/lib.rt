//! Tests of the libraries that read: words and rows, mail, queries, scripts, filters, and the
//! tables that a store may hold at a start.

#![tactic(auto)]

#[cfg(test)]
mod atom_tests;
#[cfg(test)]
mod edge_tests;
#[cfg(test)]
mod field_tests;
#[cfg(test)]
mod key_tests;
#[cfg(test)]
mod line_tests;
#[cfg(test)]
mod meaning_tests;
#[cfg(test)]
mod option_tests;
#[cfg(test)]
mod parse_tests;
#[cfg(test)]
mod pool_tests;
#[cfg(test)]
mod rule_tests;
#[cfg(test)]
mod script_tests;
#[cfg(test)]
mod table_tests;
#[cfg(test)]
mod text_tests;
#[cfg(test)]
mod word_tests;
