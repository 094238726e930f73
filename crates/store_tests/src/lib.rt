//! Tests of keepers in memory, over SQL and over files; of runs that something stops: each failing
//! call, each place at which a script ends, each call of a file; and of stores of another version
//! or with damage.

#![tactic(auto)]

#[cfg(test)]
mod change_tests;
#[cfg(test)]
mod cut_tests;
#[cfg(test)]
mod damage_tests;
#[cfg(test)]
mod documents;
#[cfg(test)]
mod failing_tests;
#[cfg(test)]
mod file_sessions;
#[cfg(test)]
mod file_tests;
#[cfg(test)]
mod fuse_tests;
#[cfg(test)]
mod keeper_tests;
#[cfg(test)]
mod memory_tests;
#[cfg(test)]
mod place_tests;
#[cfg(test)]
mod prefixes;
#[cfg(test)]
mod prompt_tests;
#[cfg(test)]
mod scripts;
#[cfg(test)]
mod sessions;
#[cfg(test)]
mod sql_tests;
#[cfg(test)]
mod three_scripts;
