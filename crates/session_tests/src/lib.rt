//! Tests of the engine and of sessions over keepers in memory: whole scripts and what is written
//! for them, and POP3 sessions.

#![tactic(auto)]

#[cfg(test)]
mod command_tests;
#[cfg(test)]
mod count_tests;
#[cfg(test)]
mod drawn_tests;
#[cfg(test)]
mod first_tests;
#[cfg(test)]
mod letter_tests;
#[cfg(test)]
mod limit_tests;
#[cfg(test)]
mod long_tests;
#[cfg(test)]
mod pop_tests;
#[cfg(test)]
mod reading_tests;
#[cfg(test)]
mod sample_tests;
#[cfg(test)]
mod script_tests;
#[cfg(test)]
mod shape_tests;
#[cfg(test)]
mod slow_asked;
#[cfg(test)]
mod slow_rows;
#[cfg(test)]
mod slow_tests;
#[cfg(test)]
mod start_tests;
