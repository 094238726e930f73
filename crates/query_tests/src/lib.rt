//! Tests of window queries: their plans, probes and lines, what they find, when a run is next
//! worthwhile; and of boxes, votes, lists and digests.

#![tactic(auto)]

#[cfg(test)]
mod box_tests;
#[cfg(test)]
mod conditions;
#[cfg(test)]
mod documents;
#[cfg(test)]
mod index_tests;
#[cfg(test)]
mod line_tests;
#[cfg(test)]
mod list_tests;
#[cfg(test)]
mod mark_tests;
#[cfg(test)]
mod order_tests;
#[cfg(test)]
mod probe_tests;
#[cfg(test)]
mod probes;
#[cfg(test)]
mod run_tests;
#[cfg(test)]
mod score_tests;
#[cfg(test)]
mod wake_tests;
