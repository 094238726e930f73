//! The form in which a condition is evaluated. It holds whenever the condition does. Each EXISTS
//! stands only around what names its variable, and an OR whose sides each have a key of the index
//! is split into an EXISTS for each side.
#![tactic(auto)]

mod build;
mod form;
mod keys;
pub mod laws;
mod limits;
mod names;
mod place;
mod scoping;
mod splitting;

pub use form::form_of;
