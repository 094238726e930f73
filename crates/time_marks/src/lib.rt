//! The seconds at which a condition can change, and what a query of windows of seconds finds.
#![tactic(auto)]

mod copies;
pub mod laws;
mod mark;
mod probe;
mod ranged;
mod ranged_query;
mod rising_marks;
mod seek;
mod window;
mod window_query;

pub use copies::{arrival_term, copy, copy_term};
pub use mark::{Mark, Step};
pub use probe::Probe;
pub use ranged::Ranged;
pub use ranged_query::RangedQuery;
pub use rising_marks::{longer_path, rising, rising_from};
pub use seek::Seek;
pub use window::Window;
pub use window_query::WindowQuery;
