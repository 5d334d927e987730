// The items of a unit and their labels (ISO C11 6.9).
#![tactic(auto)]

mod cutting;
mod labels;
mod marks;
mod openings;
mod progress;

pub use cutting::cut;
pub use labels::label;
pub use openings::body_start;
