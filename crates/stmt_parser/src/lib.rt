// Statements and bodies of C read from the tokens of a unit (ISO C11 6.8).
#![tactic(auto)]

mod bodies;
mod cores;
mod frames;
mod fronts;
mod laws;
mod leads;
mod outside;
mod parts;
mod statements;
mod steps;

pub use bodies::parse_body;
pub use laws::{body_reading_is_unique, statements_are_balanced, units_are_cut};
