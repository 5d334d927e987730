// The macros that are defined at a place of a unit (ISO C11 6.10.3).
#![tactic(auto)]

mod definition;
mod same;
mod table;

pub use definition::{Body, MacroDef, Params};
pub use table::{Defined, MacroTable};
