// The tokens of a unit (ISO C11 6.10): directives, conditionals, inclusion and macro expansion.
#![tactic(auto)]

mod conditionals;
mod cursor;
mod definitions;
mod faults;
mod firsts;
mod frames;
mod grown;
mod heads;
mod inclusion;
mod kept;
mod known;
mod laws;
mod literals;
mod made;
mod named;
mod own;
mod reading;
mod runs;
mod shared;
mod stack;
mod stop;
mod texts;
mod tokens;
mod told;
mod types;
mod unit;
mod units;

pub use laws::{
    FileQuestions, UnitResults, files_are_lawful, units_are_right, units_ask_in_order, units_end,
};
pub use named::tokens_named;
pub use shared::{PpTokens, TextPlaces};
pub use types::{Entered, Entry, FileAnswer, Go, Paths, UnitTokens, Want, Wants};
pub use unit::{Unit, are_usable, is_short};
