// Macro expansion (ISO C11 6.10.3) by Prosser's algorithm.
#![tactic(auto)]

mod advancing;
mod arguments;
mod building;
mod expanding;
mod finding;
mod glue;
mod growing;
mod hide;
mod keeping;
mod laws;
mod lines;
mod look;
mod machine;
mod names;
mod operands;
mod parens;
mod queue;
mod rest;
mod sets;
mod skimming;
mod splicing;
mod tokens;
mod types;

pub use expanding::{expand, expand_within};
pub use laws::{lines_change_nothing, more_lines_change_nothing};
pub use types::{Expanded, Within};
