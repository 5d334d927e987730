// Tokens and where they come from, shared by all that reads and expands them (ISO C11 6.4, 6.10).
#![tactic(auto)]

mod faults;
mod keywords;
mod lists;
mod macros;
mod sources;
mod tokens;

pub use faults::{Placed, PpFault, ShownFault};
pub use keywords::is_keyword;
pub use lists::{MacroOccs, OutTokens, PpFaults, TokIds};
pub use macros::{MacroOcc, MacroRole};
pub use sources::{FileId, TokId};
pub use tokens::{OutToken, PpKind, PpToken, Spelt};
