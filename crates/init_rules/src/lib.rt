// Initializers (ISO C11 6.7.9): step by step, what each is for, and the rule that it breaks.
#![tactic(auto)]

mod accepted;
mod descents;
mod designators;
mod expressions;
mod extents;
mod parts;
mod paths;
mod places;
mod spots;
mod stack;
mod state;
mod stepping;
mod strings;

pub use extents::completed;
pub use stack::Stack;
pub use state::{InitPiece, InitState, OpenPlace};
pub use stepping::init_step;
