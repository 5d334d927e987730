// Heads and bodies of functions (ISO C11 6.7, 6.8, 6.9): what they ask, and what they mean; of a body what each step of it asks and changes, one
// after another.
#![tactic(auto)]

mod acting;
mod begun;
mod checking;
mod folding;
mod halted;
mod heading;
mod kept;
mod labels;
mod meaning;
mod parts;
mod standing;
mod steps;
mod type_names;
mod units;

pub use checking::check_body;
pub use heading::elab_head;
pub use units::{KeptItems, fold_items};
