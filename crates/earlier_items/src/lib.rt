// What the items in front of an item declare (ISO C11 6.2.1p4, p7), so that what is asked of them is looked up.
#![tactic(auto)]

mod adding;
mod differences;
mod earlier;
mod tags;

pub use differences::{Changed, note_names};
pub use earlier::Earlier;
pub use tags::{same_tags, tags_of};
