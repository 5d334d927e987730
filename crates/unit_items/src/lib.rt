// The items of a unit by name, and what stands in them told by the tokens of the texts (ISO C11 6.9, 6.10).
#![tactic(auto)]

mod items;
mod naming;
mod sources;

pub use items::Item;
pub use naming::items_of;
pub use sources::Sources;
