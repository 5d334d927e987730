// What a unit means, by what the heads and bodies of its items mean (ISO C11 5.1.1.1, 6.2, 6.9).
#![tactic(auto)]

mod elaborated;
mod entities;
mod exports;
mod faults;
mod firsts;
mod kept;
mod meaning;
mod occurrences;
mod order;
mod room;
mod sites;
mod statements;
mod symbols;
mod tags;

pub use meaning::meaning_of;
pub use sites::{all_reached, moved};
