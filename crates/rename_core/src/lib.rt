// Renames of a name (ISO C11 6.2.1): which tokens denote the same, what stands in the way of another name, and whether every
// binding stays.
#![tactic(auto)]

mod class;
mod comparing;
mod confirming;
mod error;
mod finding;
mod grown;
mod laws;
mod lists;
mod lookups;
mod marks;
mod mentions;
mod order;
mod planning;
mod showing;
mod views;
mod walk;

pub use class::{Class, Plan, TwoMeanings};
pub use confirming::{Edits, confirm};
pub use error::RenameError;
pub use finding::class_of;
pub use laws::{classes_are_lists, confirmed_renames_keep, others_add_nothing};
pub use planning::plan;
pub use views::{FileKinds, UnitView};
