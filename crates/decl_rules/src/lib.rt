// Declarations of C (ISO C11 6.7): what one declarator or parameter declares, or the rule that it breaks.
#![tactic(auto)]

mod alignment;
mod declaring;
mod entities;
mod faults;
mod linkage;
mod parts;
mod redeclaring;
mod shapes;
mod sorts;
mod storage;

pub use declaring::declare_one;
pub use parts::{DeclParts, Storage};
