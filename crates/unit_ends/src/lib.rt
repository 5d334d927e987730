// The faults of the end of a unit (ISO C11 6.2.2, 6.9, 6.9.2).
#![tactic(auto)]

mod asked;
mod faults;
mod index;
mod last;
mod names;
mod passed;

pub use faults::end_faults;
