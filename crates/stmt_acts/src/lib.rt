// What there is to check of a function's body, as a list in the order of its tokens (ISO C11 6.8).
#![tactic(auto)]

mod acts;
mod bodies;
mod leads;
mod statements;
mod works;

pub use acts::{Act, Within};
pub use bodies::acts_of;
