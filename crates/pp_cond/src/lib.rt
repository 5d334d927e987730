// Conditions of `#if` and `#elif` (ISO C11 6.10.1).
#![tactic(auto)]

mod deciding;
mod defined;
mod frames;
mod laws;
mod marks;
mod numbers;
mod occurrences;
mod reader;
mod symbols;
mod types;

pub use deciding::condition;
pub use laws::conditions_mean;
pub use types::{Cond, Truth};
