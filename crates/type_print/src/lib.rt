// The text of types and declarations (ISO C11 6.7.6, 6.7.7).
#![tactic(auto)]

mod declarators;
mod names;
mod printing;

pub use printing::print;
