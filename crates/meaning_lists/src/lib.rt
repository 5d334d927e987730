// What a head or a body found, as its meaning lists it: in the order of tokens, and what a name or an anchor has at the end.
#![tactic(auto)]

mod bindings;
mod entities;
mod firsts;
mod found;
mod names;
mod order;

pub use found::{Found, body_meaning, head_meaning};
